#![tactic(auto)]
// What the public calls test of lent types, lists, entries and impl types: 3 over all types of all lists, however long these are, then 4, then 5. Any numbers
// may be lent.
ghost use Rattle.std.specs.Prelude.{◌≡◌, length};
ghost use Rattle.scope.specs.Types.{ty_of};
ghost use Rattle.scope.specs.Nodes.{Store};
ghost use Rattle.scope.specs.Calls.{first_broken, too_many, bad_entries};
ghost use Rattle.types.specs.Impls.{impl_means};
ghost use Rattle.chart.specs.Env.{texts_lent, chart_alone};
ghost use Rattle.store.specs.Entries.{types_in};
ghost use Rattle.lent_tests.specs.Given.{three_tests, pair_tests, among_tests, list_tests, sig_tests, object_tests, impls_tests, one_impl_tests, entries_in, FirstOf};
ghost use Rattle.refusals.specs.Codes.{told};

use chart::Env;
use kinds::OBJECT;
use layout::{CHILD_WORDS, Kind};
use refusals::Refusal;
use scope::MAX_LIST;
use types::{Impl, Type};

// The first of refusals 3, 4 and 5 that stands.
fn first(outside: bool, unmakeable: bool, undefined: bool) -> Result<(), Refusal>
    ensures { first_broken (three_tests outside unmakeable undefined) ≡ told result }
{
    if outside {
        return Err(Refusal::Outside);
    }
    if unmakeable {
        return Err(Refusal::Unmakeable);
    }
    if undefined {
        return Err(Refusal::Undefined);
    }
    Ok(())
}

// Two types among n nodes.
pub fn pair(a: Type, b: Type, n: u32) -> Result<(), Refusal>
    ensures { FirstOf n (pair_tests (ty_of a.0) (ty_of b.0)) (told result) }
{
    let outside = !refusals::type_inside(a, n) || !refusals::type_inside(b, n);
    first(outside, false, false)
}

// "over 255 listed types or parameters"
pub fn too_many(xs: &[u32]) -> bool
    ensures { result ≡ too_many (types_in xs.now) }
{
    xs.len() > MAX_LIST
}

// Two lists of types: the first is among n nodes, the second among m, which another store may have.
pub fn lists_among(xs: &[u32], n: u32, ys: &[u32], m: u32) -> Result<(), Refusal>
    ensures { (o : Store) → length o.nodes ≡ n → FirstOf m (among_tests o (types_in xs.now) (types_in ys.now)) (told result) }
{
    let outside = !refusals::types_inside(xs, n) || !refusals::types_inside(ys, m);
    let unmakeable = too_many(xs) || too_many(ys);
    first(outside, unmakeable, false)
}

// Two lists of one store's types.
pub fn lists(xs: &[u32], ys: &[u32], n: u32) -> Result<(), Refusal>
    ensures { FirstOf n (list_tests (types_in xs.now) (types_in ys.now)) (told result) }
{
    lists_among(xs, n, ys, n)
}

// Two signatures: their parameters, and a return each.
pub fn signatures(xs: &[u32], a: Type, ys: &[u32], b: Type, n: u32) -> Result<(), Refusal>
    ensures { FirstOf n (sig_tests (types_in xs.now) (ty_of a.0) (types_in ys.now) (ty_of b.0)) (told result) }
{
    pair(a, b, n)?;
    lists(xs, ys, n)
}

// Too many entries, no whole ones, or a bad name: "object names not strictly ascending". Names are read once their number is tested.
fn bad_entries(xs: &[u32], env: &Env<'_>) -> bool
    ensures { result ≡ bad_entries (texts_lent env.now) (entries_in xs.now) }
{
    let count = store::entry_count(xs);
    if count > MAX_LIST || xs.len() % CHILD_WORDS != 0 {
        return true;
    }
    let object = Kind {
        count: count as u32,
        ..store::bare_kind(OBJECT)
    };
    !kind_sound::names_fit(object, xs, &env.texts)
}

// Two objects, by their entries. No name is read where a type is outside.
// Kept (2): `lists_among` asks the same of two lists by two other tests; one function for both would take the two tests as closures, with contracts of their own, for these three lines.
pub fn objects(xs: &[u32], ys: &[u32], n: u32, env: &Env<'_>) -> Result<(), Refusal>
    ensures { FirstOf n
        (object_tests (texts_lent env.now) (entries_in xs.now) (entries_in ys.now)) (told result) }
{
    if !refusals::entries_inside(xs, n) || !refusals::entries_inside(ys, n) {
        return Err(Refusal::Outside);
    }
    let unmakeable = bad_entries(xs, env) || bad_entries(ys, env);
    first(false, unmakeable, false)
}

// One impl type. "a definition is absent or of another sort": a trait's record stands at its number.
pub fn one_impl(a: Impl<'_>, n: u32, env: &Env<'_>) -> Result<(), Refusal>
    ensures { FirstOf n (one_impl_tests (chart_alone env.now.chart.now) (impl_means a.entry)) (told result) }
{
    match a {
        Impl::Trait(i, xs) => first(
            !refusals::types_inside(xs, n),
            too_many(xs),
            !chart::is_trait(env.chart, i),
        ),
        Impl::Error => Ok(()),
    }
}

// Two impl types: what is tested first has the smaller number.
pub fn impls(a: Impl<'_>, b: Impl<'_>, n: u32, env: &Env<'_>) -> Result<(), Refusal>
    ensures { FirstOf n
        (impls_tests (chart_alone env.now.chart.now) (impl_means a.entry) (impl_means b.entry)) (told result) }
{
    match (one_impl(a, n, env), one_impl(b, n, env)) {
        (Err(r), Err(q)) => Err(r.min(q)),
        (Err(r), _) => Err(r),
        (Ok(()), second) => second,
    }
}

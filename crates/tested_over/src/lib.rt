#![tactic(auto)]
// A kind over listed types whose children have no names, as a Tuple, a Struct or a Ref, on a tested store: the types are put straight into the store's words, and
// no entries are laid out. It tests 3, 4, 5, 10 and 11 as `new` does.
// Kept (2), (5): as `promise` says.
ghost use Rattle.std.specs.Prelude.{◌≡◌, List, ℕ, ◌+◌, ◌≤◌, length};
ghost use Rattle.scope.specs.Limits.{MAX_WIDTH};
ghost use Rattle.scope.specs.Types.{Ty};
ghost use Rattle.scope.specs.Kinds.{NO_NAMES, row_of};
ghost use Rattle.scope.specs.Make.{new};
ghost use Rattle.scope.specs.Calls.{first_broken, over};
ghost use Rattle.chart.specs.Env.{chart_in};
ghost use Rattle.layout.specs.Words.{child_words, store_in};
ghost use Rattle.store.specs.Holds.{Ready};
ghost use Rattle.make.specs.Made.{MadeIs};
ghost use Rattle.make.specs.Given.{KindReady, Put, kind_given};
ghost use Rattle.refusals.specs.Codes.{told};
ghost use Rattle.promise.specs.Promise.{Promised, type_reply};
ghost use Rattle.lent_kind.specs.Lent.{given, plain_args, kind_tests};
ghost use Rattle.tested_over.specs.Inside.{inside_call};
ghost use Rattle.tested_over.specs.Over.{entries_of, PassedBy, OverPromised};

use kinds::{ERROR, Names};
use layout::{Kind, Slot};
use lent_kind::{flagged, plain_args, test_list};
use names::NO_NAME;
use refusals::Refusal;
use types::Type;

// The listed types without names, behind the `first` children made.
fn put_listed(ks: &mut [u32], first: u32, types: &[u32])
    requires { child_words (first + length types.now) ≤ length ks.old }
    ensures { Put (entries_of types.now) first (length types.now) ks.old ks.new }
{
    let from = first as usize;
    for (i, t) in types.iter().enumerate() {
        let kid = Slot {
            ty: Type(*t),
            name: NO_NAME,
        };
        layout::put_child(ks, from + i, kid);
    }
}

// `new_kind` over listed types without names.
// Kept (2): both put children behind those made and push the kind that has them; a function for that would take who puts them as a closure, which lends the children's words again.
fn new_listed(h: &mut [u32], ws: &mut [u32], ks: &mut [u32], k: Kind, types: &[u32]) -> Type
    requires { KindReady h.old ws.old ks.old k (entries_of types.now) }
    ensures { MadeIs h.old ws.old ks.old h.new ws.new ks.new result
        (new (store_in h.old ws.old ks.old) (kind_given k (entries_of types.now))) }
{
    let first = heads::children_made(h);
    put_listed(ks, first, types);
    let count = types.len() as u32;
    make::push_kind(h, ws, Kind { first, count, ..k })
}

// The first of refusals 4 and 5 that stands for a kind without names over n types. Its texts are not looked at.
fn test_plain(k: Kind, chart: &[u32], n: usize) -> Result<(), Refusal>
    requires code_value { (row_of k.code).names ≡ NO_NAMES }
    requires n_bound { n ≤ MAX_WIDTH }
    ensures { (rule text : List ℕ) (ts : List Ty) → length ts ≡ n → first_broken (kind_tests (chart_in chart.now rule text) (over k.code k.number ts)) ≡ told result }
{
    if k.code > ERROR || !kinds::shape_fits(k.code, n) || !kinds::number_ok(k.code, k.number) {
        return Err(Refusal::Unmakeable);
    }
    if !kind_sound::is_defined(k, chart) {
        return Err(Refusal::Undefined);
    }
    Ok(())
}

// What is left of `new_over` once 3 is passed.
// Kept (5): no `KindArgs` in place of code and number: it would have two fields of zeros, and the contract would have to say that they are.
fn make_over(
    chart: &[u32],
    h: &mut [u32],
    ws: &mut [u32],
    ks: &mut [u32],
    code: u32,
    number: u32,
    types: &[u32],
) -> Result<Type, Refusal>
    requires ready { Ready h.old ws.old ks.old 0 0 }
    requires code_value { (row_of code).names ≡ NO_NAMES }
    requires types_len_bound { length types.now ≤ MAX_WIDTH }
    ensures { (rule text : List ℕ) → Promised
        (inside_call (chart_in chart.now rule text) (store_in h.old ws.old ks.old) (given (plain_args code number) (entries_of types.now)))
        (type_reply result) h.old ws.old ks.old h.new ws.new ks.new }
{
    let n = types.len();
    let k = flagged(plain_args(code, number), chart);
    test_plain(k, chart, n)?;
    refusals::room(h, 1, n as u32)?;
    Ok(new_listed(h, ws, ks, k, types))
}

// `new` of a kind without names.
pub fn new_over(
    chart: &[u32],
    h: &mut [u32],
    ws: &mut [u32],
    ks: &mut [u32],
    code: u32,
    number: u32,
    types: &[u32],
) -> Result<Type, Refusal>
    requires { PassedBy chart.now h.old ws.old ks.old }
    ensures { OverPromised chart.now code number types.now (type_reply result)
        h.old ws.old ks.old h.new ws.new ks.new }
{
    if kinds::row_of(code).names != Names::No {
        return Err(Refusal::Unmakeable);
    }
    let x = layout::read_header(h);
    let inside = refusals::types_inside(types, x.nodes);
    test_list(inside, types.len())?;
    make_over(chart, h, ws, ks, code, number, types)
}

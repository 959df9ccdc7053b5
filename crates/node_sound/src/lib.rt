#![tactic(auto)]
// Refusal 8 of each node: its words say a node, and that node is sound. `clean` has the test of the words and `kind_sound` that of the node; of most kinds
// both are known at once, by one look at the node and at each child.
//
// A kind's width is tested before its children are read, and two names are compared once however many runs they lie in: the time is that of the nodes,
// of at most 255 children each, and of the names of all children made.
ghost use Rattle.std.specs.Prelude.{◌≡◌, true, ◌&&◌, List, ◌+◌, ◌-◌, ◌<◌, ◌≤◌, ltb, length};
ghost use Rattle.scope.specs.Base.{all, from};
ghost use Rattle.scope.specs.Limits.{MAX_CHILDREN};
ghost use Rattle.scope.specs.Types.{ty_of};
ghost use Rattle.scope.specs.Names.{name_ok};
ghost use Rattle.scope.specs.Kinds.{row_of};
ghost use Rattle.scope.specs.Nodes.{Node};
ghost use Rattle.kinds.specs.Rows.{as_row};
ghost use Rattle.names.specs.Place.{name_of, texts_by};
ghost use Rattle.chart.specs.Env.{chart_lent};
ghost use Rattle.layout.specs.Words.{slot_at};
ghost use Rattle.layout.specs.Meaning.{slot_means};
ghost use Rattle.node_sound.specs.Tests.{plain_slot, node_test, nodes_test, Told, Framed, TrueSeen, Follows, Named, PlainKind, PlainNode};

use chart::Env;
use kinds::{ERROR, Names, Number, Row, SelfDual};
use layout::{CHILD_WORDS, Cell, KNOWN_TAG, Kind, Nodes, Slot};
use names::{NO_NAME, Texts};
use scope::{MAX_CHILDREN, MAX_WIDTH};
use types::TypeIdx;

// For each child whether it was seen to have a name that comes after the one before it.
// Kept (5): that what was seen is true of the texts and the children's words is asked and said by five. A struct of all three, whose parts a function may set, would have
// each say that texts and words are those that were lent, which of shared slices nobody has to say.
type Seen = [bool; MAX_CHILDREN];

// A child without a name, one of n nodes. Both are looked at, with no branch between them.
fn plain_child(x: Slot, n: u32) -> bool
    ensures { result ≡ plain_slot n (slot_means x) }
{
    (x.name == NO_NAME) & (x.ty.idx().0 < n)
}

// A quick yes to whether the children a to e are such. A run that is not all in ks has no quick yes, so a child is read without a test of its own.
fn plain_children(ks: &[u32], a: usize, e: usize, n: u32) -> bool
    ensures { result ≡ true → all (λ j. plain_slot n (slot_at ks.now j)) (from a (e - a)) ≡ true }
{
    e <= ks.len() / CHILD_WORDS && (a..e).all(|i| plain_child(layout::child_at(ks, i), n))
}

// A quick yes to whether the kind, which has this row, is defined and has the chart's flag: a kind of no definition is, and has no flag.
fn told(k: Kind, row: Row, chart: &[u32]) -> bool
    requires { as_row row ≡ row_of k.code }
    ensures { result ≡ true → Told chart.now k }
{
    match (row.number, row.dual) {
        (Number::Definition(_, _), _) => kind_sound::is_defined(k, chart)
            && kind_sound::has_chart_flag(k, chart),
        (_, SelfDual::AsChart) => false,
        _ => !k.dual,
    }
}

// A quick yes to all tests of a kind, which has this row, that look neither at names of children nor at the nodes; nor has it a name of its own.
fn frame_ok(k: Kind, row: Row, chart: &[u32]) -> bool
    requires { as_row row ≡ row_of k.code }
    ensures { result ≡ true → Framed chart.now k }
{
    let count = k.count as usize;
    k.code <= ERROR
        && count <= MAX_WIDTH
        && k.flex == 0
        && kinds::row_fits(row, count)
        && kinds::row_number_ok(row, k.number)
        && clean::name_clean(false, k.name)
        && told(k, row, chart)
}

// An object's first child: it has a name and is one of n nodes.
fn named_child(child: Slot, n: u32, texts: &Texts<'_>) -> bool
    ensures { result ≡ (name_ok (texts_by texts.now) (name_of child.name) && ltb (ty_of child.ty.0).idx n) }
{
    names::name_ok(child.name, texts) && child.ty.idx().0 < n
}

// A quick yes to whether an object's child i, which is not the first, follows. What was seen of its name is not looked at again.
fn next_child(ks: &[u32], i: usize, n: u32, texts: &Texts<'_>, seen: &mut Seen) -> bool
    requires some { 0 < i }
    requires few { i < MAX_CHILDREN }
    requires known { TrueSeen (texts_by texts.now) ks.now seen.old }
    ensures follows { result ≡ true → Follows (texts_by texts.now) ks.now n i }
    ensures seen { TrueSeen (texts_by texts.now) ks.now seen.new }
{
    let child = layout::child_at(ks, i);
    if child.ty.idx().0 >= n {
        return false;
    }
    if !seen[i] {
        let last = layout::child_at(ks, i - 1);
        seen[i] = names::name_ok(child.name, texts)
            && names::name_before(last.name, child.name, texts);
    }
    seen[i]
}

// A quick yes to whether an object's children a to e are such. A run that is not all in ks has no quick yes, so a child is read without a test of its own.
#[inline(never)]
fn named_children(
    ks: &[u32],
    a: usize,
    e: usize,
    n: u32,
    texts: &Texts<'_>,
    seen: &mut Seen,
) -> bool
    requires order { a ≤ e }
    requires few { e ≤ MAX_CHILDREN }
    requires known { TrueSeen (texts_by texts.now) ks.now seen.old }
    ensures named { result ≡ true → Named (texts_by texts.now) ks.now n a e }
    ensures seen { TrueSeen (texts_by texts.now) ks.now seen.new }
{
    if ks.len() / CHILD_WORDS < e {
        return false;
    }
    if a < e && !named_child(layout::child_at(ks, a), n, texts) {
        return false;
    }
    // Kept (3): as `all` it is no plainer: a turn changes `seen`, so that the closure would have a contract beside this loop's invariant.
    for i in a + 1..e {
        if !next_child(ks, i, n, texts, seen) {
            return false;
        }
    }
    true
}

// A quick yes for a kind without names, or with its children's alone.
fn plain_kind(k: Kind, ks: &[u32], n: u32, env: &Env<'_>, seen: &mut Seen) -> bool
    requires few { k.first + k.count ≤ MAX_CHILDREN }
    requires known { TrueSeen (texts_by env.now.texts) ks.now seen.old }
    ensures plain { result ≡ true → PlainKind (chart_lent env.now) ks.now n k }
    ensures seen { TrueSeen (texts_by env.now.texts) ks.now seen.new }
{
    let row = kinds::row_of(k.code);
    if !frame_ok(k, row, env.chart) {
        return false;
    }
    let first = k.first as usize;
    let end = first + k.count as usize;
    match row.names {
        Names::No => plain_children(ks, first, end, n),
        Names::OfChildren => named_children(ks, first, end, n, &env.texts, seen),
        Names::Own | Names::OfParameters => false,
    }
}

// The same for a node, with c children made.
fn plain_node(x: Cell, ks: &[u32], n: u32, c: u32, env: &Env<'_>, seen: &mut Seen) -> bool
    requires few { c ≤ MAX_CHILDREN }
    requires known { TrueSeen (texts_by env.now.texts) ks.now seen.old }
    ensures plain { result ≡ true → PlainNode (chart_lent env.now) ks.now n c x }
    ensures seen { TrueSeen (texts_by env.now.texts) ks.now seen.new }
{
    x.tag == KNOWN_TAG
        && u64::from(x.link) + u64::from(x.count) <= u64::from(c)
        && x.inv <= 1
        && x.dual <= 1
        && plain_kind(layout::kind_in(x), ks, n, env, seen)
}

// Node i, with c children made.
fn node_sound(nodes: &Nodes<'_>, c: u32, env: &Env<'_>, i: TypeIdx, seen: &mut Seen) -> bool
    requires index { i.0 < nodes.now.made }
    requires few { c ≤ MAX_CHILDREN }
    requires known { TrueSeen (texts_by env.now.texts) nodes.now.kids.now seen.old }
    ensures test { (ns : List Node) → length ns ≡ nodes.now.made → result ≡ node_test (chart_lent env.now) nodes.now.words.now nodes.now.kids.now c ns i.0 }
    ensures seen { TrueSeen (texts_by env.now.texts) nodes.now.kids.now seen.new }
{
    let x = layout::cell_at(nodes.words, i);
    plain_node(x, nodes.kids, nodes.made, c, env, seen)
        || x.count as usize <= MAX_WIDTH
            && clean::node_clean(nodes.words, nodes.kids, c, i)
            && kind_sound::node_sound(nodes.node(i), nodes.kids, nodes.made, env)
}

// All nodes. An object's names that were seen to ascend are not compared again where runs of children overlap.
pub fn nodes_sound(nodes: &Nodes<'_>, c: u32, env: &Env<'_>) -> bool
    requires few { c ≤ MAX_CHILDREN }
    ensures { result ≡ nodes_test (chart_lent env.now) nodes.now.words.now nodes.now.kids.now c nodes.now.made }
{
    let mut seen: Seen = [false; MAX_CHILDREN];
    // Kept (3): as above, for `seen`.
    for i in 0..nodes.made {
        if !node_sound(nodes, c, env, TypeIdx(i), &mut seen) {
            return false;
        }
    }
    true
}

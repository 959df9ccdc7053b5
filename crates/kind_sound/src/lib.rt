#![tactic(auto)]
// Whether a kind is sound. Refusals 4 and 5 turn back what can't be made and what is not defined; a store's kinds have also the chart's flag, and their
// children are nodes of the store. A kind is read with the children's words, so the same tests serve a kind that is to be made and one that a store has.
//
// A kind's width is tested before its children are read, of which it has at most 255, with names of at most 255 bytes.
ghost use Rattle.std.specs.Prelude.{◌≡◌, List, [], map, length};
ghost use Rattle.scope.specs.Base.{all};
ghost use Rattle.scope.specs.Names.{named_or_none};
ghost use Rattle.scope.specs.Kinds.{row_of, object_names_ok, names_ok, makeable, defined, flag_of, flag_is};
ghost use Rattle.scope.specs.Nodes.{Node};
ghost use Rattle.scope.specs.Sound.{name_in, slot_name, in_store, kind_sound, node_sound, remembered};
ghost use Rattle.names.specs.Place.{texts_by};
ghost use Rattle.chart.specs.Env.{chart_alone, chart_lent};
ghost use Rattle.layout.specs.Words.{slots};
ghost use Rattle.layout.specs.Meaning.{kind_means, node_means, remembered_means};

use chart::Env;
use kinds::{ERROR, Names, SelfDual};
use layout::{Kind, TypeNode, TypeState};
use names::{NO_NAME, Name, Texts};
use scope::MAX_WIDTH;
use types::Type;

// A name that may be missing.
fn name_or_none(n: Name, texts: &Texts<'_>) -> bool
    ensures { result ≡ named_or_none (texts_by texts.now) (name_in n.text n.start n.len) }
{
    n.len == 0 || names::name_ok(n, texts)
}

// One name for each child, "strictly ascending". The first is held against the empty name, which comes before any other.
// Kept (3): a turn takes the name before along. Tried: `try_fold` from NO_NAME, and `all` with `map` and `is_sorted_by`, which reads each child twice; `search` leaves what either is
// to ensure, and `grind` stops at its limit of depth. What `try_fold` ensures of a whole run (IsTryFoldRun) is that the closure goes on at each item from some name, not from the one
// before; its steps (TryFoldsItems) say that, but the library has no law from them, so that an induction over them would stand in place of this loop's invariant. Nor has it one
// from the IsSortedAnswer of a run that may break off to `ascending`.
fn child_names_fit(k: Kind, ks: &[u32], texts: &Texts<'_>) -> bool
    ensures { result ≡ object_names_ok (texts_by texts.now) (map slot_name (slots ks.now k.first k.count)) }
{
    let mut last = NO_NAME;
    for j in 0..k.count {
        let next = layout::child_of(ks, k.first, j).name;
        if !names::name_ok(next, texts) || !names::name_before(last, next, texts) {
            return false;
        }
        last = next;
    }
    true
}

// "for each parameter, a name or none": the first n children are the parameters.
fn parameter_names_fit(k: Kind, n: u32, ks: &[u32], texts: &Texts<'_>) -> bool
    ensures { result ≡ all (named_or_none (texts_by texts.now)) (map slot_name (slots ks.now k.first n)) }
{
    (0..n).all(|j| name_or_none(layout::child_of(ks, k.first, j).name, texts))
}

// The names that the kind's row asks for. Each child is read, so a caller tests the width first, as can_be_made does; kids_inside likewise.
// Kept (5): a kind goes beside the words where its children lie, here and in `clean`, `node_sound`, `make`, `call_read`, `show_names`, `show_parts` and `run_text`. Each caller has the kind
// of a node or of a caller's numbers, and the words of a store or of a lent list: a struct of both would be made at each such call, for one or two reads of it here.
pub fn names_fit(k: Kind, ks: &[u32], texts: &Texts<'_>) -> bool
    ensures { result ≡ names_ok (texts_by texts.now) (row_of k.code).names (kind_means ks.now k).head.names k.count }
{
    match kinds::row_of(k.code).names {
        Names::No => true,
        Names::Own => names::name_ok(k.name, texts),
        Names::OfChildren => child_names_fit(k, ks, texts),
        Names::OfParameters => k.count != 0 && parameter_names_fit(k, k.count - 1, ks, texts),
    }
}

// Whether refusal 4 does not stand: "bad code or name, over 255 children, object names not strictly ascending".
pub fn can_be_made(k: Kind, ks: &[u32], texts: &Texts<'_>) -> bool
    ensures { result ≡ makeable (texts_by texts.now) (kind_means ks.now k).head k.count }
{
    let n = k.count as usize;
    k.code <= ERROR
        && n <= MAX_WIDTH
        && kinds::shape_fits(k.code, n)
        && names_fit(k, ks, texts)
        && kinds::flex_ok(k.code, k.flex)
        && kinds::number_ok(k.code, k.number)
}

// Whether refusal 5 does not stand: "a definition is absent or of another sort".
pub fn is_defined(k: Kind, chart: &[u32]) -> bool
    ensures { result ≡ defined (chart_alone chart.now) (kind_means [] k).head }
{
    kinds::sort_fits(k.code, chart::sort_at(chart, k.number))
}

// The flag that a kind of this code and number is made with.
pub fn chart_flag(code: u32, number: u32, chart: &[u32]) -> bool
    ensures { result ≡ flag_of (chart_alone chart.now) code number }
{
    match kinds::row_of(code).dual {
        SelfDual::No | SelfDual::Yes => false,
        SelfDual::AsChart => chart::dual_at(chart, number),
    }
}

// "a flag that isn't the chart's"
pub fn has_chart_flag(k: Kind, chart: &[u32]) -> bool
    ensures { result ≡ flag_is (chart_alone chart.now) (kind_means [] k).head }
{
    k.dual == chart_flag(k.code, k.number, chart)
}

// Each child of the kind is one of n nodes. Of the nodes only their number is read, here and below.
pub fn kids_inside(k: Kind, ks: &[u32], n: u32) -> bool
    ensures { (ns : List Node) → length ns ≡ n → result ≡ all (in_store ns) (kind_means ks.now k).kids }
{
    (0..k.count).all(|j| refusals::type_inside(layout::child_of(ks, k.first, j).ty, n))
}

pub fn remembered_inside(t: Option<Type>, n: u32) -> bool
    ensures { (ns : List Node) → length ns ≡ n → result ≡ remembered ns (remembered_means t) }
{
    t.is_none_or(|t| refusals::type_inside(t, n))
}

// No "kind that 4 or 5 would turn back", no "flag that isn't the chart's", no child outside the store.
pub fn kind_sound(k: Kind, ks: &[u32], n: u32, env: &Env<'_>) -> bool
    ensures { (ns : List Node) → length ns ≡ n → result ≡ kind_sound (chart_lent env.now) ns (kind_means ks.now k) }
{
    can_be_made(k, ks, &env.texts)
        && is_defined(k, env.chart)
        && has_chart_flag(k, env.chart)
        && kids_inside(k, ks, n)
}

// A node: its kind is sound, or its parent is a node of the store.
pub fn node_sound(node: TypeNode, ks: &[u32], n: u32, env: &Env<'_>) -> bool
    ensures { (ns : List Node) → length ns ≡ n → result ≡ node_sound (chart_lent env.now) ns (node_means ks.now node) }
{
    match node {
        TypeNode::Child(t) => refusals::type_inside(t, n),
        TypeNode::Root {
            state: TypeState::Known(_, kind),
            size: _,
        } => kind_sound(kind, ks, n, env),
        TypeNode::Root {
            state: TypeState::Unknown(_) | TypeState::InferenceFailed,
            size: _,
        } => true,
    }
}

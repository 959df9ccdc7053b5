#![tactic(auto)]
// What a type leads to: `occurs` and `self_inverse`, by a look at a root's children where that tells, and else by a walk that marks each root it meets. Beside them
// what one root tells: `is_nil`, and `get_mod`, which looks through Refs. Each gives what scope's definition gives of the nodes that are lent.
ghost use Rattle.std.specs.Prelude.{◌≡◌, ◌<◌};
ghost use Rattle.scope.specs.Types.{ty_of};
ghost use Rattle.scope.specs.Unify.{occurs, self_inverse_of};
ghost use Rattle.layout.specs.Lent.{nodes_by};
ghost use Rattle.layout.specs.Meaning.{read_at, held_in, kind_means, Linked};
ghost use Rattle.chart.specs.Words.{records_of};
ghost use Rattle.walk.specs.Read.{leaf_by, mod_means, mod_by};
ghost use Rattle.related.specs.Stands.{StandsIn};
ghost use Rattle.walk.specs.Asks.{Looked, OccursIn, InversesIn, Nil, ModdedIn};

use layout::{Kind, Nodes, TypeNode};
use scope::MAX_NODES;
use types::{Type, TypeIdx};

// get_mod's answer: no definition, a definition's def number, or an error.
// Kept (1): the new form is no plainer. The Rust answers a Result of an Option, whose error is a value that no store has, so that a Result here would have an empty one;
// and the public call answers a Result already, which would have that one in it.
#[derive(Clone, Copy)]
pub enum Mod {
    Nothing,
    Def(u32),
    Error,
}

// A root without children.
fn is_leaf(nodes: &Nodes<'_>, i: TypeIdx) -> bool
    ensures { result ≡ leaf_by (held_in (read_at nodes.now.words.now nodes.now.made i.0)) }
{
    nodes.held(i).is_none_or(|(_, kind)| kind.count == 0)
}

// Is x among a kind's children? None, as only a walk tells, where one is far from its root or has children itself.
// Kept (5): no struct around `Nodes` keeps `StandsIn`, which is one word here, below and in five crates. `node_sound` reads nodes that do not stand yet by the same functions of `layout`,
// so the struct would be unpacked at each call of these. As a ghost field it is refused, too: `Stands` has the number of children made, so it is no fact with one proof at most.
fn look(nodes: &Nodes<'_>, x: TypeIdx, kind: Kind) -> Option<bool>
    requires { StandsIn nodes.now × (1 < nodes.now.made) }
    ensures { Looked (nodes_by nodes.now) nodes.now.made x.0 (kind_means nodes.now.kids.now kind).kids result }
{
    for j in 0..kind.count {
        let kid = nodes.child(kind.first, j).ty;
        let Some(root) = roots::near(nodes.words, nodes.made, kid) else {
            return None;
        };
        let i = root.idx();
        if i == x {
            return Some(true);
        }
        if !is_leaf(nodes, i) {
            return None;
        }
    }
    Some(false)
}

fn occurs_deep(nodes: &Nodes<'_>, x: TypeIdx, y: Type) -> bool
    requires { OccursIn nodes.now x.0 y.0 }
    ensures { result ≡ occurs nodes.now.made (nodes_by nodes.now) x.0 (ty_of y.0).idx }
{
    let mut marks = [0u8; MAX_NODES];
    related::find_related(nodes, &mut marks, y);
    roots::is_marked(&marks, x)
}

// Is x the root y, or in what its kind holds? Where that has no children of its own no walk is needed.
pub fn occurs(nodes: &Nodes<'_>, x: TypeIdx, y: Type) -> bool
    requires { OccursIn nodes.now x.0 y.0 }
    ensures { result ≡ occurs nodes.now.made (nodes_by nodes.now) x.0 (ty_of y.0).idx }
{
    let root = y.idx();
    if root == x {
        return true;
    }
    let kind = match nodes.held(root) {
        Some((_, kind)) if kind.count > 0 => kind,
        _ => return false,
    };
    // Kept (1): tried as `look(..).unwrap_or_else(|| occurs_deep(..))`: at `returns` nothing is known of what the closure answers, and clauses of its own would be longer than the match.
    match look(nodes, x, kind) {
        Some(told) => told,
        None => occurs_deep(nodes, x, y),
    }
}

// Every root that the type leads to is good.
fn inverse_deep(nodes: &Nodes<'_>, t: Type, param: bool) -> bool
    requires { InversesIn nodes.now t.0 }
    ensures { result ≡ self_inverse_of (nodes_by nodes.now) (ty_of t.0) param }
{
    let mut marks = [0u8; MAX_NODES];
    inverse::by_marks(nodes, &mut marks, t, param)
}

// What some visits do not decide is walked with marks, so that each root is visited once.
pub fn self_inverse(nodes: &Nodes<'_>, t: Type, param: bool) -> bool
    requires { InversesIn nodes.now t.0 }
    ensures { result ≡ self_inverse_of (nodes_by nodes.now) (ty_of t.0) param }
{
    // Kept (1): tried as `unwrap_or_else`, as in `occurs`.
    match inverse::quickly(nodes, t, param) {
        Some(own) => own,
        None => inverse_deep(nodes, t, param),
    }
}

// A Tuple of nothing; a root is told at once.
pub fn is_nil(ws: &[u32], n: u32, t: Type) -> bool
    requires { Linked ws.now n }
    ensures { Nil ws.now n t.0 result }
{
    let i = t.idx();
    let TypeNode::Child(_) = layout::node_at(ws, n, i) else {
        return roots::nil_at(ws, n, i);
    };
    roots::nil_at(ws, n, roots::find(ws, n, t).idx())
}

// get_mod's answer for a kind that is no Ref: one that is a definition has a number in the chart.
fn mod_of(chart: &[u32], kind: Kind) -> Mod
    ensures { mod_means result ≡ mod_by (records_of chart.now) kind.code kind.number }
{
    match kind.code {
        kinds::OPAQUE | kinds::STRUCT | kinds::ENUM | kinds::UNION => {
            Mod::Def(chart::def_at(chart, kind.number))
        }
        kinds::ERROR => Mod::Error,
        _ => Mod::Nothing,
    }
}

// A definition's def number, through Refs.
pub fn get_mod(nodes: &Nodes<'_>, chart: &[u32], t: Type) -> Mod
    requires { StandsIn nodes.now }
    ensures { ModdedIn nodes.now chart.now t.0 result }
{
    let mut cur = t;
    for _ in 0..nodes.made {
        let root = roots::find_in(nodes, cur).idx();
        match nodes.held(root) {
            Some((_, kind)) if kind.code != kinds::REF => return mod_of(chart, kind),
            Some((_, kind)) if kind.count > 0 => cur = nodes.child(kind.first, 0).ty,
            _ => return Mod::Nothing,
        }
    }
    Mod::Nothing
}

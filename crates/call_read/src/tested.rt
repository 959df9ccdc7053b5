// The calls that read a tested store: a node as it stands, its children and names by their index, and the figures. Each tests its type and refuses with 3,
// or answers what document 01 says.
ghost use Rattle.std.specs.Prelude.{◌≡◌, map};
ghost use Rattle.std.proofs.Math.ListN.{get_elem?};
ghost use Rattle.scope.specs.Types.{ty_of};
ghost use Rattle.scope.specs.Sound.{name_in, slot_name};
ghost use Rattle.scope.specs.Calls.{flat, node_call, child_call, name_call, figures_call};
ghost use Rattle.layout.specs.Words.{slots, lent_of, store_in};
ghost use Rattle.layout.specs.Meaning.{kind_means};
ghost use Rattle.sound.specs.Tests.{env_lent};
ghost use Rattle.promise.specs.Promise.{outcome_by, Tested};
ghost use Rattle.call_read.specs.Replies.{child_means, name_means, NodePromised, child_reply, name_reply, figures_reply};

use chart::Env;
use kinds::Names;
use layout::{Header, Kind, TypeNode};
use names::Name;
use promise::inside;
use refusals::Refusal;
use types::Type;

// Child j of a kind, none past the end.
// Kept (1): tried as `(j < kind.count).then(|| ..)`: the proof did not close, since at `returns` what the closure ensures of the child that it answers is out of reach.
fn child_of_kind(ks: &[u32], kind: Kind, j: u32) -> Option<Type>
    ensures { get_elem? (kind_means ks.now kind).kids j ≡ child_means result }
{
    if j < kind.count {
        Some(layout::child_of(ks, kind.first, j).ty)
    } else {
        None
    }
}

// A name as it lies in a store; no name is empty.
fn told_name(n: Name) -> Option<Name>
    ensures { name_in n.text n.start n.len ≡ name_means result }
{
    (n.len != 0).then_some(n)
}

// Child j's name, among the first n of a kind's children.
fn child_named(ks: &[u32], kind: Kind, n: u32, j: u32) -> Option<Name>
    ensures { flat (get_elem? (map slot_name (slots ks.now kind.first n)) j) ≡ name_means result }
{
    if n <= j {
        return None;
    }
    told_name(layout::child_of(ks, kind.first, j).name)
}

// Name j of a kind: its own is name 0; a child's has the child's number, and a Closure's return has none.
fn name_of_kind(ks: &[u32], kind: Kind, j: u32) -> Option<Name>
    ensures { flat (get_elem? (kind_means ks.now kind).head.names j) ≡ name_means result }
{
    match kinds::row_of(kind.code).names {
        Names::Own if j == 0 => told_name(kind.name),
        Names::OfChildren => child_named(ks, kind, kind.count, j),
        Names::OfParameters if 0 < kind.count => child_named(ks, kind, kind.count - 1, j),
        _ => None,
    }
}

// A type's node as it stands, be it a root or a child.
pub fn node(env: &Env<'_>, h: &[u32], ws: &[u32], ks: &[u32], t: Type) -> Result<TypeNode, Refusal>
    requires { Tested (env_lent env.now) h.now ws.now ks.now }
    ensures { NodePromised
        (node_call (env_lent env.now) (lent_of h.now ws.now ks.now) (ty_of t.0))
        result h.now ws.now ks.now }
{
    inside(h, t)?;
    let x = layout::read_header(h);
    Ok(layout::node_at(ws, x.nodes, t.idx()))
}

// Child j of a type's node, none past the end.
pub fn child(
    env: &Env<'_>,
    h: &[u32],
    ws: &[u32],
    ks: &[u32],
    t: Type,
    j: u32,
) -> Result<Option<Type>, Refusal>
    requires { Tested (env_lent env.now) h.now ws.now ks.now }
    ensures { child_call
        (env_lent env.now) (lent_of h.now ws.now ks.now) (ty_of t.0) j
        ≡ outcome_by (child_reply result) (store_in h.now ws.now ks.now) }
{
    inside(h, t)?;
    let x = layout::read_header(h);
    let held = layout::held_at(ws, x.nodes, t.idx());
    Ok(held.and_then(|(_, kind)| child_of_kind(ks, kind, j)))
}

// Name j of a type's node, none past the end and where there is no name.
pub fn child_name(
    env: &Env<'_>,
    h: &[u32],
    ws: &[u32],
    ks: &[u32],
    t: Type,
    j: u32,
) -> Result<Option<Name>, Refusal>
    requires { Tested (env_lent env.now) h.now ws.now ks.now }
    ensures { name_call
        (env_lent env.now) (lent_of h.now ws.now ks.now) (ty_of t.0) j
        ≡ outcome_by (name_reply result) (store_in h.now ws.now ks.now) }
{
    inside(h, t)?;
    let x = layout::read_header(h);
    let found = layout::held_at(ws, x.nodes, t.idx());
    Ok(found.and_then(|(_, kind)| name_of_kind(ks, kind, j)))
}

// Counts, capacities, remembered types and the report count.
pub fn figures(env: &Env<'_>, h: &[u32], ws: &[u32], ks: &[u32]) -> Result<Header, Refusal>
    requires { Tested (env_lent env.now) h.now ws.now ks.now }
    ensures { figures_call
        (env_lent env.now) (lent_of h.now ws.now ks.now)
        ≡ outcome_by (figures_reply ws.now ks.now result) (store_in h.now ws.now ks.now) }
{
    Ok(layout::read_header(h))
}

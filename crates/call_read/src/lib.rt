#![tactic(auto)]
// The public calls that read a store, on any numbers at all: a node as it stands, its children and names by their index, and the figures. Each tests chart and
// store and refuses with 2 or 8, or is its form for a tested store.
//
// Kept (2), (5): as `promise` says.
pub mod tested;

ghost use Rattle.std.specs.Prelude.{◌≡◌};
ghost use Rattle.scope.specs.Types.{ty_of};
ghost use Rattle.scope.specs.Calls.{node_call, child_call, name_call, figures_call};
ghost use Rattle.layout.specs.Words.{lent_of, store_in};
ghost use Rattle.sound.specs.Tests.{env_lent};
ghost use Rattle.promise.specs.Promise.{outcome_by};
ghost use Rattle.call_read.specs.Replies.{NodePromised, child_reply, name_reply, figures_reply};

use chart::Env;
use layout::{Header, TypeNode};
use names::Name;
use refusals::Refusal;
use types::Type;

// A type's node as it stands, be it a root or a child.
pub fn node(env: &Env<'_>, h: &[u32], ws: &[u32], ks: &[u32], t: Type) -> Result<TypeNode, Refusal>
    ensures { NodePromised
        (node_call (env_lent env.now) (lent_of h.now ws.now ks.now) (ty_of t.0))
        result h.now ws.now ks.now }
{
    sound::lent(env, h, ws, ks)?;
    tested::node(env, h, ws, ks, t)
}

// Child j of a type's node, none past the end.
pub fn child(
    env: &Env<'_>,
    h: &[u32],
    ws: &[u32],
    ks: &[u32],
    t: Type,
    j: u32,
) -> Result<Option<Type>, Refusal>
    ensures { child_call
        (env_lent env.now) (lent_of h.now ws.now ks.now) (ty_of t.0) j
        ≡ outcome_by (child_reply result) (store_in h.now ws.now ks.now) }
{
    sound::lent(env, h, ws, ks)?;
    tested::child(env, h, ws, ks, t, j)
}

// Name j of a type's node, none past the end and where there is no name.
pub fn child_name(
    env: &Env<'_>,
    h: &[u32],
    ws: &[u32],
    ks: &[u32],
    t: Type,
    j: u32,
) -> Result<Option<Name>, Refusal>
    ensures { name_call
        (env_lent env.now) (lent_of h.now ws.now ks.now) (ty_of t.0) j
        ≡ outcome_by (name_reply result) (store_in h.now ws.now ks.now) }
{
    sound::lent(env, h, ws, ks)?;
    tested::child_name(env, h, ws, ks, t, j)
}

// Counts, capacities, remembered types and the report count.
pub fn figures(env: &Env<'_>, h: &[u32], ws: &[u32], ks: &[u32]) -> Result<Header, Refusal>
    ensures { figures_call
        (env_lent env.now) (lent_of h.now ws.now ks.now)
        ≡ outcome_by (figures_reply ws.now ks.now result) (store_in h.now ws.now ks.now) }
{
    sound::lent(env, h, ws, ks)?;
    tested::figures(env, h, ws, ks)
}

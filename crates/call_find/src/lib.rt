#![tactic(auto)]
// The calls `find` and `find_mut` on any numbers at all: each tests chart and store and refuses with 2 or 8, or is its form for a tested store.
//
// Kept (2), (5): as `promise` says.
pub mod tested;

ghost use Rattle.std.specs.Prelude.{◌≡◌};
ghost use Rattle.scope.specs.Types.{ty_of};
ghost use Rattle.scope.specs.Calls.{find_call, find_mut_call};
ghost use Rattle.layout.specs.Words.{lent_of, store_in};
ghost use Rattle.sound.specs.Tests.{env_lent};
ghost use Rattle.promise.specs.Promise.{type_reply, outcome_by, Promised};

use chart::Env;
use refusals::Refusal;
use types::Type;

// "`find` follows parents, combining inversions by exclusive or."
pub fn find(env: &Env<'_>, h: &[u32], ws: &[u32], ks: &[u32], t: Type) -> Result<Type, Refusal>
    ensures { find_call
        (env_lent env.now) (lent_of h.now ws.now ks.now) (ty_of t.0)
        ≡ outcome_by (type_reply result) (store_in h.now ws.now ks.now) }
{
    sound::lent(env, h, ws, ks)?;
    tested::find(env, h, ws, ks, t)
}

// "`find_mut` also points every node on the path straight at the root, keeping each node's meaning."
pub fn find_mut(
    env: &Env<'_>,
    h: &[u32],
    ws: &mut [u32],
    ks: &[u32],
    t: Type,
) -> Result<Type, Refusal>
    ensures { Promised
        (find_mut_call (env_lent env.now) (lent_of h.now ws.old ks.now) (ty_of t.0))
        (type_reply result) h.now ws.old ks.now h.now ws.new ks.now }
{
    sound::lent(env, h, ws, ks)?;
    tested::find_mut(env, h, ws, ks, t)
}

#![tactic(auto)]
// The public calls that ask a question of a type through its root, on any numbers at all: `is_nil`, `self_inverse`, `get_mod` and `find_related`. Each tests
// chart and store and refuses with 2 or 8, or is its form for a tested store.
//
// Kept (2), (5): as `promise` says.
pub mod tested;

ghost use Rattle.std.specs.Prelude.{◌≡◌, false};
ghost use Rattle.scope.specs.Types.{ty_of};
ghost use Rattle.scope.specs.Calls.{find_related_call, self_inverse_call, is_nil_call, get_mod_call};
ghost use Rattle.layout.specs.Words.{lent_of, store_in};
ghost use Rattle.sound.specs.Tests.{env_lent};
ghost use Rattle.promise.specs.Promise.{bool_reply, outcome_by};
ghost use Rattle.call_ask.specs.Replies.{mod_reply, MarksPromised};

use chart::Env;
use refusals::Refusal;
use types::Type;
use walk::Mod;

// A Tuple of nothing.
pub fn is_nil(env: &Env<'_>, h: &[u32], ws: &[u32], ks: &[u32], t: Type) -> Result<bool, Refusal>
    ensures { is_nil_call (env_lent env.now) (lent_of h.now ws.now ks.now) (ty_of t.0) ≡ outcome_by (bool_reply result) (store_in h.now ws.now ks.now) }
{
    sound::lent(env, h, ws, ks)?;
    tested::is_nil(env, h, ws, ks, t)
}

// `_self_inverse`: a Param counts as param says.
pub fn self_inverse_param(
    env: &Env<'_>,
    h: &[u32],
    ws: &[u32],
    ks: &[u32],
    t: Type,
    param: bool,
) -> Result<bool, Refusal>
    ensures { self_inverse_call (env_lent env.now) (lent_of h.now ws.now ks.now) (ty_of t.0) param ≡ outcome_by (bool_reply result) (store_in h.now ws.now ks.now) }
{
    sound::lent(env, h, ws, ks)?;
    tested::self_inverse_param(env, h, ws, ks, t, param)
}

// "`self_inverse` holds where the root has a self-dual kind and it holds of every child; never where there is no kind."
pub fn self_inverse(
    env: &Env<'_>,
    h: &[u32],
    ws: &[u32],
    ks: &[u32],
    t: Type,
) -> Result<bool, Refusal>
    ensures { self_inverse_call
        (env_lent env.now) (lent_of h.now ws.now ks.now) (ty_of t.0) false
        ≡ outcome_by (bool_reply result) (store_in h.now ws.now ks.now) }
{
    self_inverse_param(env, h, ws, ks, t, false)
}

// A definition's def number, through Refs.
pub fn get_mod(env: &Env<'_>, h: &[u32], ws: &[u32], ks: &[u32], t: Type) -> Result<Mod, Refusal>
    ensures { get_mod_call
        (env_lent env.now) (lent_of h.now ws.now ks.now) (ty_of t.0)
        ≡ outcome_by (mod_reply result) (store_in h.now ws.now ks.now) }
{
    sound::lent(env, h, ws, ks)?;
    tested::get_mod(env, h, ws, ks, t)
}

// "`find_related` (lent marks, a byte for each node: nonzero means already in the set, and 1 is written for each root added; too few marks: 7)"
pub fn find_related(
    env: &Env<'_>,
    h: &[u32],
    ws: &[u32],
    ks: &[u32],
    marks: &mut [u8],
    t: Type,
) -> Result<(), Refusal>
    ensures { MarksPromised
        (find_related_call (env_lent env.now) (lent_of h.now ws.now ks.now)
        (ty_of t.0) marks.old)
        result (store_in h.now ws.now ks.now) marks.old marks.new }
{
    sound::lent(env, h, ws, ks)?;
    tested::find_related(env, h, ws, ks, marks, t)
}

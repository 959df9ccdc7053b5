#![tactic(auto)]
// The calls `force_kind`, `finish_inference` and `finish_inference_where` on any numbers at all: each tests chart and store and refuses with 2 or 8, or is its
// form for a tested store.
//
// Kept (2), (5): as `promise` says.
pub mod tested;

ghost use Rattle.scope.specs.Types.{ty_of};
ghost use Rattle.scope.specs.Calls.{force_kind_call, finish_inference_call, finish_where_call};
ghost use Rattle.layout.specs.Words.{lent_of};
ghost use Rattle.sound.specs.Tests.{env_lent};
ghost use Rattle.promise.specs.Promise.{done_reply, Promised};
ghost use Rattle.call_force.specs.Replies.{ForcePromised};

use chart::Env;
use layout::TypeState;
use refusals::Refusal;
use types::Type;

// "A Known gives its kind and its inversion combined with the type's." "An Unknown becomes InferenceFailed, its span is in the answer"; the report count rises.
pub fn force_kind(
    env: &Env<'_>,
    h: &mut [u32],
    ws: &mut [u32],
    ks: &[u32],
    t: Type,
) -> Result<TypeState, Refusal>
    ensures { ForcePromised
        (force_kind_call (env_lent env.now) (lent_of h.old ws.old ks.now) (ty_of t.0))
        result h.old ws.old ks.now h.new ws.new }
{
    sound::lent(env, h, ws, ks)?;
    tested::force_kind(env, h, ws, ks, t)
}

// "only roots without a kind change, each to Default uninverted"
pub fn finish_inference(env: &Env<'_>, h: &[u32], ws: &mut [u32], ks: &[u32]) -> Result<(), Refusal>
    ensures { Promised
        (finish_inference_call (env_lent env.now) (lent_of h.now ws.old ks.now))
        (done_reply result) h.now ws.old ks.now h.now ws.new ks.now }
{
    sound::lent(env, h, ws, ks)?;
    tested::finish_inference(env, h, ws, ks)
}

// "a lent byte for each node, nonzero chooses, absent means no"
pub fn finish_inference_where(
    env: &Env<'_>,
    h: &[u32],
    ws: &mut [u32],
    ks: &[u32],
    bytes: &[u8],
) -> Result<(), Refusal>
    ensures { Promised
        (finish_where_call (env_lent env.now) (lent_of h.now ws.old ks.now)
        bytes.now) (done_reply result) h.now ws.old ks.now h.now ws.new ks.now }
{
    sound::lent(env, h, ws, ks)?;
    tested::finish_inference_where(env, h, ws, ks, bytes)
}

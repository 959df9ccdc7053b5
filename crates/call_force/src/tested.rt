// `force_kind`, `finish_inference` and `finish_inference_where` on a tested store: `force_kind` tests its type and refuses with 3, or does what document 01
// says; the others have nothing left to refuse.
ghost use Rattle.scope.specs.Types.{ty_of};
ghost use Rattle.scope.specs.Calls.{force_kind_call, finish_inference_call, finish_where_call};
ghost use Rattle.layout.specs.Words.{lent_of};
ghost use Rattle.sound.specs.Tests.{env_lent};
ghost use Rattle.promise.specs.Promise.{done_reply, Promised, Tested};
ghost use Rattle.call_force.specs.Replies.{ForcePromised};

use chart::Env;
use layout::TypeState;
use refusals::Refusal;
use types::Type;

// "A Known gives its kind and its inversion combined with the type's." "An Unknown becomes InferenceFailed, its span is in the answer"; the report count rises.
pub fn force_kind(
    env: &Env<'_>,
    h: &mut [u32],
    ws: &mut [u32],
    ks: &[u32],
    t: Type,
) -> Result<TypeState, Refusal>
    requires { Tested (env_lent env.now) h.old ws.old ks.now }
    ensures { ForcePromised
        (force_kind_call (env_lent env.now) (lent_of h.old ws.old ks.now) (ty_of t.0))
        result h.old ws.old ks.now h.new ws.new }
{
    promise::inside(h, t)?;
    Ok(force::force_kind(h, ws, ks, t))
}

// "only roots without a kind change, each to Default uninverted"
pub fn finish_inference(env: &Env<'_>, h: &[u32], ws: &mut [u32], ks: &[u32]) -> Result<(), Refusal>
    requires { Tested (env_lent env.now) h.now ws.old ks.now }
    ensures { Promised
        (finish_inference_call (env_lent env.now) (lent_of h.now ws.old ks.now))
        (done_reply result) h.now ws.old ks.now h.now ws.new ks.now }
{
    force::finish_inference(h, ws, ks);
    Ok(())
}

// "a lent byte for each node, nonzero chooses, absent means no"
pub fn finish_inference_where(
    env: &Env<'_>,
    h: &[u32],
    ws: &mut [u32],
    ks: &[u32],
    bytes: &[u8],
) -> Result<(), Refusal>
    requires { Tested (env_lent env.now) h.now ws.old ks.now }
    ensures { Promised
        (finish_where_call (env_lent env.now) (lent_of h.now ws.old ks.now)
        bytes.now)
        (done_reply result) h.now ws.old ks.now h.now ws.new ks.now }
{
    force::finish_inference_where(h, ws, ks, bytes);
    Ok(())
}

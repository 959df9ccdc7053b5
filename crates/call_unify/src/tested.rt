// `unify` on a tested store: it tests both types and refuses with 3, or does and answers what document 01 says. With a lent memory a type that is shared and fails
// deep down is not visited again and again; the answer and every node are the same.
ghost use Rattle.scope.specs.Types.{ty_of};
ghost use Rattle.scope.specs.Calls.{unify_call};
ghost use Rattle.layout.specs.Words.{lent_of};
ghost use Rattle.sound.specs.Tests.{env_lent};
ghost use Rattle.promise.specs.Promise.{Promised, Tested};
ghost use Rattle.call_unify.specs.Answers.{unify_reply};

use chart::Env;
use refusals::Refusal;
use types::{Type, UnifyResult};

// "`unify` takes both roots with `find_mut`." The memory is any slice, whatever it holds: nothing of it is believed, and what stands in it afterwards means nothing.
pub fn unify_recalling(
    env: &Env<'_>,
    h: &[u32],
    ws: &mut [u32],
    ks: &[u32],
    memory: &mut [u32],
    a: Type,
    b: Type,
) -> Result<UnifyResult, Refusal>
    requires { Tested (env_lent env.now) h.now ws.old ks.now }
    ensures { Promised
        (unify_call (env_lent env.now) (lent_of h.now ws.old ks.now)
        (ty_of a.0) (ty_of b.0))
        (unify_reply result) h.now ws.old ks.now h.now ws.new ks.now }
{
    let x = layout::read_header(h);
    lent_tests::pair(a, b, x.nodes)?;
    let fixed = unify_lists::begin(env, ks, x.nodes, memory);
    Ok(unify_lists::unify_all(ws, &fixed, memory, a, b))
}

// The same without a memory.
pub fn unify(
    env: &Env<'_>,
    h: &[u32],
    ws: &mut [u32],
    ks: &[u32],
    a: Type,
    b: Type,
) -> Result<UnifyResult, Refusal>
    requires { Tested (env_lent env.now) h.now ws.old ks.now }
    ensures { Promised
        (unify_call (env_lent env.now) (lent_of h.now ws.old ks.now)
        (ty_of a.0) (ty_of b.0))
        (unify_reply result) h.now ws.old ks.now h.now ws.new ks.now }
{
    let mut memory = [0u32; unify_lists::OWN_MEMORY];
    unify_recalling(env, h, ws, ks, &mut memory, a, b)
}

#![tactic(auto)]
// The call `unify`, on any numbers at all: it tests chart and store and refuses with 2 or 8, or is its form for a tested store. With a lent memory a type that is
// shared and fails deep down is not visited again and again; the answer and every node are the same.
//
// Kept (2), (5): as `promise` says.
pub mod tested;

ghost use Rattle.std.specs.Prelude.{◌≡◌, leb};
ghost use Rattle.scope.specs.Base.{pick};
ghost use Rattle.scope.specs.Limits.{«MAX_NODES»};
ghost use Rattle.scope.specs.Types.{ty_of};
ghost use Rattle.scope.specs.Calls.{unify_call};
ghost use Rattle.layout.specs.Words.{lent_of};
ghost use Rattle.sound.specs.Tests.{env_lent};
ghost use Rattle.recall.specs.Memory.{words_for};
ghost use Rattle.promise.specs.Promise.{Promised};
ghost use Rattle.call_unify.specs.Answers.{unify_reply};

use chart::Env;
use refusals::Refusal;
use scope::MAX_NODES;
use types::{Type, UnifyResult};

// "`unify` takes both roots with `find_mut`." The memory is any slice, whatever it holds: nothing of it is believed, and what stands in it afterwards means nothing.
pub fn unify_recalling(
    env: &Env<'_>,
    h: &[u32],
    ws: &mut [u32],
    ks: &[u32],
    memory: &mut [u32],
    a: Type,
    b: Type,
) -> Result<UnifyResult, Refusal>
    ensures { Promised
        (unify_call (env_lent env.now) (lent_of h.now ws.old ks.now) (ty_of a.0) (ty_of b.0)) (unify_reply result) h.now ws.old ks.now h.now ws.new ks.now }
{
    sound::lent(env, h, ws, ks)?;
    tested::unify_recalling(env, h, ws, ks, memory, a, b)
}

// The same without a memory.
pub fn unify(
    env: &Env<'_>,
    h: &[u32],
    ws: &mut [u32],
    ks: &[u32],
    a: Type,
    b: Type,
) -> Result<UnifyResult, Refusal>
    ensures { Promised
        (unify_call (env_lent env.now) (lent_of h.now ws.old ks.now)
        (ty_of a.0) (ty_of b.0))
        (unify_reply result) h.now ws.old ks.now h.now ws.new ks.now }
{
    let mut memory = [0u32; unify_lists::OWN_MEMORY];
    unify_recalling(env, h, ws, ks, &mut memory, a, b)
}

// So many words of memory make every pair of types of n nodes rememberable; 0 where no store has so many nodes.
pub fn memory_words(n: u32) -> usize
    ensures { result ≡ pick (leb n «MAX_NODES») (words_for n) 0 }
{
    if n as usize <= MAX_NODES {
        return recall::words_for(n);
    }
    0
}

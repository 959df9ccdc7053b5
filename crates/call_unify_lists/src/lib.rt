#![tactic(auto)]
// The calls that unify lent lists of types, entries and signatures, on any numbers at all: each tests chart and store and refuses with 2 or 8, or is its form for a
// tested store. Each has a form with a lent memory, any slice whatever it holds, and the same answer and nodes.
//
// Kept (2), (5): as `promise` says.
ghost use Rattle.scope.specs.Types.{ty_of};
ghost use Rattle.scope.specs.Calls.{unify_types_call, unify_objects_call, unify_fn_sig_call};
ghost use Rattle.layout.specs.Words.{lent_of};
ghost use Rattle.sound.specs.Tests.{env_lent};
ghost use Rattle.promise.specs.Promise.{Promised};
ghost use Rattle.store.specs.Entries.{types_in};
ghost use Rattle.lent_tests.specs.Given.{entries_in};
ghost use Rattle.call_unify.specs.Answers.{unify_reply};

use chart::Env;
use refusals::Refusal;
use types::{Inverted, Type, UnifyResult};

// Two lists of types, a word a type, the second's inverted if inv says so.
pub fn unify_types_recalling(
    env: &Env<'_>,
    h: &[u32],
    ws: &mut [u32],
    ks: &[u32],
    memory: &mut [u32],
    xs: &[u32],
    ys: &[u32],
    inv: Inverted,
) -> Result<UnifyResult, Refusal>
    ensures { Promised
        (unify_types_call (env_lent env.now) (lent_of h.now ws.old ks.now) (types_in xs.now) (types_in ys.now) inv.0) (unify_reply result) h.now ws.old ks.now h.now ws.new ks.now }
{
    sound::lent(env, h, ws, ks)?;
    tested_unify_lists::unify_types_recalling(env, h, ws, ks, memory, xs, ys, inv)
}

// The same without a memory.
pub fn unify_types(
    env: &Env<'_>,
    h: &[u32],
    ws: &mut [u32],
    ks: &[u32],
    xs: &[u32],
    ys: &[u32],
    inv: Inverted,
) -> Result<UnifyResult, Refusal>
    ensures { Promised
        (unify_types_call (env_lent env.now) (lent_of h.now ws.old ks.now)
        (types_in xs.now) (types_in ys.now) inv.0)
        (unify_reply result) h.now ws.old ks.now h.now ws.new ks.now }
{
    let mut memory = [0u32; unify_lists::OWN_MEMORY];
    unify_types_recalling(env, h, ws, ks, &mut memory, xs, ys, inv)
}

// Two objects, four words an entry, as children lie in a store.
pub fn unify_objects_recalling(
    env: &Env<'_>,
    h: &[u32],
    ws: &mut [u32],
    ks: &[u32],
    memory: &mut [u32],
    xs: &[u32],
    ys: &[u32],
    inv: Inverted,
) -> Result<UnifyResult, Refusal>
    ensures { Promised
        (unify_objects_call (env_lent env.now) (lent_of h.now ws.old ks.now) (entries_in xs.now) (entries_in ys.now) inv.0) (unify_reply result) h.now ws.old ks.now h.now ws.new ks.now }
{
    sound::lent(env, h, ws, ks)?;
    tested_unify_lists::unify_objects_recalling(env, h, ws, ks, memory, xs, ys, inv)
}

// The same without a memory.
pub fn unify_objects(
    env: &Env<'_>,
    h: &[u32],
    ws: &mut [u32],
    ks: &[u32],
    xs: &[u32],
    ys: &[u32],
    inv: Inverted,
) -> Result<UnifyResult, Refusal>
    ensures { Promised
        (unify_objects_call (env_lent env.now) (lent_of h.now ws.old ks.now)
        (entries_in xs.now) (entries_in ys.now) inv.0)
        (unify_reply result) h.now ws.old ks.now h.now ws.new ks.now }
{
    let mut memory = [0u32; unify_lists::OWN_MEMORY];
    unify_objects_recalling(env, h, ws, ks, &mut memory, xs, ys, inv)
}

// Two signatures: a list of parameters, and a return.
pub fn unify_fn_sig_recalling(
    env: &Env<'_>,
    h: &[u32],
    ws: &mut [u32],
    ks: &[u32],
    memory: &mut [u32],
    xs: &[u32],
    r: Type,
    ys: &[u32],
    q: Type,
) -> Result<UnifyResult, Refusal>
    ensures { Promised
        (unify_fn_sig_call (env_lent env.now) (lent_of h.now ws.old ks.now) (types_in xs.now) (ty_of r.0) (types_in ys.now) (ty_of q.0)) (unify_reply result) h.now ws.old ks.now h.now ws.new ks.now }
{
    sound::lent(env, h, ws, ks)?;
    tested_unify_lists::unify_fn_sig_recalling(env, h, ws, ks, memory, xs, r, ys, q)
}

// The same without a memory.
pub fn unify_fn_sig(
    env: &Env<'_>,
    h: &[u32],
    ws: &mut [u32],
    ks: &[u32],
    xs: &[u32],
    r: Type,
    ys: &[u32],
    q: Type,
) -> Result<UnifyResult, Refusal>
    ensures { Promised
        (unify_fn_sig_call (env_lent env.now) (lent_of h.now ws.old ks.now)
        (types_in xs.now) (ty_of r.0) (types_in ys.now) (ty_of q.0))
        (unify_reply result) h.now ws.old ks.now h.now ws.new ks.now }
{
    let mut memory = [0u32; unify_lists::OWN_MEMORY];
    unify_fn_sig_recalling(env, h, ws, ks, &mut memory, xs, r, ys, q)
}

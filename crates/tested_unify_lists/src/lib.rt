#![tactic(auto)]
// The calls that unify lent lists of types, entries and signatures on a tested store: each tests its arguments and refuses with 3 or 4, or does and answers what
// document 01 says. Each has a form with a lent memory, any slice whatever it holds, and the same answer and nodes.
// Kept (2), (5): as `promise` says.
ghost use Rattle.scope.specs.Types.{ty_of};
ghost use Rattle.scope.specs.Calls.{unify_types_call, unify_objects_call, unify_fn_sig_call};
ghost use Rattle.layout.specs.Words.{lent_of};
ghost use Rattle.sound.specs.Tests.{env_lent};
ghost use Rattle.promise.specs.Promise.{Promised, Tested};
ghost use Rattle.store.specs.Entries.{types_in};
ghost use Rattle.lent_tests.specs.Given.{entries_in};
ghost use Rattle.call_unify.specs.Answers.{unify_reply};

use chart::Env;
use refusals::Refusal;
use types::{Inverted, Type, UnifyResult};

// Two lists of types, a word a type, the second's inverted if inv says so.
pub fn unify_types_recalling(
    env: &Env<'_>,
    h: &[u32],
    ws: &mut [u32],
    ks: &[u32],
    memory: &mut [u32],
    xs: &[u32],
    ys: &[u32],
    inv: Inverted,
) -> Result<UnifyResult, Refusal>
    requires { Tested (env_lent env.now) h.now ws.old ks.now }
    ensures { Promised
        (unify_types_call (env_lent env.now) (lent_of h.now ws.old ks.now)
        (types_in xs.now) (types_in ys.now) inv.0)
        (unify_reply result) h.now ws.old ks.now h.now ws.new ks.now }
{
    let x = layout::read_header(h);
    lent_tests::lists(xs, ys, x.nodes)?;
    let fixed = unify_lists::begin(env, ks, x.nodes, memory);
    Ok(unify_lists::unify_lists(ws, &fixed, memory, xs, ys, inv))
}

// The same without a memory.
pub fn unify_types(
    env: &Env<'_>,
    h: &[u32],
    ws: &mut [u32],
    ks: &[u32],
    xs: &[u32],
    ys: &[u32],
    inv: Inverted,
) -> Result<UnifyResult, Refusal>
    requires { Tested (env_lent env.now) h.now ws.old ks.now }
    ensures { Promised
        (unify_types_call (env_lent env.now) (lent_of h.now ws.old ks.now)
        (types_in xs.now) (types_in ys.now) inv.0)
        (unify_reply result) h.now ws.old ks.now h.now ws.new ks.now }
{
    let mut memory = [0u32; unify_lists::OWN_MEMORY];
    unify_types_recalling(env, h, ws, ks, &mut memory, xs, ys, inv)
}

// Two objects, four words an entry, as children lie in a store.
pub fn unify_objects_recalling(
    env: &Env<'_>,
    h: &[u32],
    ws: &mut [u32],
    ks: &[u32],
    memory: &mut [u32],
    xs: &[u32],
    ys: &[u32],
    inv: Inverted,
) -> Result<UnifyResult, Refusal>
    requires { Tested (env_lent env.now) h.now ws.old ks.now }
    ensures { Promised
        (unify_objects_call (env_lent env.now) (lent_of h.now ws.old ks.now)
        (entries_in xs.now) (entries_in ys.now) inv.0)
        (unify_reply result) h.now ws.old ks.now h.now ws.new ks.now }
{
    let x = layout::read_header(h);
    lent_tests::objects(xs, ys, x.nodes, env)?;
    let fixed = unify_lists::begin(env, ks, x.nodes, memory);
    Ok(unify_lists::unify_entries(ws, &fixed, memory, xs, ys, inv))
}

// The same without a memory.
pub fn unify_objects(
    env: &Env<'_>,
    h: &[u32],
    ws: &mut [u32],
    ks: &[u32],
    xs: &[u32],
    ys: &[u32],
    inv: Inverted,
) -> Result<UnifyResult, Refusal>
    requires { Tested (env_lent env.now) h.now ws.old ks.now }
    ensures { Promised
        (unify_objects_call (env_lent env.now) (lent_of h.now ws.old ks.now)
        (entries_in xs.now) (entries_in ys.now) inv.0)
        (unify_reply result) h.now ws.old ks.now h.now ws.new ks.now }
{
    let mut memory = [0u32; unify_lists::OWN_MEMORY];
    unify_objects_recalling(env, h, ws, ks, &mut memory, xs, ys, inv)
}

// Two signatures: a list of parameters, and a return.
pub fn unify_fn_sig_recalling(
    env: &Env<'_>,
    h: &[u32],
    ws: &mut [u32],
    ks: &[u32],
    memory: &mut [u32],
    xs: &[u32],
    r: Type,
    ys: &[u32],
    q: Type,
) -> Result<UnifyResult, Refusal>
    requires { Tested (env_lent env.now) h.now ws.old ks.now }
    ensures { Promised
        (unify_fn_sig_call (env_lent env.now) (lent_of h.now ws.old ks.now)
        (types_in xs.now) (ty_of r.0) (types_in ys.now) (ty_of q.0))
        (unify_reply result) h.now ws.old ks.now h.now ws.new ks.now }
{
    let x = layout::read_header(h);
    lent_tests::signatures(xs, r, ys, q, x.nodes)?;
    let fixed = unify_lists::begin(env, ks, x.nodes, memory);
    Ok(unify_lists::unify_fn_sig(ws, &fixed, memory, xs, r, ys, q))
}

// The same without a memory.
pub fn unify_fn_sig(
    env: &Env<'_>,
    h: &[u32],
    ws: &mut [u32],
    ks: &[u32],
    xs: &[u32],
    r: Type,
    ys: &[u32],
    q: Type,
) -> Result<UnifyResult, Refusal>
    requires { Tested (env_lent env.now) h.now ws.old ks.now }
    ensures { Promised
        (unify_fn_sig_call (env_lent env.now) (lent_of h.now ws.old ks.now)
        (types_in xs.now) (ty_of r.0) (types_in ys.now) (ty_of q.0))
        (unify_reply result) h.now ws.old ks.now h.now ws.new ks.now }
{
    let mut memory = [0u32; unify_lists::OWN_MEMORY];
    unify_fn_sig_recalling(env, h, ws, ks, &mut memory, xs, r, ys, q)
}

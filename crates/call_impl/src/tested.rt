// The calls on impl types, each a trait over a lent list of types or an error, on a tested store: `unify_impl_type` and `approx_eq`. Each tests its arguments and
// refuses with 3, 4 or 5. The first has a form with a lent memory, any slice whatever it holds, and the same answer and nodes.
ghost use Rattle.std.specs.Prelude.{◌≡◌};
ghost use Rattle.scope.specs.Unify.{approx_eq};
ghost use Rattle.scope.specs.Calls.{unify_impl_type_call, approx_eq_call};
ghost use Rattle.types.specs.Impls.{impl_means};
ghost use Rattle.layout.specs.Words.{lent_of};
ghost use Rattle.sound.specs.Tests.{env_lent};
ghost use Rattle.promise.specs.Promise.{Promised, bool_reply, Tested};
ghost use Rattle.call_unify.specs.Answers.{unify_reply};

use chart::Env;
use refusals::Refusal;
use types::{Impl, UnifyResult};

// Two traits, each over a list of types, or errors.
pub fn unify_impl_type_recalling(
    env: &Env<'_>,
    h: &[u32],
    ws: &mut [u32],
    ks: &[u32],
    memory: &mut [u32],
    a: Impl<'_>,
    b: Impl<'_>,
) -> Result<UnifyResult, Refusal>
    requires { Tested (env_lent env.now) h.now ws.old ks.now }
    ensures { Promised
        (unify_impl_type_call (env_lent env.now) (lent_of h.now ws.old ks.now)
        (impl_means a.entry) (impl_means b.entry))
        (unify_reply result) h.now ws.old ks.now h.now ws.new ks.now }
{
    let x = layout::read_header(h);
    lent_tests::impls(a, b, x.nodes, env)?;
    let fixed = unify_lists::begin(env, ks, x.nodes, memory);
    Ok(unify_lists::unify_impl_type(ws, &fixed, memory, a, b))
}

// The same without a memory.
pub fn unify_impl_type(
    env: &Env<'_>,
    h: &[u32],
    ws: &mut [u32],
    ks: &[u32],
    a: Impl<'_>,
    b: Impl<'_>,
) -> Result<UnifyResult, Refusal>
    requires { Tested (env_lent env.now) h.now ws.old ks.now }
    ensures { Promised
        (unify_impl_type_call (env_lent env.now) (lent_of h.now ws.old ks.now)
        (impl_means a.entry) (impl_means b.entry))
        (unify_reply result) h.now ws.old ks.now h.now ws.new ks.now }
{
    let mut memory = [0u32; unify_lists::OWN_MEMORY];
    unify_impl_type_recalling(env, h, ws, ks, &mut memory, a, b)
}

// Are two impl types of one trait? An error is of none.
fn same_trait(a: Impl<'_>, b: Impl<'_>) -> bool
    ensures { result ≡ approx_eq (impl_means a.entry) (impl_means b.entry) }
{
    match (a, b) {
        (Impl::Trait(i, _), Impl::Trait(j, _)) => i == j,
        (Impl::Error, _) | (_, Impl::Error) => false,
    }
}

// `approx_eq`: two impl types, by their traits alone.
pub fn approx_eq(
    env: &Env<'_>,
    h: &[u32],
    ws: &[u32],
    ks: &[u32],
    a: Impl<'_>,
    b: Impl<'_>,
) -> Result<bool, Refusal>
    requires { Tested (env_lent env.now) h.now ws.now ks.now }
    ensures { Promised
        (approx_eq_call (env_lent env.now) (lent_of h.now ws.now ks.now)
        (impl_means a.entry) (impl_means b.entry))
        (bool_reply result) h.now ws.now ks.now h.now ws.now ks.now }
{
    let x = layout::read_header(h);
    lent_tests::impls(a, b, x.nodes, env)?;
    Ok(same_trait(a, b))
}

// The calls that fill a store with variables, the error type and nil, on a tested store: each tests room and refuses, or makes what document 01 says. Those of one
// type are `tested_lean`'s, whose promise with every chart, texts and children's words is theirs with these. Of `new_vars` 10 is tested before 7.
ghost use Rattle.std.specs.Prelude.{length};
ghost use Rattle.scope.specs.Calls.{new_var_call, new_vars_call, error_call, nil_call};
ghost use Rattle.layout.specs.Words.{lent_of};
ghost use Rattle.sound.specs.Tests.{env_lent};
ghost use Rattle.promise.specs.Promise.{type_reply, Promised, Tested};
ghost use Rattle.promise.specs.Lists.{ListPromised};

use chart::Env;
use heads::Once;
use refusals::Refusal;
use types::Type;

// "`new_var`": a type without a kind, and its span.
pub fn new_var(
    env: &Env<'_>,
    h: &mut [u32],
    ws: &mut [u32],
    ks: &[u32],
    span: u32,
) -> Result<Type, Refusal>
    requires { Tested (env_lent env.now) h.old ws.old ks.now }
    ensures { Promised
        (new_var_call (env_lent env.now) (lent_of h.old ws.old ks.now) span)
        (type_reply result) h.old ws.old ks.now h.new ws.new ks.now }
{
    tested_lean::new_var(h, ws, span)
}

// `count` types without a kind; they stand at the front of `out`. "The count given to `new_vars` is limited by 10 and 7 only"
pub fn new_vars(
    env: &Env<'_>,
    h: &mut [u32],
    ws: &mut [u32],
    ks: &[u32],
    span: u32,
    count: u32,
    out: &mut [u32],
) -> Result<(), Refusal>
    requires { Tested (env_lent env.now) h.old ws.old ks.now }
    ensures { ListPromised
        (new_vars_call (env_lent env.now) (lent_of h.old ws.old ks.now)
        span count (length out.old))
        result count h.old ws.old ks.now h.new ws.new ks.now
        out.old out.new }
{
    refusals::room(h, count, 0)?;
    if out.len() < count as usize {
        return Err(Refusal::Short);
    }
    make::new_vars(h, ws, ks, span, count, out);
    Ok(())
}

// The error type.
pub fn error(env: &Env<'_>, h: &mut [u32], ws: &mut [u32], ks: &[u32]) -> Result<Type, Refusal>
    requires { Tested (env_lent env.now) h.old ws.old ks.now }
    ensures { Promised
        (error_call (env_lent env.now) (lent_of h.old ws.old ks.now))
        (type_reply result) h.old ws.old ks.now h.new ws.new ks.now }
{
    tested_lean::once(h, ws, Once::Error)
}

// The type of nothing: a Tuple without children.
pub fn nil(env: &Env<'_>, h: &mut [u32], ws: &mut [u32], ks: &[u32]) -> Result<Type, Refusal>
    requires { Tested (env_lent env.now) h.old ws.old ks.now }
    ensures { Promised
        (nil_call (env_lent env.now) (lent_of h.old ws.old ks.now))
        (type_reply result) h.old ws.old ks.now h.new ws.new ks.now }
{
    tested_lean::once(h, ws, Once::Nil)
}

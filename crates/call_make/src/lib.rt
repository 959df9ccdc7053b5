#![tactic(auto)]
// The calls that fill a store with variables, the error type and nil, on any numbers at all: each tests chart and store and refuses with 2 or 8, or is its
// form for a tested store.
//
// Kept (2), (5): as `promise` says.
pub mod tested;

ghost use Rattle.std.specs.Prelude.{length};
ghost use Rattle.scope.specs.Calls.{new_var_call, new_vars_call, error_call, nil_call};
ghost use Rattle.layout.specs.Words.{lent_of};
ghost use Rattle.sound.specs.Tests.{env_lent};
ghost use Rattle.promise.specs.Promise.{type_reply, Promised};
ghost use Rattle.promise.specs.Lists.{ListPromised};

use chart::Env;
use refusals::Refusal;
use types::Type;

// "`new_var`": a type without a kind, and its span.
pub fn new_var(
    env: &Env<'_>,
    h: &mut [u32],
    ws: &mut [u32],
    ks: &[u32],
    span: u32,
) -> Result<Type, Refusal>
    ensures { Promised
        (new_var_call (env_lent env.now) (lent_of h.old ws.old ks.now) span) (type_reply result) h.old ws.old ks.now h.new ws.new ks.now }
{
    sound::lent(env, h, ws, ks)?;
    tested::new_var(env, h, ws, ks, span)
}

// `count` types without a kind; they stand at the front of `out`. "The count given to `new_vars` is limited by 10 and 7 only"
pub fn new_vars(
    env: &Env<'_>,
    h: &mut [u32],
    ws: &mut [u32],
    ks: &[u32],
    span: u32,
    count: u32,
    out: &mut [u32],
) -> Result<(), Refusal>
    ensures { ListPromised
        (new_vars_call (env_lent env.now) (lent_of h.old ws.old ks.now)
        span count (length out.old))
        result count h.old ws.old ks.now h.new ws.new ks.now
        out.old out.new }
{
    sound::lent(env, h, ws, ks)?;
    tested::new_vars(env, h, ws, ks, span, count, out)
}

// The error type.
pub fn error(env: &Env<'_>, h: &mut [u32], ws: &mut [u32], ks: &[u32]) -> Result<Type, Refusal>
    ensures { Promised
        (error_call (env_lent env.now) (lent_of h.old ws.old ks.now))
        (type_reply result) h.old ws.old ks.now h.new ws.new ks.now }
{
    sound::lent(env, h, ws, ks)?;
    tested::error(env, h, ws, ks)
}

// The type of nothing: a Tuple without children.
pub fn nil(env: &Env<'_>, h: &mut [u32], ws: &mut [u32], ks: &[u32]) -> Result<Type, Refusal>
    ensures { Promised
        (nil_call (env_lent env.now) (lent_of h.old ws.old ks.now)) (type_reply result) h.old ws.old ks.now h.new ws.new ks.now }
{
    sound::lent(env, h, ws, ks)?;
    tested::nil(env, h, ws, ks)
}

#![tactic(auto)]
// The calls `new`, `new_struct` and `new_union` on any numbers at all: each tests chart and store and refuses with 2 or 8, or is its form for a tested store.
//
// Kept (2), (5): as `promise` says.
ghost use Rattle.scope.specs.Calls.{new_call, new_struct_call, new_union_call};
ghost use Rattle.layout.specs.Words.{lent_of};
ghost use Rattle.store.specs.Entries.{types_in};
ghost use Rattle.sound.specs.Tests.{env_lent};
ghost use Rattle.promise.specs.Promise.{Promised, type_reply};
ghost use Rattle.lent_kind.specs.Lent.{given};

use chart::Env;
use lent_kind::KindArgs;
use refusals::Refusal;
use types::Type;

// `new`: a kind with its children as entries, each a type and its name's text, start and length.
pub fn new(
    env: &Env<'_>,
    h: &mut [u32],
    ws: &mut [u32],
    ks: &mut [u32],
    k: KindArgs,
    entries: &[u32],
) -> Result<Type, Refusal>
    ensures { Promised
        (new_call (env_lent env.now) (lent_of h.old ws.old ks.old) (given k entries.now)) (type_reply result) h.old ws.old ks.old h.new ws.new ks.new }
{
    sound::lent(env, h, ws, ks)?;
    tested_new::new(env, h, ws, ks, k, entries)
}

// `new_struct`: a Struct over a definition.
pub fn new_struct(
    env: &Env<'_>,
    h: &mut [u32],
    ws: &mut [u32],
    ks: &mut [u32],
    number: u32,
    types: &[u32],
) -> Result<Type, Refusal>
    ensures { Promised
        (new_struct_call (env_lent env.now) (lent_of h.old ws.old ks.old)
        number (types_in types.now))
        (type_reply result) h.old ws.old ks.old h.new ws.new ks.new }
{
    sound::lent(env, h, ws, ks)?;
    tested_new::new_struct(env, h, ws, ks, number, types)
}

// `new_union`: a Union over a definition.
pub fn new_union(
    env: &Env<'_>,
    h: &mut [u32],
    ws: &mut [u32],
    ks: &mut [u32],
    number: u32,
    types: &[u32],
) -> Result<Type, Refusal>
    ensures { Promised
        (new_union_call (env_lent env.now) (lent_of h.old ws.old ks.old)
        number (types_in types.now))
        (type_reply result) h.old ws.old ks.old h.new ws.new ks.new }
{
    sound::lent(env, h, ws, ks)?;
    tested_new::new_union(env, h, ws, ks, number, types)
}

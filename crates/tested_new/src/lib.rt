#![tactic(auto)]
// `new`, `new_struct` and `new_union` on a tested store: each tests its arguments and refuses, or makes the node that document 01 says. Refusals come in the
// order 3, 4, 5, 10, 11. A list may be of any length: 3 is tested over all of it, and only then that it is no wider than 255.
// Kept (2), (5): as `promise` says.
ghost use Rattle.std.specs.Prelude.{◌≤◌};
ghost use Rattle.scope.specs.Limits.{MAX_WIDTH};
ghost use Rattle.scope.specs.Calls.{new_call, new_struct_call, new_union_call};
ghost use Rattle.chart.specs.Env.{chart_lent};
ghost use Rattle.layout.specs.Words.{store_in, lent_of};
ghost use Rattle.store.specs.Holds.{Ready};
ghost use Rattle.store.specs.Entries.{entry_count, types_in};
ghost use Rattle.sound.specs.Tests.{env_lent};
ghost use Rattle.promise.specs.Promise.{Promised, type_reply, Tested};
ghost use Rattle.lent_kind.specs.Lent.{given};
ghost use Rattle.tested_over.specs.Inside.{inside_call};

use chart::Env;
use kinds::{STRUCT, UNION};
use lent_kind::{KindArgs, flagged, test_kind, test_list};
use refusals::Refusal;
use types::Type;

// What is left of `new` once 3 is passed.
fn make_inside(
    env: &Env<'_>,
    h: &mut [u32],
    ws: &mut [u32],
    ks: &mut [u32],
    k: KindArgs,
    entries: &[u32],
) -> Result<Type, Refusal>
    requires ready { Ready h.old ws.old ks.old 0 0 }
    requires entries_bound { entry_count entries.now ≤ MAX_WIDTH }
    ensures { Promised
        (inside_call (chart_lent env.now) (store_in h.old ws.old ks.old)
        (given k entries.now))
        (type_reply result) h.old ws.old ks.old h.new ws.new ks.new }
{
    test_kind(env, k, entries)?;
    refusals::room(h, 1, store::entry_count(entries) as u32)?;
    Ok(make::new_kind(h, ws, ks, flagged(k, env.chart), entries))
}

// `new`: a kind with its children as entries, each a type and its name's text, start and length.
pub fn new(
    env: &Env<'_>,
    h: &mut [u32],
    ws: &mut [u32],
    ks: &mut [u32],
    k: KindArgs,
    entries: &[u32],
) -> Result<Type, Refusal>
    requires { Tested (env_lent env.now) h.old ws.old ks.old }
    ensures { Promised
        (new_call (env_lent env.now) (lent_of h.old ws.old ks.old)
        (given k entries.now))
        (type_reply result) h.old ws.old ks.old h.new ws.new ks.new }
{
    let x = layout::read_header(h);
    let inside = refusals::entries_inside(entries, x.nodes);
    test_list(inside, store::entry_count(entries))?;
    make_inside(env, h, ws, ks, k, entries)
}

// `new_struct`: a Struct over a definition.
pub fn new_struct(
    env: &Env<'_>,
    h: &mut [u32],
    ws: &mut [u32],
    ks: &mut [u32],
    number: u32,
    types: &[u32],
) -> Result<Type, Refusal>
    requires { Tested (env_lent env.now) h.old ws.old ks.old }
    ensures { Promised
        (new_struct_call (env_lent env.now) (lent_of h.old ws.old ks.old)
        number (types_in types.now))
        (type_reply result) h.old ws.old ks.old h.new ws.new ks.new }
{
    tested_over::new_over(env.chart, h, ws, ks, STRUCT, number, types)
}

// `new_union`: a Union over a definition.
pub fn new_union(
    env: &Env<'_>,
    h: &mut [u32],
    ws: &mut [u32],
    ks: &mut [u32],
    number: u32,
    types: &[u32],
) -> Result<Type, Refusal>
    requires { Tested (env_lent env.now) h.old ws.old ks.old }
    ensures { Promised
        (new_union_call (env_lent env.now) (lent_of h.old ws.old ks.old)
        number (types_in types.now))
        (type_reply result) h.old ws.old ks.old h.new ws.new ks.new }
{
    tested_over::new_over(env.chart, h, ws, ks, UNION, number, types)
}

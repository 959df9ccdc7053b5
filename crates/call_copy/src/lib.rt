#![tactic(auto)]
// `import` and `export` on any numbers at all. `import` tests chart and both stores and refuses with 2, 8 or 9; `export` tests the opening, which comes first in
// 01's order, then chart and source, and refuses with 1, 2 or 8. Otherwise each is its form for tested stores.
//
// Kept (2): as `promise` says.
// Kept (5): a source's header, nodes and children stay three slices, though all are shared. Every call that reads a store has it so, as C has and as `sound::lent` and
// `Tested` say it. A struct would be made in `library` and taken apart again in `stores` and in each crate below, and an import's contract would say its two stores in two
// ways: the destination's slices are `&mut` (`promise` says why these stay three).
ghost use Rattle.std.specs.Prelude.{length};
ghost use Rattle.scope.specs.Calls.{import_call, export_call};
ghost use Rattle.layout.specs.Words.{lent_of, store_in};
ghost use Rattle.store.specs.Entries.{types_in};
ghost use Rattle.sound.specs.Tests.{env_lent};
ghost use Rattle.promise.specs.Lists.{ListPromised};
ghost use Rattle.copy_parts.specs.Places.{params_in};
ghost use Rattle.tested_import.specs.Tests.{StoresTested};
ghost use Rattle.refusals.specs.Opening.{enough};
ghost use Rattle.promise.specs.Exports.{ExportPromised};
ghost use Rattle.refusals.specs.Codes.{told};

use chart::Env;
use refusals::Refusal;

// The first of refusals 2, 8 and 9 that stands: the destination, then the source.
fn stores(
    env: &Env<'_>,
    h: &[u32],
    ws: &[u32],
    ks: &[u32],
    sh: &[u32],
    sw: &[u32],
    sk: &[u32],
) -> Result<(), Refusal>
    ensures { StoresTested (env_lent env.now) h.now ws.now ks.now
        sh.now sw.now sk.now (told result) }
{
    sound::lent(env, h, ws, ks)?;
    if !sound::store_sound(env, sh, sw, sk) {
        return Err(Refusal::SourceUnsound);
    }
    Ok(())
}

// The listed types of the source, which is only read; what they become stands at the front of `out`. `params` is a parameter list, if there is one.
pub fn import<'a>(
    env: &Env<'_>,
    h: &mut [u32],
    ws: &mut [u32],
    ks: &mut [u32],
    sh: &[u32],
    sw: &'a [u32],
    sk: &'a [u32],
    ts: &[u32],
    params: Option<&'a [u32]>,
    out: &mut [u32],
) -> Result<(), Refusal>
    ensures { ListPromised
        (import_call (env_lent env.now) (lent_of h.old ws.old ks.old)
        (lent_of sh.now sw.now sk.now) (types_in ts.now) (params_in params.entry)
        (length out.old))
        result (length ts.now) h.old ws.old ks.old h.new ws.new ks.new
        out.old out.new }
{
    stores(env, h, ws, ks, sh, sw, sk)?;
    tested_import::import(env, h, ws, ks, sh, sw, sk, ts, params, out)
}

// The listed types; what they become stands at the front of `out`. The fresh store has room for so many nodes and children, and remembers what the source's
// error and nil became.
pub fn export(
    env: &Env<'_>,
    sh: &[u32],
    sw: &[u32],
    sk: &[u32],
    h: &mut [u32],
    ws: &mut [u32],
    ks: &mut [u32],
    nodes: u32,
    children: u32,
    ts: &[u32],
    out: &mut [u32],
) -> Result<(), Refusal>
    ensures { ExportPromised
        (export_call (env_lent env.now) (lent_of sh.now sw.now sk.now)
        nodes children (enough nodes children h.old ws.old ks.old) (types_in ts.now) (length out.old))
        result (length ts.now) (store_in sh.now sw.now sk.now)
        h.old ws.old ks.old h.new ws.new ks.new out.old out.new }
{
    refusals::opening(h, ws, ks, nodes, children)?;
    sound::lent(env, sh, sw, sk)?;
    tested_export::export(env, sh, sw, sk, h, ws, ks, nodes, children, ts, out)
}

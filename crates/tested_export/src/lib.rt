#![tactic(auto)]
// `export`: types of a tested store copied into a fresh one, "which the call itself opens in the destination's buffers whatever they held". It tests its
// arguments and refuses, or copies as document 01 says; the source is only read. Refusals come in 01's order: 1, 3, 4, 10, 11 and 7.
// Kept (2), (5): as `promise` says.
ghost use Rattle.std.specs.Prelude.{length};
ghost use Rattle.scope.specs.Calls.{export_call};
ghost use Rattle.layout.specs.Words.{store_in, lent_of};
ghost use Rattle.store.specs.Entries.{types_in};
ghost use Rattle.refusals.specs.Codes.{told};
ghost use Rattle.refusals.specs.Opening.{enough};
ghost use Rattle.sound.specs.Tests.{env_lent};
ghost use Rattle.promise.specs.Promise.{Tested};
ghost use Rattle.promise.specs.Exports.{ExportPromised};
ghost use Rattle.tested_export.specs.Tests.{ExportTested};

use chart::Env;
use refusals::Refusal;

// The first of all refusals but 7 that stands.
fn tests(
    env: &Env<'_>,
    sh: &[u32],
    sw: &[u32],
    sk: &[u32],
    h: &[u32],
    ws: &[u32],
    ks: &[u32],
    nodes: u32,
    children: u32,
    ts: &[u32],
) -> Result<(), Refusal>
    requires { Tested (env_lent env.now) sh.now sw.now sk.now }
    ensures { ExportTested (env_lent env.now) sh.now sw.now sk.now
        h.now ws.now ks.now nodes children ts.now (told result) }
{
    refusals::opening(h, ws, ks, nodes, children)?;
    let x = layout::read_header(sh);
    lent_tests::lists(ts, &[], x.nodes)?;
    let wanted = needs::of_export(sh, sw, sk, ts);
    let fresh = make::no_nodes(nodes, children, 0);
    refusals::room_by(fresh, wanted.nodes, wanted.children)
}

// The listed types; what they become stands at the front of `out`. The fresh store has room for so many nodes and children, and remembers what the source's
// error and nil became.
pub fn export(
    env: &Env<'_>,
    sh: &[u32],
    sw: &[u32],
    sk: &[u32],
    h: &mut [u32],
    ws: &mut [u32],
    ks: &mut [u32],
    nodes: u32,
    children: u32,
    ts: &[u32],
    out: &mut [u32],
) -> Result<(), Refusal>
    requires { Tested (env_lent env.now) sh.now sw.now sk.now }
    ensures { ExportPromised
        (export_call (env_lent env.now) (lent_of sh.now sw.now sk.now)
        nodes children (enough nodes children h.old ws.old ks.old) (types_in ts.now) (length out.old))
        result (length ts.now) (store_in sh.now sw.now sk.now)
        h.old ws.old ks.old h.new ws.new ks.new out.old out.new }
{
    tests(env, sh, sw, sk, h, ws, ks, nodes, children, ts)?;
    if out.len() < ts.len() {
        return Err(Refusal::Short);
    }
    copy::export(sh, sw, sk, h, ws, ks, nodes, children, ts, out);
    Ok(())
}

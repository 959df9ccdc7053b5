#![tactic(auto)]
// `import`: types of another store brought into this one, where both are tested. It tests its arguments and refuses, or copies as document 01 says. Refusals
// come in 01's order: 3 and 4 of both lists, 6, 10, 11 and 7. Source and destination "read the same chart and texts".
// Kept (2), (5): as `promise` says.
ghost use Rattle.std.specs.Prelude.{◌≡◌, false, length};
ghost use Rattle.scope.specs.Calls.{too_many, import_list, import_call};
ghost use Rattle.layout.specs.Words.{lent_of};
ghost use Rattle.store.specs.Entries.{types_in};
ghost use Rattle.sound.specs.Tests.{env_lent};
ghost use Rattle.needs.specs.Roots.{params_for};
ghost use Rattle.needs.specs.Sources.{ImportableIn};
ghost use Rattle.promise.specs.Promise.{Tested};
ghost use Rattle.promise.specs.Lists.{ListPromised};
ghost use Rattle.copy_parts.specs.Places.{params_in};
ghost use Rattle.tested_import.specs.Tests.{NeedsTested};
ghost use Rattle.refusals.specs.Codes.{told};

use chart::Env;
use copy::Source;
use layout::Nodes;
use refusals::Refusal;

// The entries of a parameter list; none where there is no list.
fn entries_of<'a>(params: Option<&'a [u32]>) -> &'a [u32]
    ensures { types_in result.now ≡ import_list (params_in params.entry) }
{
    params.unwrap_or(&[])
}

// No list and an empty list are two different things: in an empty list no Param has an entry.
fn params_of(params: Option<&[u32]>) -> Option<u32>
    requires { too_many (import_list (params_in params)) ≡ false }
    ensures { result ≡ params_for (params_in params.entry) }
{
    params.map(|ps| ps.len() as u32)
}

// The first of refusals 6, 10 and 11 that stands: what is needed is counted in the source alone, and of the destination only the header is read.
fn needed(h: &[u32], source: &Source<'_>, ts: &[u32]) -> Result<(), Refusal>
    requires { (ImportableIn source.now.nodes (types_in ts.now)) × (too_many (import_list (params_in source.now.params)) ≡ false) }
    ensures { NeedsTested h.now source.now.nodes.words.now source.now.nodes.kids.now source.now.nodes.made (params_in source.now.params) ts.now (told result) }
{
    let wanted = needs::of_import(&source.nodes, params_of(source.params), ts);
    if wanted.missing {
        return Err(Refusal::NoEntry);
    }
    refusals::room(h, wanted.nodes, wanted.children)
}

// The listed types of the source, which is only read; what they become stands at the front of `out`. `params` is a parameter list, if there is one.
pub fn import<'a>(
    env: &Env<'_>,
    h: &mut [u32],
    ws: &mut [u32],
    ks: &mut [u32],
    sh: &[u32],
    sw: &'a [u32],
    sk: &'a [u32],
    ts: &[u32],
    params: Option<&'a [u32]>,
    out: &mut [u32],
) -> Result<(), Refusal>
    requires tested { Tested (env_lent env.now) h.old ws.old ks.old }
    requires tested_2 { Tested (env_lent env.now) sh.now sw.now sk.now }
    ensures { ListPromised
        (import_call (env_lent env.now) (lent_of h.old ws.old ks.old)
        (lent_of sh.now sw.now sk.now) (types_in ts.now) (params_in params.entry)
        (length out.old))
        result (length ts.now) h.old ws.old ks.old h.new ws.new ks.new
        out.old out.new }
{
    let x = layout::read_header(h);
    let from = layout::read_header(sh);
    lent_tests::lists_among(ts, from.nodes, entries_of(params), x.nodes)?;
    let nodes = Nodes {
        words: sw,
        kids: sk,
        made: from.nodes,
    };
    let source = Source { nodes, params };
    needed(h, &source, ts)?;
    if out.len() < ts.len() {
        return Err(Refusal::Short);
    }
    copy::import(&source, h, ws, ks, ts, out);
    Ok(())
}

#![tactic(auto)]
// `import` and `export`: "a list of at most 255 types, one shared mapping". The mapping is a table with a number for each node of the source, which one
// list after another goes through. Callers have tested the source and the room, so nothing here can fail.
ghost use Rattle.std.specs.Prelude.{length};
ghost use Rattle.scope.specs.Nodes.{opened};
ghost use Rattle.scope.specs.Import.{export};
ghost use Rattle.layout.specs.Words.{store_in};
ghost use Rattle.store.specs.Entries.{types_in};
ghost use Rattle.copy.specs.Whole.{ImportReadyFrom, import_from, ExportReady, ImportedIs};

use layout::Nodes;
use roots::Finder;
use scope::MAX_NODES;

// What is copied from, and the parameter list, if there is one.
#[derive(Clone, Copy)]
pub struct Source<'a> {
    pub nodes: Nodes<'a>,
    pub params: Option<&'a [u32]>,
}

// With a parameter list or none.
pub fn import(
    source: &Source<'_>,
    h: &mut [u32],
    ws: &mut [u32],
    ks: &mut [u32],
    ts: &[u32],
    out: &mut [u32],
)
    requires { ImportReadyFrom source.now ts.now h.old ws.old ks.old out.old }
    ensures { ImportedIs (import_from source.now (store_in h.old ws.old ks.old) (types_in ts.now)) (length ts.now)
        h.old ws.old ks.old h.new ws.new ks.new out.old out.new }
{
    let mut cache = [0u16; MAX_NODES];
    let mut table = [0u32; MAX_NODES];
    let mut finder = Finder {
        nodes: &source.nodes,
        cache: &mut cache,
    };
    copy_lists::copy_all(&mut finder, source.params, &mut table, h, ws, ks, ts, out);
}

// "`export` is the same into a fresh store", "error type first, nil next; it has no parameter list."
pub fn export<'a>(
    sh: &[u32],
    sw: &'a [u32],
    sk: &'a [u32],
    h: &mut [u32],
    ws: &mut [u32],
    ks: &mut [u32],
    nodes: u32,
    children: u32,
    ts: &[u32],
    out: &mut [u32],
)
    requires { ExportReady sh.now sw.now sk.now ts.now nodes children h.old ws.old ks.old out.old }
    ensures { ImportedIs (export (store_in sh.now sw.now sk.now) (opened nodes children)
        (types_in ts.now)) (length ts.now)
        h.old ws.old ks.old h.new ws.new ks.new out.old out.new }
{
    let x = layout::read_header(sh);
    make::open(h, ws, ks, nodes, children);
    let mut cache = [0u16; MAX_NODES];
    let mut table = [0u32; MAX_NODES];
    let nodes = Nodes {
        words: sw,
        kids: sk,
        made: x.nodes,
    };
    let mut finder = Finder {
        nodes: &nodes,
        cache: &mut cache,
    };
    let error = copy_lists::copy_remembered(&mut finder, &mut table, h, ws, ks, x.error);
    let nil = copy_lists::copy_remembered(&mut finder, &mut table, h, ws, ks, x.nil);
    copy_lists::copy_all(&mut finder, None, &mut table, h, ws, ks, ts, out);
    make::remember(h, error, nil);
}

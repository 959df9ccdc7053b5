#![tactic(auto)]
// "An Unknown becomes InferenceFailed, its span is in the answer"; the report count rises. And what gives every root a kind at the end.
// Each does what scope's definition says of the store that three lent slices hold.
// Kept (5): that the three slices are clean is asked by four here; why they are no struct, `promise` says.
ghost use Rattle.std.specs.Prelude.{◌≡◌, true, ◌≤◌, length};
ghost use Rattle.scope.specs.Force.{report, finish_inference, finish_where};
ghost use Rattle.layout.specs.Words.{node_words, clean};
ghost use Rattle.layout.specs.Meaning.{read_at};
ghost use Rattle.force.specs.Finish.{finish_words, Finished, FinishedBy};
ghost use Rattle.force.specs.Forcing.{reporting, ForcedIs};

use kinds::DEFAULT;
use layout::{Header, TypeNode, TypeState};
use types::{Inverted, Type, TypeIdx};

// Node i of n: a root without a kind gets Default.
fn finish_node(ws: &mut [u32], n: u32, i: TypeIdx)
    requires { node_words n ≤ length ws.old }
    ensures { ws.new ≡ finish_words ws.old n i.0 (read_at ws.old n i.0) }
{
    if let TypeNode::Root { state, size } = layout::node_at(ws, n, i)
        && state.lacks_kind()
    {
        let state = TypeState::Known(Inverted(false), store::bare_kind(DEFAULT));
        layout::put_node(ws, n, i, TypeNode::Root { state, size });
    }
}

// Every root without a kind whose node is chosen gets Default.
fn finish_chosen<F: Fn(TypeIdx) -> bool>(h: &[u32], ws: &mut [u32], ks: &[u32], is_chosen: F)
    requires store_clean { clean h.now ws.old ks.now ≡ true }
    requires callable { F.IsAlwaysCallable is_chosen }
    ensures { FinishedBy (F.post is_chosen) h.now ws.old ks.now ws.new }
{
    let n = layout::read_header(h).nodes;
    for i in 0..n {
        let node = TypeIdx(i);
        if is_chosen(node) {
            finish_node(ws, n, node);
        }
    }
}

// Every root without a kind gets Default.
pub fn finish_inference(h: &[u32], ws: &mut [u32], ks: &[u32])
    requires { clean h.now ws.old ks.now ≡ true }
    ensures { Finished h.now ws.old ks.now ws.new finish_inference }
{
    finish_chosen(h, ws, ks, |_| true);
}

// Every chosen root without a kind gets Default. There is "a lent byte for each node, nonzero chooses, absent means no".
pub fn finish_inference_where(h: &[u32], ws: &mut [u32], ks: &[u32], bytes: &[u8])
    requires { clean h.now ws.old ks.now ≡ true }
    ensures { Finished h.now ws.old ks.now ws.new (finish_where bytes.now) }
{
    finish_chosen(h, ws, ks, |i| roots::is_marked(bytes, i));
}

// The count "stops at its largest value".
fn one_more(n: u64) -> u64
    ensures { result ≡ report n }
{
    n.saturating_add(1)
}

fn with_reports(x: Header, reports: u64) -> Header
    ensures { result ≡ reporting x reports }
{
    Header { reports, ..x }
}

// The state that a type's root had, inverted as the type is: its kind, the span to report at, or that it had failed before.
pub fn force_kind(h: &mut [u32], ws: &mut [u32], ks: &[u32], t: Type) -> TypeState
    requires { clean h.old ws.old ks.now ≡ true }
    ensures { ForcedIs h.old ws.old ks.now h.new ws.new t result }
{
    let x = layout::read_header(h);
    let root = roots::find_mut(ws, x.nodes, t);
    let i = root.idx();
    let node = layout::node_at(ws, x.nodes, i);
    let state = layout::state_of(node);
    match state {
        TypeState::Known(inv, kind) => TypeState::Known(inv ^ root.inv(), kind),
        TypeState::Unknown(span) => {
            let failed = TypeNode::Root {
                state: TypeState::InferenceFailed,
                size: layout::size_of(node),
            };
            layout::put_node(ws, x.nodes, i, failed);
            layout::write_header(h, with_reports(x, one_more(x.reports)));
            TypeState::Unknown(span)
        }
        TypeState::InferenceFailed => TypeState::InferenceFailed,
    }
}

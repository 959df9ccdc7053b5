#![tactic(auto)]
// The call that opens a store, on any numbers at all: it is refused with 1 alone.
//
// Kept (5): as `promise` says.
ghost use Rattle.scope.specs.Calls.{open_call};
ghost use Rattle.refusals.specs.Opening.{enough};
ghost use Rattle.promise.specs.Promise.{done_reply, Promised};

use refusals::Refusal;

// A store without nodes, whatever the slices held. "Nodes 0 to 4,096; children over all nodes ever made 0 to 16,384, both chosen at opening"
pub fn open(
    h: &mut [u32],
    ws: &mut [u32],
    ks: &mut [u32],
    nodes: u32,
    children: u32,
) -> Result<(), Refusal>
    ensures { Promised (open_call nodes children (enough nodes children h.old ws.old ks.old))
        (done_reply result) h.old ws.old ks.old h.new ws.new ks.new }
{
    refusals::opening(h, ws, ks, nodes, children)?;
    make::open(h, ws, ks, nodes, children);
    Ok(())
}

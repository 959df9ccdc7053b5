// Two roots of which no child is unified: one node, or one of them without a kind. What walks is here, apart from the cycle of `unify`, and so its marks stay out of the
// cycle's frames. A root that was once found to be its own inverse stays so whatever merges: it is marked in the memory with all that a walk
// found so, and not walked again. A walk that fails is remembered until a node changes.
ghost use Rattle.scope.specs.Types.{ty_of};
ghost use Rattle.unify_enter.specs.Walk.{WalkAsks, WalkTold};

use crate::Fixed;
use layout::Nodes;
use types::{Type, UnifyResult};

// Two roots, whatever they are: what the memory knows, or a walk says an answer or a merge.
fn walk_on(ws: &mut [u32], fixed: &Fixed<'_>, memory: &mut [u32], a: Type, b: Type) -> UnifyResult
    requires { WalkAsks ws.old fixed.now.kids.now memory.old fixed.now.made (ty_of a.0) (ty_of b.0) }
    ensures { WalkTold ws.old fixed.now.kids.now memory.old ws.new memory.new fixed.now.made (ty_of a.0) (ty_of b.0) result }
{
    if let Some(r) = recall::look(memory, fixed.made, a, b) {
        return r;
    }
    let nodes = Nodes {
        words: ws,
        kids: fixed.kids,
        made: fixed.made,
    };
    match meeting::walk_roots(&nodes, a, b) {
        Some(r) => {
            recall::walked(memory, fixed.made, a, b, r);
            r
        }
        None => {
            merge::bind(ws, fixed.made, a, b);
            recall::changed(memory);
            UnifyResult::Success
        }
    }
}

// The same; two types of one node need no walk where they agree, nor one nil, nor a marked root.
pub fn walk_pair(
    ws: &mut [u32],
    fixed: &Fixed<'_>,
    memory: &mut [u32],
    a: Type,
    b: Type,
) -> UnifyResult
    requires { WalkAsks ws.old fixed.now.kids.now memory.old fixed.now.made (ty_of a.0) (ty_of b.0) }
    ensures { WalkTold ws.old fixed.now.kids.now memory.old ws.new memory.new fixed.now.made (ty_of a.0) (ty_of b.0) result }
{
    if a.idx() != b.idx() {
        return walk_on(ws, fixed, memory, a, b);
    }
    if a.inv() == b.inv() {
        return UnifyResult::Success;
    }
    if heed::small(ws, fixed.made, memory, a, b) {
        return UnifyResult::Success;
    }
    if marks::knows(memory, a.idx()) {
        return UnifyResult::Success;
    }
    if let Some(r) = recall::look(memory, fixed.made, a, b) {
        return r;
    }
    let nodes = Nodes {
        words: ws,
        kids: fixed.kids,
        made: fixed.made,
    };
    let r = UnifyResult::from(own_inverse::ask(&nodes, memory, a));
    recall::walked(memory, fixed.made, a, b, r);
    r
}

#![tactic(auto)]
// Two types before their children: an answer, or the children of two roots, to be unified first. This is apart from the cycle of `unify`, whose frames and proof stay
// small by that.
pub mod walks;

ghost use Rattle.scope.specs.Types.{ty_of};
ghost use Rattle.names.specs.Place.{texts_by};
ghost use Rattle.std.specs.Prelude.{[], ◌∷◌};
ghost use Rattle.unify_enter.specs.Asked.{AskedIn};
ghost use Rattle.unify_enter.specs.Enters.{Enters};

use layout::Nodes;
use meeting::Steps;
use names::Texts;
use types::{Type, UnifyResult};

// What stays as it is while nodes are unified: their children's words, how many nodes there are, and the two texts.
#[derive(Clone, Copy)]
pub struct Fixed<'a> {
    pub kids: &'a [u32],
    pub made: u32,
    pub texts: Texts<'a>,
}

// What two types ask for: an answer, or children that are to be unified first, the memory's clock before them, and the two roots.
// Kept (1): as a Result, Success would be an error or children would; nobody hands either on by `?`, and the one match on it goes on with both.
#[derive(Clone, Copy)]
pub enum Entered {
    Done(UnifyResult),
    Kids(Steps, u32, Type, Type),
}

// Two roots without kinds merge at once. What walks is the module `walks`: two roots of which one alone has no kind, at once, and others once both roots are found and have met.
// A pair of roots with children is looked up in the memory here.
pub fn enter(
    ws: &mut [u32],
    fixed: &Fixed<'_>,
    memory: &mut [u32],
    a: Type,
    b: Type,
    depth: u32,
) -> Entered
    requires { AskedIn fixed.now ws.old memory.old depth ((ty_of a.0, ty_of b.0) ∷ []) }
    ensures { Enters (texts_by fixed.now.texts) ws.old fixed.now.kids.now memory.old ws.new memory.new
        fixed.now.made depth (ty_of a.0) (ty_of b.0) result }
{
    if depth == 0 {
        return Entered::Done(UnifyResult::Failure);
    }
    if meeting::bare_roots(ws, fixed.made, a, b) {
        if heed::quick(ws, fixed.made, memory, a, b) {
            return Entered::Done(UnifyResult::Success);
        }
        return Entered::Done(walks::walk_pair(ws, fixed, memory, a, b));
    }
    recall::visited(memory, 1);
    let ra = heed::find(ws, fixed.made, memory, a);
    let rb = heed::find(ws, fixed.made, memory, b);
    let nodes = Nodes {
        words: ws,
        kids: fixed.kids,
        made: fixed.made,
    };
    let Some(p) = meeting::meet(&nodes, &fixed.texts, ra, rb) else {
        return Entered::Done(walks::walk_pair(ws, fixed, memory, ra, rb));
    };
    match recall::look(memory, fixed.made, ra, rb) {
        Some(r) => Entered::Done(r),
        None => Entered::Kids(meeting::in_steps(p), recall::clock(memory), ra, rb),
    }
}

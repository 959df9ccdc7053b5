#![tactic(auto)]
// "The functions that unify a pair, a run and an object call each other in turn", depth falling from the node count. What comes before the children is `unify_enter`,
// apart from the cycle, and so its marks stay out of the cycle's frames: an answer, or what two roots ask for. Then their children are unified, then the answer is settled.
// The words of the nodes change as scope's `unify` says of the nodes. Beside them goes a memory: a pair that did not succeed is looked up there before its children are
// unified. Whatever is believed there is what unifying would give.
//
// Kept (5): the nodes' words and the memory go beside each other here and in `heed`, `unify_enter` and `unify_lists`. Of a lent slice its type says that it is the same slice
// afterwards, and as long; of a part of a struct each contract would say both, as `roots`' `StaysLent` does. What is only read beside them is `unify_enter::Fixed`.
ghost use Rattle.scope.specs.Types.{ty_of};
ghost use Rattle.scope.specs.Unify.{unify_f};
ghost use Rattle.names.specs.Place.{texts_by};
ghost use Rattle.plan.specs.Meaning.{plan_means};
ghost use Rattle.plan.specs.declared.Plan.TheVariants as plans;
ghost use Rattle.meeting.specs.Steps.{RunsLie, Ascends};
ghost use Rattle.meeting.specs.Meets.{does};
ghost use Rattle.std.specs.Prelude.{[], ◌∷◌};
ghost use Rattle.unify.specs.Asked.{AskedIn, UnifiedIn, nodes_in};

use meeting::Steps;
use plan::Runs;
use types::{Type, UnifyResult};
use unify_enter::{Entered, Fixed};

// A pair of types, at a depth.
pub fn unify(
    ws: &mut [u32],
    fixed: &Fixed<'_>,
    memory: &mut [u32],
    a: Type,
    b: Type,
    depth: u32,
) -> UnifyResult
    requires { AskedIn fixed.now ws.old memory.old depth ((ty_of a.0, ty_of b.0) ∷ []) }
    ensures { UnifiedIn fixed.now ws.old memory.old ws.new memory.new
        (unify_f (texts_by fixed.now.texts) fixed.now.made depth (nodes_in fixed.now ws.old) (ty_of a.0) (ty_of b.0)) result }
{
    if depth == 0 {
        return UnifyResult::Failure;
    }
    if heed::small(ws, fixed.made, memory, a, b) {
        return UnifyResult::Success;
    }
    unify_pair(ws, fixed, memory, a, b, depth)
}

// The same where they may be anything.
#[cycle(unify_objects_unify_pair_unify_types)]
pub fn unify_pair(
    ws: &mut [u32],
    fixed: &Fixed<'_>,
    memory: &mut [u32],
    a: Type,
    b: Type,
    depth: u32,
) -> UnifyResult
    requires { AskedIn fixed.now ws.old memory.old depth ((ty_of a.0, ty_of b.0) ∷ []) }
    ensures { UnifiedIn fixed.now ws.old memory.old ws.new memory.new
        (unify_f (texts_by fixed.now.texts) fixed.now.made depth (nodes_in fixed.now ws.old) (ty_of a.0) (ty_of b.0)) result }
{
    match unify_enter::enter(ws, fixed, memory, a, b, depth) {
        Entered::Done(r) => r,
        Entered::Kids(p, began, ra, rb) => match p {
            Steps::Answer(r) => heed::settle(ws, fixed.made, memory, began, ra, rb, r),
            Steps::Object(s) => {
                let r = unify_objects(ws, fixed, memory, s, depth - 1);
                heed::settle(ws, fixed.made, memory, began, ra, rb, r)
            }
            Steps::Run(q, s) => {
                let r = q.and(unify_types(ws, fixed, memory, s, depth - 1));
                heed::settle(ws, fixed.made, memory, began, ra, rb, r)
            }
        },
    }
}

// Two runs of children: "no pair is skipped after a Failure", and "Runs of different length answer Failure and unify nothing". Two roots without kinds merge here at once, and
// so in `unify_objects`: wide runs have many such pairs, and `unify_pair`'s frame for each, with what `enter` looks at, costs more than the merge.
#[cycle(unify_objects_unify_pair_unify_types)]
pub fn unify_types(
    ws: &mut [u32],
    fixed: &Fixed<'_>,
    memory: &mut [u32],
    s: Runs,
    depth: u32,
) -> UnifyResult
    requires { AskedIn fixed.now ws.old memory.old depth (plan_means fixed.now.kids.now (texts_by fixed.now.texts) (plans.Run s)).pairs
        × RunsLie fixed.now.kids.now s }
    ensures { UnifiedIn fixed.now ws.old memory.old ws.new memory.new
        (does (unify_f (texts_by fixed.now.texts) fixed.now.made depth) (nodes_in fixed.now ws.old)
        (plan_means fixed.now.kids.now (texts_by fixed.now.texts) (plans.Run s))) result }
{
    if s.na != s.nb {
        return UnifyResult::Failure;
    }
    let mut r = UnifyResult::Success;
    for i in 0..s.na {
        let x = layout::child_of(fixed.kids, s.a, i).ty;
        let y = layout::child_of(fixed.kids, s.b, i).ty.invert_if(s.inv);
        if depth != 0 && heed::quick(ws, fixed.made, memory, x, y) {
            continue;
        }
        r = r.and(unify_pair(ws, fixed, memory, x, y, depth));
    }
    r
}

// Two objects: "Objects of different length or names answer Failure and still unify their shared names, in a's order".
#[cycle(unify_objects_unify_pair_unify_types)]
pub fn unify_objects(
    ws: &mut [u32],
    fixed: &Fixed<'_>,
    memory: &mut [u32],
    s: Runs,
    depth: u32,
) -> UnifyResult
    requires { AskedIn fixed.now ws.old memory.old depth (plan_means fixed.now.kids.now (texts_by fixed.now.texts) (plans.Object s)).pairs
        × (RunsLie fixed.now.kids.now s × Ascends (texts_by fixed.now.texts) fixed.now.kids.now s.b s.nb) }
    ensures { UnifiedIn fixed.now ws.old memory.old ws.new memory.new
        (does (unify_f (texts_by fixed.now.texts) fixed.now.made depth) (nodes_in fixed.now ws.old)
        (plan_means fixed.now.kids.now (texts_by fixed.now.texts) (plans.Object s))) result }
{
    let mut r = UnifyResult::from(s.na == s.nb);
    for j in 0..s.na {
        let x = layout::child_of(fixed.kids, s.a, j);
        let f = meeting::seek_near(fixed.kids, x.name, j, s.b, s.nb, &fixed.texts);
        let Some(t) = f else {
            r = r.and(UnifyResult::Failure);
            continue;
        };
        let u = t.invert_if(s.inv);
        if depth != 0 && heed::quick(ws, fixed.made, memory, x.ty, u) {
            continue;
        }
        r = r.and(unify_pair(ws, fixed, memory, x.ty, u, depth));
    }
    r
}

#![tactic(auto)]
// What changes nodes beside a memory, and tells it: finding a root, and settling the answer of two. An answer that is no Success is noted; where a node may have
// changed, nothing is believed any more.
ghost use Rattle.scope.specs.Types.{ty_of};
ghost use Rattle.layout.specs.Meaning.{Linked};
ghost use Rattle.recall.specs.Memory.{Tidy};
ghost use Rattle.merge.specs.Meaning.{Adds};
ghost use Rattle.heed.specs.Told.{Settles, FoundTold, QuickTold, SmallTold, SettledTold};

use types::{Type, UnifyResult};

// "`find_mut` also points every node on the path straight at the root": a type that is near has no such path.
pub fn find(ws: &mut [u32], n: u32, memory: &mut [u32], t: Type) -> Type
    requires { Linked ws.old n × Tidy memory.old }
    ensures { FoundTold ws.old n ws.new memory.old memory.new t.0 result.0 }
{
    let Some(r) = roots::near(ws, n, t) else {
        recall::changed(memory);
        return roots::find_mut(ws, n, t);
    };
    r
}

// Two roots without kinds merge, and true. Else nothing is changed.
pub fn quick(ws: &mut [u32], n: u32, memory: &mut [u32], a: Type, b: Type) -> bool
    requires { Adds ws.old n (ty_of a.0) (ty_of b.0) × Tidy memory.old }
    ensures { QuickTold ws.old ws.new n memory.old memory.new (ty_of a.0) (ty_of b.0) result }
{
    if !merge::quick(ws, n, a, b) {
        return false;
    }
    recall::changed(memory);
    true
}

// The same of two roots without children of which one has no kind, and true too of two types of one nil, where nothing is to be done.
pub fn small(ws: &mut [u32], n: u32, memory: &mut [u32], a: Type, b: Type) -> bool
    requires { Adds ws.old n (ty_of a.0) (ty_of b.0) × Tidy memory.old }
    ensures { SmallTold ws.old ws.new n memory.old memory.new (ty_of a.0) (ty_of b.0) result }
{
    if merge::slight(ws, n, a, b) {
        recall::changed(memory);
        return true;
    }
    merge::one_nil(ws, n, a, b)
}

// "Only Success merges." What the visit answered that began at that clock is noted.
pub fn settle(
    ws: &mut [u32],
    n: u32,
    memory: &mut [u32],
    began: u32,
    a: Type,
    b: Type,
    r: UnifyResult,
) -> UnifyResult
    requires { Settles ws.old n memory.old (ty_of a.0) (ty_of b.0) }
    ensures { SettledTold ws.old ws.new n memory.old memory.new began a.0 b.0 r result }
{
    match r {
        UnifyResult::Success => {
            let q = merge::settle(ws, n, a, b, r);
            recall::changed(memory);
            q
        }
        UnifyResult::Failure | UnifyResult::Indeterminate => {
            recall::note(memory, n, began, a, b, r);
            r
        }
    }
}

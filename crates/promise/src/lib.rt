#![tactic(auto)]
// What the public calls share: the test of 3 for one type. A call tests in document 01's order, 2 and 8 first, and what it promises is
// the record `Promised`: its whole outcome, and every word afterwards. Each call on a store has a second form for words that 2 and 8 do not turn back (`Tested`).
//
// Kept (2): each public call stays a function of its own, though many are alike but for the core function that they call: each promises another of document 01's calls.
// Both forms of a call have its name, and one is the test of 2 and 8 and then the other: two lines. So is a call without a memory: one of its own, and the call with one.
// A function of all such pairs would be handed the second form as a closure, and each caller would write the same two lines.
// Kept (5): header, nodes and children stay three lent slices, `h`, `ws` and `ks`, in every call and in the core that writes them. Which of them a call may write their types
// say, and that differs from call to call: as a struct of lent slices there would be one for each such choice. Tried in `run_calls`
// as one struct of three `&mut` parts: of a struct made in a function, whose parts are lent to one call in a loop, the borrow checker covers nothing.
// So what is asked of a store that passed the tests (`Tested`, `Passed`, `TestedNames`) is a clause of each form that takes one, and of its C name.
ghost use Rattle.std.specs.Prelude.{[], ◌∷◌};
ghost use Rattle.scope.specs.Types.{ty_of};
ghost use Rattle.promise.specs.Promise.{TypesInside};
ghost use Rattle.refusals.specs.Codes.{told};

use refusals::Refusal;
use types::Type;

// Refusal 3 where a type's node isn't in the store. It looks at the header alone.
pub fn inside(h: &[u32], t: Type) -> Result<(), Refusal>
    ensures { TypesInside h.now (ty_of t.0 ∷ []) (told result) }
{
    let x = layout::read_header(h);
    if !refusals::type_inside(t, x.nodes) {
        return Err(Refusal::Outside);
    }
    Ok(())
}

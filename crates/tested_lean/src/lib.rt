#![tactic(auto)]
// The calls on a tested store that look at its header and its nodes alone, with no more lent to them: `new_var`, `error`, `nil`, `find`, `find_mut`. Each tests and
// answers what document 01 says, with every chart, texts and children's words with which the words pass the tests. `call_make` and `call_find` have each with all of the store,
// as a call of the one here.
// Kept (2), (5): as `promise` says.
ghost use Rattle.std.specs.Prelude.{◌≡◌, List, ℕ};
ghost use Rattle.scope.specs.Types.{ty_of};
ghost use Rattle.scope.specs.Calls.{first_broken, room_tests, nodes_for, new_var_call, find_call, find_mut_call};
ghost use Rattle.layout.specs.Words.{store_in};
ghost use Rattle.layout.specs.Meaning.{remembered_means};
ghost use Rattle.refusals.specs.Codes.{told};
ghost use Rattle.promise.specs.Promise.{type_reply};
ghost use Rattle.tested_lean.specs.Once.{once_call};
ghost use Rattle.tested_lean.specs.Each.{Passed, EachPromised, EachAnswered, Within};

use heads::Once;
use promise::inside;
use refusals::Refusal;
use types::Type;

// The first of refusals 10 and 11 that stands where one node more is to be made: 11 does not.
fn node_room(h: &[u32]) -> Result<(), Refusal>
    requires { Within h.now }
    ensures { (ws ks : List ℕ) → first_broken (room_tests (store_in h.now ws ks) 1 0) ≡ told result }
{
    if heads::node_room(h) <= heads::nodes_made(h) {
        return Err(Refusal::NodesFull);
    }
    Ok(())
}

// The same for a type that is made once: one that is remembered needs no node.
fn once_room(h: &[u32], was: Option<Type>) -> Result<(), Refusal>
    requires { Within h.now }
    ensures { (ws ks : List ℕ) → first_broken (room_tests (store_in h.now ws ks) (nodes_for (remembered_means was)) 0) ≡ told result }
{
    match was {
        Some(_) => Ok(()),
        None => node_room(h),
    }
}

// "`new_var`": a type without a kind, and its span.
pub fn new_var(h: &mut [u32], ws: &mut [u32], span: u32) -> Result<Type, Refusal>
    requires { Passed h.old ws.old }
    ensures { EachPromised (λ e l. new_var_call e l span) (type_reply result) h.old ws.old h.new ws.new }
{
    node_room(h)?;
    Ok(make::push_unknown(h, ws, span, 0))
}

// A type that is made once: the error type, or the type of nothing, a Tuple without children.
pub fn once(h: &mut [u32], ws: &mut [u32], what: Once) -> Result<Type, Refusal>
    requires { Passed h.old ws.old }
    ensures { EachPromised (once_call what) (type_reply result) h.old ws.old h.new ws.new }
{
    once_room(h, heads::made(h, what))?;
    Ok(make::once(h, ws, what))
}

// "`find` follows parents, combining inversions by exclusive or."
pub fn find(h: &[u32], ws: &[u32], t: Type) -> Result<Type, Refusal>
    requires { Passed h.now ws.now }
    ensures { EachAnswered (λ e l. find_call e l (ty_of t.0)) (type_reply result) h.now ws.now }
{
    inside(h, t)?;
    let n = heads::nodes_made(h);
    Ok(roots::find(ws, n, t))
}

// "`find_mut` also points every node on the path straight at the root, keeping each node's meaning."
pub fn find_mut(h: &[u32], ws: &mut [u32], t: Type) -> Result<Type, Refusal>
    requires { Passed h.now ws.old }
    ensures { EachPromised (λ e l. find_mut_call e l (ty_of t.0)) (type_reply result) h.now ws.old h.now ws.new }
{
    inside(h, t)?;
    let n = heads::nodes_made(h);
    Ok(roots::find_mut(ws, n, t))
}

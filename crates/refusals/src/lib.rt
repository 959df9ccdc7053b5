#![tactic(auto)]
// Every refusal, and the tests behind them that look at no more than capacities, lengths and the number of nodes: opening (1), listed types (3) and room (10
// and 11). A test gives the first refusal that stands, if one does; `told` says what that is among scope's tests.
//
// Kept (5): how many nodes and how many children go beside each other, here and in what opens, exports and makes room: here they are capacities, there what is needed, and
// each is tested and written by itself. Places are computed of both in a names buffer alone, whose pair is `book::Room`; a store's as a struct would be made at each of C's
// calls, which lend two numbers, and taken apart again where each is used.
ghost use Rattle.std.specs.Prelude.{◌≡◌, List, [], ◌∷◌, ℕ, ◌+◌, ltb, length, Some, decimal};
ghost use Rattle.scope.specs.Base.{all};
ghost use Rattle.scope.specs.Types.{ty_of};
ghost use Rattle.scope.specs.Nodes.{Node};
ghost use Rattle.scope.specs.Sound.{in_store};
ghost use Rattle.scope.specs.Calls.{first_broken, open_test, room_tests};
ghost use Rattle.layout.specs.Words.{store_in};
ghost use Rattle.layout.specs.Meaning.{store_means};
ghost use Rattle.store.specs.Entries.{entry_types, types_in};
ghost use Rattle.refusals.specs.Codes.{number, told};
ghost use Rattle.refusals.specs.Opening.{enough};

use layout::{HEAD_WORDS, Header};
use scope::{MAX_CHILDREN, MAX_NODES};
use std::fmt;
use types::Type;

// "A refusal returns only its number": each by its name, with 01's words, in the order of their numbers.
#[derive(Clone, Copy, Debug, PartialEq, Eq, PartialOrd, Ord)]
pub enum Refusal {
    // "opening: capacity above the limit or buffers too short"
    Unopenable,
    // "chart or texts break a limit, sort, flag or range"
    BadChart,
    // "a type's node isn't in the store"
    Outside,
    // "a kind can't be made: bad code or name, over 255 children, object names not strictly ascending; over 255 listed types or parameters"
    Unmakeable,
    // "a definition is absent or of another sort"
    Undefined,
    // "an import with a parameter list reaches a Param with no entry"
    NoEntry,
    // "the answer's buffer is too short"
    Short,
    // "store unsound"
    Unsound,
    // "import's source unsound"
    SourceUnsound,
    // "nodes made plus those needed exceed the capacity"
    NodesFull,
    // "the same for children"
    ChildrenFull,
    // Of named states: "An unheld name, or one of a wrong length"
    Unheld,
    // "and a ninth"
    NoPlace,
}

// A refusal's number: they count from 1, and stand in their order.
impl From<Refusal> for u32 {
    ghost from_gives = { λ r n. n ≡ number r };

    fn from(r: Refusal) -> u32 {
        r as u32 + 1
    }
}

// It prints as its number.
impl fmt::Display for Refusal {
    ghost output = { λ r. Some (decimal (number r)) };

    fn fmt<W: fmt::Write>(&self, f: &mut fmt::Formatter<W>) -> fmt::Result {
        let n = u32::from(*self);
        write!(f, "{n}")
    }
}

// A type's node is one of n.
pub fn type_inside(t: Type, n: u32) -> bool
    ensures { (ns : List Node) → length ns ≡ n → result ≡ in_store ns (ty_of t.0) }
{
    t.idx().0 < n
}

// Each of the listed types, a word each, is one of n nodes.
pub fn types_inside(ts: &[u32], n: u32) -> bool
    ensures { (ns : List Node) → length ns ≡ n → result ≡ all (in_store ns) (types_in ts.now) }
{
    ts.iter().all(|&w| type_inside(Type(w), n))
}

// Each of the lent children is one of n nodes.
pub fn entries_inside(es: &[u32], n: u32) -> bool
    ensures { (ns : List Node) → length ns ≡ n → result ≡ all (in_store ns) (entry_types es.now) }
{
    (0..store::entry_count(es)).all(|i| type_inside(layout::child_at(es, i).ty, n))
}

// So many more than are made are over the room.
fn exceeds(made: u32, more: u32, room: u32) -> bool
    ensures { result ≡ ltb room (made + more) }
{
    u64::from(room) < u64::from(made) + u64::from(more)
}

// The first of refusals 10 and 11 that stands where so many nodes and children more are to be made in a store with this header.
pub fn room_by(x: Header, nodes: u32, children: u32) -> Result<(), Refusal>
    ensures { (ns : List Node) → length ns ≡ x.nodes → first_broken (room_tests (store_means x ns) nodes children) ≡ told result }
{
    if exceeds(x.nodes, nodes, x.node_room) {
        return Err(Refusal::NodesFull);
    }
    if exceeds(x.children, children, x.child_room) {
        return Err(Refusal::ChildrenFull);
    }
    Ok(())
}

// The same of a store's slices. It looks at the header alone.
pub fn room(h: &[u32], nodes: u32, children: u32) -> Result<(), Refusal>
    ensures { (ws ks : List ℕ) → first_broken (room_tests (store_in h.now ws ks) nodes children) ≡ told result }
{
    room_by(layout::read_header(h), nodes, children)
}

// The slices have the words that so many nodes and children need.
fn enough(h: &[u32], ws: &[u32], ks: &[u32], nodes: u32, children: u32) -> bool
    ensures { result ≡ enough nodes children h.now ws.now ks.now }
{
    HEAD_WORDS <= h.len()
        && layout::node_words(nodes) <= ws.len()
        && layout::child_words(children) <= ks.len()
}

// Refusal 1, where the slices are long enough or are not.
pub fn opening_by(nodes: u32, children: u32, long: bool) -> Result<(), Refusal>
    ensures { first_broken (open_test nodes children long ∷ []) ≡ told result }
{
    if MAX_NODES < nodes as usize || MAX_CHILDREN < children as usize || !long {
        return Err(Refusal::Unopenable);
    }
    Ok(())
}

// Refusal 1 of a store's slices.
pub fn opening(h: &[u32], ws: &[u32], ks: &[u32], nodes: u32, children: u32) -> Result<(), Refusal>
    ensures { first_broken (open_test nodes children (enough nodes children h.now ws.now ks.now) ∷ []) ≡ told result }
{
    opening_by(nodes, children, enough(h, ws, ks, nodes, children))
}

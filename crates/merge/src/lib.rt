#![tactic(auto)]
// Two roots become one: "The first root stays if its size is larger; on equal sizes it becomes the child." The node words change as scope's join, merge,
// bind and settle say of the nodes that they hold. Nothing here reads a child's words.
ghost use Rattle.std.specs.Prelude.{◌≡◌, ◌≤◌, length};
ghost use Rattle.scope.specs.Types.{ty_of};
ghost use Rattle.layout.specs.Words.{node_words};
ghost use Rattle.layout.specs.Meaning.{read_at};
ghost use Rattle.merge.specs.Meaning.{size_at, state_at, taken, Adds, Joined, Merged, Bound, Settled};
ghost use Rattle.merge.specs.Quick.{bare_within, rank_in, Resized, Sums, Sized, Tried, OneNil};

use layout::{CHILD_TAG, NODE_WORDS, TypeNode, TypeState, UNKNOWN_TAG};
use scope::NONE;
use types::{Type, TypeIdx, UnifyResult};

// What the node of a type has as its size, whether or not the type is inverted.
fn size_at(ws: &[u32], n: u32, t: Type) -> u32
    requires { node_words n ≤ length ws.now }
    ensures { result ≡ size_at ws.now n (ty_of t.0).idx }
{
    layout::size_of(layout::node_at(ws, n, t.idx()))
}

// Node i keeps its state and has another size: a root keeps all its words but the size's, and a child, which has no state of its own, becomes a root without a kind.
fn resize(ws: &mut [u32], n: u32, i: TypeIdx, size: u32)
    requires { node_words n ≤ length ws.old }
    ensures { Resized ws.old ws.new n i.0 size }
{
    if n <= i.0 {
        return;
    }
    let a = i.0 as usize * NODE_WORDS;
    let e = a + NODE_WORDS;
    let s = &mut ws[a..e];
    s[2] = size;
    if s[0] == CHILD_TAG {
        s[0] = UNKNOWN_TAG;
        s[1] = NONE;
    }
}

// The root w stays as it is but for its size, and l becomes its child.
// Kept (5): that the sizes of both add up to a number that fits is asked by all that merge, of words that each of them changes: a struct that keeps it would be made for one
// pair, and taken apart at its one use.
fn hang(ws: &mut [u32], n: u32, w: Type, l: Type, size: u32)
    requires { Sums ws.old n (ty_of w.0) (ty_of l.0) size }
    ensures { Joined ws.old ws.new n (ty_of w.0) (ty_of l.0) (state_at ws.old n (ty_of w.0).idx) }
{
    let inv = l.inv();
    let parent = w.invert_if(inv);
    resize(ws, n, w.idx(), size);
    layout::put_node(ws, n, l.idx(), TypeNode::Child(parent));
}

// The same, and it takes the kind of l, if l has one.
fn take(ws: &mut [u32], n: u32, w: Type, l: Type, size: u32)
    requires { Sums ws.old n (ty_of w.0) (ty_of l.0) size }
    ensures { Joined ws.old ws.new n (ty_of w.0) (ty_of l.0)
        (taken (ty_of w.0) (ty_of l.0) (state_at ws.old n (ty_of w.0).idx) (state_at ws.old n (ty_of l.0).idx)) }
{
    match layout::held_at(ws, n, l.idx()) {
        None => hang(ws, n, w, l, size),
        Some((i, kind)) => {
            let inv = l.inv();
            let parent = w.invert_if(inv);
            let state = TypeState::Known(parent.inv() ^ i, kind);
            layout::put_node(ws, n, w.idx(), TypeNode::Root { state, size });
            layout::put_node(ws, n, l.idx(), TypeNode::Child(parent));
        }
    }
}

// Here "they merge and keep the kind". "The staying root keeps its own span or failed mark." Where the other has no kind it keeps all its words but its size's.
pub fn bind(ws: &mut [u32], n: u32, a: Type, b: Type)
    requires { Adds ws.old n (ty_of a.0) (ty_of b.0) }
    ensures { Bound ws.old ws.new n (ty_of a.0) (ty_of b.0) }
{
    let sa = size_at(ws, n, a);
    let sb = size_at(ws, n, b);
    if sa <= sb {
        take(ws, n, b, a, sb + sa);
    } else if layout::held_at(ws, n, a.idx()).is_some() {
        hang(ws, n, a, b, sa + sb);
    } else {
        take(ws, n, a, b, sa + sb);
    }
}

// Two roots of known sizes merge, and the one that stays keeps its state.
fn unite(ws: &mut [u32], n: u32, a: Type, b: Type, sa: u32, sb: u32)
    requires { Sized ws.old n (ty_of a.0) (ty_of b.0) sa sb }
    ensures { Merged ws.old ws.new n (ty_of a.0) (ty_of b.0) (state_at ws.old n (ty_of a.0).idx) (state_at ws.old n (ty_of b.0).idx) }
{
    if sb < sa {
        hang(ws, n, a, b, sa + sb);
    } else {
        hang(ws, n, b, a, sb + sa);
    }
}

// The size of a node of the n, if it is a root without a kind.
fn bare_at(ws: &[u32], n: u32, i: TypeIdx) -> Option<u32>
    requires { node_words n ≤ length ws.now }
    ensures { result ≡ bare_within ws.now n i.0 }
{
    if n <= i.0 {
        return None;
    }
    match layout::node_at(ws, n, i) {
        TypeNode::Root { state, size } if state.lacks_kind() => Some(size),
        _ => None,
    }
}

// Two roots without kinds merge, and true; else nothing is changed.
pub fn quick(ws: &mut [u32], n: u32, a: Type, b: Type) -> bool
    requires { Adds ws.old n (ty_of a.0) (ty_of b.0) }
    ensures { Tried ws.old ws.new n (ty_of a.0) (ty_of b.0) result }
{
    let ia = a.idx();
    let ib = b.idx();
    if ia != ib
        && let Some(sa) = bare_at(ws, n, ia)
        && let Some(sb) = bare_at(ws, n, ib)
    {
        unite(ws, n, a, b, sa, sb);
        return true;
    }
    false
}

// How much there is of a node: a root without a kind, one without children, or any other.
#[derive(Clone, Copy)]
enum Rank {
    Bare,
    Lone,
    More,
}

fn rank_of(ws: &[u32], n: u32, t: Type) -> Rank
    requires { node_words n ≤ length ws.now }
    ensures { result ≡ rank_in (read_at ws.now n (ty_of t.0).idx) }
{
    match layout::node_at(ws, n, t.idx()) {
        TypeNode::Root { state, .. } if state.lacks_kind() => Rank::Bare,
        TypeNode::Root {
            state: TypeState::Known(_, kind),
            ..
        } if kind.count == 0 => Rank::Lone,
        _ => Rank::More,
    }
}

// The same of any two roots without children of which one has no kind: neither can occur in the other.
pub fn slight(ws: &mut [u32], n: u32, a: Type, b: Type) -> bool
    requires { Adds ws.old n (ty_of a.0) (ty_of b.0) }
    ensures { Tried ws.old ws.new n (ty_of a.0) (ty_of b.0) result }
{
    if quick(ws, n, a, b) {
        return true;
    }
    if a.idx() == b.idx() {
        return false;
    }
    match (rank_of(ws, n, a), rank_of(ws, n, b)) {
        (Rank::Bare, Rank::Lone) | (Rank::Lone, Rank::Bare) => {
            bind(ws, n, a, b);
            true
        }
        _ => false,
    }
}

// Two types of one nil, which is its own inverse.
pub fn one_nil(ws: &[u32], n: u32, a: Type, b: Type) -> bool
    requires { node_words n ≤ length ws.now }
    ensures { OneNil ws.now n (ty_of a.0) (ty_of b.0) result }
{
    let i = a.idx();
    i == b.idx() && roots::nil_at(ws, n, i)
}

// "Only Success merges."
pub fn settle(ws: &mut [u32], n: u32, a: Type, b: Type, r: UnifyResult) -> UnifyResult
    requires { Adds ws.old n (ty_of a.0) (ty_of b.0) }
    ensures { Settled ws.old ws.new n (ty_of a.0) (ty_of b.0) r result }
{
    if r == UnifyResult::Success {
        let sa = size_at(ws, n, a);
        let sb = size_at(ws, n, b);
        unite(ws, n, a, b, sa, sb);
    }
    r
}

#![tactic(auto)]
// A store in three lent slices of numbers: where each number lies, and how a node, a child and the header are read and written.
// Above this crate nobody opens a word but `heads`, `clean`, which tests words, and `merge`, which writes a node's first three; `make` and `keep` copy words as they lie, and `make`
// clears them. The others use these functions and the laws of proofs/.
mod encoding;

ghost use Rattle.std.specs.Prelude.{◌≡◌, ◌+◌, ◌*◌, ◌≤◌, length};
ghost use Rattle.layout.specs.Words.{NODE_WORDS, CHILD_WORDS, HEAD_WORDS, node_words, child_words, slot_at};
ghost use Rattle.layout.specs.Meaning.{cell_in, cell_kind, cell_words, read_at, put_at, lacks_kind, node_state, node_size, held_in};
ghost use Rattle.layout.specs.Meaning.{slot_means, put_slot, remembered_of, remembered_word, header_in, put_header};

use names::{NO_NAME, Name};
use scope::NONE;
use types::{Inverted, Type, TypeIdx};
use words::word;

pub const HEAD_WORDS: usize = 8;

pub const NODE_WORDS: usize = 12;

pub const CHILD_WORDS: usize = 4;

// The weight of the report count's upper half.
pub const HALF: u64 = 4_294_967_296;

// What a node is, in its first word.
// Kept (1): a tag is a lent word, which may be any number; `node_at` gives the enum.
pub const CHILD_TAG: u32 = 0;

pub const UNKNOWN_TAG: u32 = 1;

pub const FAILED_TAG: u32 = 2;

pub const KNOWN_TAG: u32 = 3;

// A kind: its code, its number, its self-dual flag, its Flex, its own name or zeros, and its children, which lie from `first` on.
#[derive(Clone, Copy)]
pub struct Kind {
    pub code: u32,
    pub number: u32,
    pub dual: bool,
    pub flex: u32,
    pub name: Name,
    pub first: u32,
    pub count: u32,
}

// The state of a type variable.
#[derive(Clone, Copy)]
pub enum TypeState {
    Known(Inverted, Kind),
    // Not yet inferred: the span at which an error would be issued.
    Unknown(u32),
    InferenceFailed,
}

impl TypeState {
    // A root of this state has no kind.
    pub fn lacks_kind(&self) -> bool
        ensures { result ≡ lacks_kind self.now }
    {
        matches!(*self, TypeState::Unknown(_) | TypeState::InferenceFailed)
    }
}

// A node in the union-find tree for the unification of type variables.
#[derive(Clone, Copy)]
pub enum TypeNode {
    // The size of the tree rooted at this node.
    Root { state: TypeState, size: u32 },
    Child(Type),
}

// The nodes' words, their children's, and how many nodes there are; all their words are there.
// Kept (2): no constructor: a literal names its two slices, which are of one type, and its fields need no equation.
// Kept (5): that parents can be followed (`Linked`) is no part of it: the tests of `sound` read nodes before that is known.
#[derive(Clone, Copy)]
pub struct Nodes<'a> {
    pub words: &'a [u32],
    pub kids: &'a [u32],
    pub made: u32,
    pub ghost room: { node_words made ≤ length words.now },
}

impl Nodes<'_> {
    // The node i; past them a root of no size.
    pub fn node(&self, i: TypeIdx) -> TypeNode
        ensures { result ≡ read_at self.now.words.now self.now.made i.0 }
    {
        node_at(self.words, self.made, i)
    }

    // The kind of node i.
    pub fn held(&self, i: TypeIdx) -> Option<(Inverted, Kind)>
        ensures { result ≡ held_in (read_at self.now.words.now self.now.made i.0) }
    {
        held_at(self.words, self.made, i)
    }

    // Child j of those that lie from `first` on.
    pub fn child(&self, first: u32, j: u32) -> Slot
        ensures { slot_means result ≡ slot_at self.now.kids.now (first + j) }
    {
        child_of(self.kids, first, j)
    }
}

// A node's twelve words.
#[derive(Clone, Copy)]
pub struct Cell {
    pub tag: u32,
    pub link: u32,
    pub size: u32,
    pub inv: u32,
    pub code: u32,
    pub number: u32,
    pub dual: u32,
    pub flex: u32,
    pub name: Name,
    pub count: u32,
}

// A child of a kind: its type, and its name or zeros.
#[derive(Clone, Copy)]
pub struct Slot {
    pub ty: Type,
    pub name: Name,
}

// What of a store is no node: the counts, the capacities, the remembered types and the report count.
#[derive(Clone, Copy)]
pub struct Header {
    pub nodes: u32,
    pub children: u32,
    pub node_room: u32,
    pub child_room: u32,
    pub error: Option<Type>,
    pub nil: Option<Type>,
    pub reports: u64,
}

// How many words n nodes take, and n children.
pub fn node_words(n: u32) -> usize
    ensures { result ≡ node_words n }
{
    n as usize * NODE_WORDS
}

pub fn child_words(n: u32) -> usize
    ensures { result ≡ child_words n }
{
    n as usize * CHILD_WORDS
}

// The kind that a Known node's words say; their link is the place of its first child.
pub fn kind_in(c: Cell) -> Kind
    ensures { result ≡ cell_kind c }
{
    Kind {
        code: c.code,
        number: c.number,
        dual: c.dual == 1,
        flex: c.flex,
        name: c.name,
        first: c.link,
        count: c.count,
    }
}

// The words of node i.
pub fn cell_at(ws: &[u32], i: TypeIdx) -> Cell
    requires { i.0 * NODE_WORDS + NODE_WORDS ≤ length ws.now }
    ensures { result ≡ cell_in (cell_words ws.now i.0) }
{
    let a = i.0 as usize * NODE_WORDS;
    let e = a + NODE_WORDS;
    let s = &ws[a..e];
    Cell {
        tag: s[0],
        link: s[1],
        size: s[2],
        inv: s[3],
        code: s[4],
        number: s[5],
        dual: s[6],
        flex: s[7],
        name: Name {
            text: s[8],
            start: s[9],
            len: s[10],
        },
        count: s[11],
    }
}

// The node i of n; past them a root of no size.
// Kept (5): `Nodes` keeps that the words are there; here and in the other functions over words and a number most callers write nodes, or have no children's words, and the
// few that have `Nodes` lend what it has. A struct of these two would be made anew at each read between two writes, as `merge`, `heed`, `make` and `force` have them, and each
// clause would name a field more.
pub fn node_at(ws: &[u32], n: u32, i: TypeIdx) -> TypeNode
    requires { node_words n ≤ length ws.now }
    ensures { result ≡ read_at ws.now n i.0 }
{
    if n <= i.0 {
        return TypeNode::Root {
            state: TypeState::Unknown(NONE),
            size: 0,
        };
    }
    let c = cell_at(ws, i);
    let state = match c.tag {
        CHILD_TAG => return TypeNode::Child(Type(c.link)),
        UNKNOWN_TAG => TypeState::Unknown(c.link),
        FAILED_TAG => TypeState::InferenceFailed,
        _ => TypeState::Known(Inverted(c.inv == 1), kind_in(c)),
    };
    TypeNode::Root {
        state,
        size: c.size,
    }
}

// A child has no state of its own, and no size.
pub fn state_of(node: TypeNode) -> TypeState
    ensures { result ≡ node_state node }
{
    match node {
        TypeNode::Root { state, .. } => state,
        TypeNode::Child(_) => TypeState::Unknown(NONE),
    }
}

pub fn size_of(node: TypeNode) -> u32
    ensures { result ≡ node_size node }
{
    match node {
        TypeNode::Root { size, .. } => size,
        TypeNode::Child(_) => 0,
    }
}

// The kind of node i of n.
pub fn held_at(ws: &[u32], n: u32, i: TypeIdx) -> Option<(Inverted, Kind)>
    requires { node_words n ≤ length ws.now }
    ensures { result ≡ held_in (read_at ws.now n i.0) }
{
    if n <= i.0 {
        return None;
    }
    let c = cell_at(ws, i);
    if c.tag <= FAILED_TAG {
        return None;
    }
    Some((Inverted(c.inv == 1), kind_in(c)))
}

// Another node i of n; past them nothing changes.
pub fn put_node(ws: &mut [u32], n: u32, i: TypeIdx, node: TypeNode)
    requires { node_words n ≤ length ws.old }
    ensures { ws.new ≡ put_at ws.old n i.0 node }
{
    if n <= i.0 {
        return;
    }
    let c = encoding::cell_of(node);
    let a = i.0 as usize * NODE_WORDS;
    let e = a + NODE_WORDS;
    let s = &mut ws[a..e];
    s[0] = c.tag;
    s[1] = c.link;
    s[2] = c.size;
    s[3] = c.inv;
    s[4] = c.code;
    s[5] = c.number;
    s[6] = c.dual;
    s[7] = c.flex;
    s[8] = c.name.text;
    s[9] = c.name.start;
    s[10] = c.name.len;
    s[11] = c.count;
}

// The child i, where all its words are.
fn child_there(ks: &[u32], i: usize) -> Slot
    requires { i * CHILD_WORDS + CHILD_WORDS ≤ length ks.now }
    ensures { slot_means result ≡ slot_at ks.now i }
{
    let a = i * CHILD_WORDS;
    let e = a + CHILD_WORDS;
    let s = &ks[a..e];
    Slot {
        ty: Type(s[0]),
        name: Name {
            text: s[1],
            start: s[2],
            len: s[3],
        },
    }
}

// The child i; past the end zeros, so that one which begins before it lacks its length at least.
pub fn child_at(ks: &[u32], i: usize) -> Slot
    ensures { slot_means result ≡ slot_at ks.now i }
{
    let whole = ks.len() / CHILD_WORDS;
    if i < whole {
        return child_there(ks, i);
    }
    if whole < i {
        return Slot {
            ty: Type(0),
            name: NO_NAME,
        };
    }
    let a = i * CHILD_WORDS;
    let s = &ks[a..];
    Slot {
        ty: Type(word(s, 0)),
        name: Name {
            text: word(s, 1),
            start: word(s, 2),
            len: 0,
        },
    }
}

// Child j of those that lie from `first` on.
pub fn child_of(ks: &[u32], first: u32, j: u32) -> Slot
    ensures { slot_means result ≡ slot_at ks.now (first + j) }
{
    child_at(ks, first as usize + j as usize)
}

pub fn put_child(ks: &mut [u32], i: usize, c: Slot)
    requires { i * CHILD_WORDS + CHILD_WORDS ≤ length ks.old }
    ensures { ks.new ≡ put_slot ks.old i c }
{
    let a = i * CHILD_WORDS;
    let e = a + CHILD_WORDS;
    let s = &mut ks[a..e];
    s[0] = c.ty.0;
    s[1] = c.name.text;
    s[2] = c.name.start;
    s[3] = c.name.len;
}

pub fn remembered_of(w: u32) -> Option<Type>
    ensures { result ≡ remembered_of w }
{
    (w != NONE).then_some(Type(w))
}

fn remembered_word(t: Option<Type>) -> u32
    ensures { result ≡ remembered_word t }
{
    t.map_or(NONE, |t| t.0)
}

pub fn read_header(h: &[u32]) -> Header
    ensures { result ≡ header_in h.now }
{
    let low = u64::from(word(h, 6));
    let high = u64::from(word(h, 7));
    Header {
        nodes: word(h, 0),
        children: word(h, 1),
        node_room: word(h, 2),
        child_room: word(h, 3),
        error: remembered_of(word(h, 4)),
        nil: remembered_of(word(h, 5)),
        reports: low + high * HALF,
    }
}

pub fn write_header(h: &mut [u32], x: Header)
    requires { HEAD_WORDS ≤ length h.old }
    ensures { h.new ≡ put_header h.old x }
{
    h[..HEAD_WORDS].copy_from_slice(&[
        x.nodes,
        x.children,
        x.node_room,
        x.child_room,
        remembered_word(x.error),
        remembered_word(x.nil),
        (x.reports % HALF) as u32,
        (x.reports / HALF) as u32,
    ]);
}

#![tactic(auto)]
// The header's words one by one, and a new root's few words, for functions that want no more of them. They ask for a header's eight words, and test
// no length.
//
// Kept (5): that a header has its words is asked by each that takes no copy of it: a header is lent as a slice of any length in every call, as `promise` says, and so a
// struct or an array would be made of the slice before each of these reads, which are one index each.
ghost use Rattle.std.specs.Prelude.{◌≡◌, ◌+◌, ◌*◌, ◌≤◌, length};
ghost use Rattle.layout.specs.Words.{NODE_WORDS, HEAD_WORDS, nodes_made, children_made, node_room, child_room};
ghost use Rattle.layout.specs.Meaning.{cell_words, put_at, header_in};
ghost use Rattle.heads.specs.Heads.{no_words, put_counts, remembered_by};
ghost use Rattle.layout.specs.declared.TypeNode.TheVariants.{Root};
ghost use Rattle.layout.specs.declared.TypeState.TheVariants.{Unknown};

use layout::{NODE_WORDS, UNKNOWN_TAG, remembered_of};
use types::{Type, TypeIdx};

// The types that a store makes once, and remembers.
#[derive(Clone, Copy)]
pub enum Once {
    Error,
    // The type of nothing.
    Nil,
}

// Kept (2): one function of the word's number would say `heads::word::<0>(h)` where callers say `heads::nodes_made(h)`; each here is an index.
pub fn nodes_made(h: &[u32]) -> u32
    requires { HEAD_WORDS ≤ length h.now }
    ensures { result ≡ nodes_made h.now }
{
    h[0]
}

pub fn children_made(h: &[u32]) -> u32
    requires { HEAD_WORDS ≤ length h.now }
    ensures { result ≡ children_made h.now }
{
    h[1]
}

pub fn node_room(h: &[u32]) -> u32
    requires { HEAD_WORDS ≤ length h.now }
    ensures { result ≡ node_room h.now }
{
    h[2]
}

pub fn child_room(h: &[u32]) -> u32
    requires { HEAD_WORDS ≤ length h.now }
    ensures { result ≡ child_room h.now }
{
    h[3]
}

// The type that is remembered as such.
pub fn made(h: &[u32], what: Once) -> Option<Type>
    requires { HEAD_WORDS ≤ length h.now }
    ensures { result ≡ remembered_by what (header_in h.now) }
{
    remembered_of(match what {
        Once::Error => h[4],
        Once::Nil => h[5],
    })
}

// Other counts; every other word stays.
pub fn put_counts(h: &mut [u32], nodes: u32, children: u32)
    requires { HEAD_WORDS ≤ length h.old }
    ensures { h.new ≡ put_counts h.old nodes children }
{
    h[0] = nodes;
    h[1] = children;
}

// An Unknown root at node i, behind the others, in twelve words that are 0: three of them say it.
pub fn put_unknown(ws: &mut [u32], i: TypeIdx, span: u32)
    requires i_in_bounds { i.0 * NODE_WORDS + NODE_WORDS ≤ length ws.old }
    requires i_value { cell_words ws.old i.0 ≡ no_words }
    ensures { ws.new ≡ put_at ws.old (i.0 + 1) i.0 (Root (Unknown span) 1) }
{
    let a = i.0 as usize * NODE_WORDS;
    let e = a + NODE_WORDS;
    let s = &mut ws[a..e];
    s[0] = UNKNOWN_TAG;
    s[1] = span;
    s[2] = 1;
}

#![tactic(auto)]
// The first words of a lent memory: a mark for each node. It is any slice, whatever it holds; past its end every word is 0. Words 0 and 1 are the caller's, the third says
// whether there are marks, then come the marks, a bit for each node, and from HEAD on the words are the caller's again. What a mark means is the caller's too: here is
// said only which nodes have one.
ghost use Rattle.std.specs.Prelude.{◌≡◌, ◌/◌, ◌<◌, get_or};
ghost use Rattle.scope.specs.Limits.{«MAX_NODES»};
ghost use Rattle.marks.specs.Marks.{BITS, MARKED, Said, Opened, Marked, Tells, MarkedNew};

use scope::MAX_NODES;
use types::TypeIdx;
use words::{put, word};

// The bits of a word.
const BITS: usize = 32;

// Where it is said whether there are marks, and where they begin.
pub const MARKED: usize = 2;

const MARKS: usize = 3;

// Where they end.
pub const HEAD: usize = MARKS + MAX_NODES / BITS;

// What a byte beside a walk says of a node that has a mark.
// Kept (1): the walk is `find_related`'s, whose bytes C lends and reads: "1 is written for each root added".
const OLD: u8 = 2;

// Has a node a mark?
pub fn knows(m: &[u32], i: TypeIdx) -> bool
    requires { i.0 < «MAX_NODES» }
    ensures { Said m.now i.0 result }
{
    let k = i.0 as usize;
    word(m, MARKED) == 1 && (word(m, MARKS + k / BITS) >> (k % BITS)) % 2 == 1
}

// There are marks from here on: none, where there were none.
fn open_marks(m: &mut [u32])
    ensures { Opened m.old m.new }
{
    if word(m, MARKED) == 1 {
        return;
    }
    let n = m.len();
    m[MARKS.min(n)..HEAD.min(n)].fill(0);
    put(m, MARKED, 1);
}

// A node gets a mark.
pub fn know(m: &mut [u32], i: TypeIdx)
    requires { i.0 < «MAX_NODES» }
    ensures { Marked m.old m.new i.0 }
{
    open_marks(m);
    let k = i.0 as usize;
    let p = MARKS + k / BITS;
    put(m, p, word(m, p) | (1u32 << (k % BITS)));
}

// The marks of the nodes of one word, from the first of them on.
// Kept (3): the bytes are written by index: after `iter_mut` or `chunks_mut` a proof knows the part's length and not its elements (NOT_COVERED.md of the kit).
fn tell_word(m: &[u32], p: usize, found: &mut [u8])
    requires { (get_or m.now MARKED 0 ≡ 1) × (p < «MAX_NODES» / BITS) }
    ensures { Tells m.now found.old found.new }
{
    let w = word(m, MARKS + p);
    if w == 0 {
        return;
    }
    for k in 0..BITS {
        let i = p * BITS + k;
        if i < found.len() && (w >> k) % 2 == 1 {
            found[i] = OLD;
        }
    }
}

// Beside a walk that writes 1: a byte for each node, OLD where it has a mark.
pub fn tell(m: &[u32], found: &mut [u8])
    ensures { Tells m.now found.old found.new }
{
    if word(m, MARKED) != 1 {
        return;
    }
    for p in 0..MAX_NODES / BITS {
        tell_word(m, p, found);
    }
}

// Each node that such a walk wrote 1 for gets a mark.
pub fn know_new(m: &mut [u32], found: &[u8])
    ensures { MarkedNew m.old m.new found.now }
{
    let n = found.len().min(MAX_NODES);
    for (k, byte) in found[..n].iter().enumerate() {
        if *byte == 1 {
            know(m, TypeIdx(k as u32));
        }
    }
}

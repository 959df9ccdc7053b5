#![tactic(auto)]
// A lent memory of pairs of types and their answers. It is any slice, whatever it holds. The first word is the clock, the second says how many visits are left
// before anything is remembered, then come the marks of nodes, and then the entries, four words each: a pair, the clock when it was noted, and its answer. An entry
// is believed while the clock is what it was then; marks stay. What a pair and an answer mean is the caller's: here is said only which entries are believed.
ghost use Rattle.std.specs.Prelude.{◌≡◌, ◌<◌, ◌≤◌, eqb, length};
ghost use Rattle.scope.specs.Limits.{«MAX_NODES»};
ghost use Rattle.scope.specs.Types.{ty_of};
ghost use Rattle.recall.specs.Memory.{HEAD, clock_of, Tidy, Cleared, Begun, Fewer, Forgot, Noted, WalkNoted, words_for};
ghost use Rattle.recall.specs.Places.{code_of, slot_of, Placed, Answered, Told};

use marks::MARKED;
use types::{Type, UnifyResult};
use words::{put, word};

// The words before the entries, and the words of an entry.
pub const HEAD: usize = marks::HEAD;

pub const ENTRY: usize = 4;

// Where the clock stays: from here on nothing is believed.
pub const LAST: u32 = 4_294_967_295;

// So many visits are made before anything is remembered, that ordinary calls pay nothing.
pub const VISITS: u32 = 4096;

// A walk that fails counts as so many: the same few, asked again and again, are soon remembered.
pub const WALK: u32 = 64;

pub fn clock(m: &[u32]) -> u32
    ensures { result ≡ clock_of m.now }
{
    word(m, 0)
}

// Nothing is remembered yet, whatever the memory held.
pub fn begin(m: &mut [u32])
    ensures { Begun m.new }
{
    put(m, 0, 0);
    put(m, 1, VISITS);
    put(m, MARKED, 0);
}

// Every word from the entries on becomes 0.
fn clear(m: &mut [u32])
    requires { HEAD ≤ length m.old }
    ensures { Cleared m.old m.new }
{
    m[HEAD..].fill(0);
}

// So many visits more. After the last that is waited for the entries are cleared and the clock starts, if there is room for an entry.
// Kept (5): that a memory is tidy is asked by four here and by three of `heed`. Tried as a struct that keeps it, with these as methods, in the crates that lend a memory,
// and proved; but nobody says of a struct's part that it is the same slice and as long, as `&mut [u32]` does, so that some twenty contracts would, and the smallest unifies took 1
// to 3 ns more.
pub fn visited(m: &mut [u32], more: u32)
    requires { Tidy m.old }
    ensures { Fewer m.old m.new }
{
    if m.len() < HEAD + ENTRY || word(m, 0) != 0 {
        return;
    }
    let left = word(m, 1);
    if left >= more {
        put(m, 1, left - more);
        return;
    }
    clear(m);
    put(m, 0, 1);
}

// The nodes change: nothing is believed any more.
pub fn changed(m: &mut [u32])
    requires { Tidy m.old }
    ensures { Forgot m.old m.new }
{
    let c = word(m, 0);
    if c != 0 && c != LAST {
        put(m, 0, c + 1);
    }
}

// A number for each type of n nodes, below 2n.
fn code(t: Type) -> usize
    ensures { result ≡ code_of (ty_of t.0) }
{
    2 * t.idx().0 as usize + usize::from(t.inv().0)
}

// A pair's entry: where there are as many entries as pairs, each has its own.
fn slot(count: usize, n: u32, a: Type, b: Type) -> usize
    requires { (0 < count) × (n ≤ «MAX_NODES») }
    ensures { result ≡ slot_of count n (ty_of a.0) (ty_of b.0) }
{
    let row = 2 * n as usize;
    (code(a) * row + code(b)) % count
}

// Kept (5): a pair goes beside how many nodes there are, which is within the limit, in five functions here. `heed` has the three as parameters, and `unify_enter` the pair, with the
// number in what is fixed: a struct of them would be made at each call of one of these, to be taken apart there.
fn spot_of(m: &[u32], n: u32, a: Type, b: Type) -> Option<usize>
    requires { n ≤ «MAX_NODES» }
    ensures { Placed m.now n (ty_of a.0) (ty_of b.0) result }
{
    let c = word(m, 0);
    if c == 0 || c == LAST || m.len() < HEAD + ENTRY {
        return None;
    }
    let count = (m.len() - HEAD) / ENTRY;
    Some(HEAD + ENTRY * slot(count, n, a, b))
}

// The answer in a word.
// Kept (4): no `TryFrom<u32>` for UnifyResult: Success is 0 there, and so is a cleared word. Only a Failure and an Indeterminate are believed.
fn answer_in(x: u32) -> Option<UnifyResult>
    ensures { Answered x result }
{
    match x {
        1 => Some(UnifyResult::Failure),
        2 => Some(UnifyResult::Indeterminate),
        _ => None,
    }
}

// Does a word hold a type? Its inversion counts too.
fn holds(x: u32, t: Type) -> bool
    ensures { result ≡ eqb x t.0 }
{
    Type(x) == t
}

// What is believed of a pair.
pub fn look(m: &[u32], n: u32, a: Type, b: Type) -> Option<UnifyResult>
    requires { n ≤ «MAX_NODES» }
    ensures { Told m.now a.0 b.0 result }
{
    let p = spot_of(m, n, a, b)?;
    if holds(word(m, p), a) && holds(word(m, p + 1), b) && word(m, p + 2) == word(m, 0) {
        answer_in(word(m, p + 3))
    } else {
        None
    }
}

// A pair's answer is remembered, if the clock is what it was when its visit began.
pub fn note(m: &mut [u32], n: u32, began: u32, a: Type, b: Type, r: UnifyResult)
    requires { (n ≤ «MAX_NODES») × Tidy m.old }
    ensures { Noted m.old m.new began a.0 b.0 r }
{
    if word(m, 0) != began {
        return;
    }
    let Some(p) = spot_of(m, n, a, b) else {
        return;
    };
    put(m, p, a.0);
    put(m, p + 1, b.0);
    put(m, p + 2, began);
    put(m, p + 3, u32::from(r));
}

// What a walk answered of a pair: a Failure is noted.
pub fn walked(m: &mut [u32], n: u32, a: Type, b: Type, r: UnifyResult)
    requires { (n ≤ «MAX_NODES») × Tidy m.old }
    ensures { WalkNoted m.old m.new a.0 b.0 r }
{
    if r == UnifyResult::Failure {
        visited(m, WALK);
        note(m, n, clock(m), a, b, r);
    }
}

// So many words make every pair of n nodes rememberable: an entry for each pair of types.
pub fn words_for(n: u32) -> usize
    requires { n ≤ «MAX_NODES» }
    ensures { result ≡ words_for n }
{
    let row = 2 * n as usize;
    HEAD + ENTRY * (row * row)
}

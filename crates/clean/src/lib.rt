#![tactic(auto)]
// The words' part of refusal 8: whether three slices, of any lengths, hold a store at all. Here "a field outside its values" and "unused numbers not zero"
// are found, and slices that are too short; whether the store is sound is not asked.
//
// The slices are tested at once, their nodes one by one. A node's run of children is read whole: at most the children made, 16,384 where the capacities
// are within their limits. Soundness allows a kind 255 children, but nothing here says so: who tests many nodes tests widths first.
ghost use Rattle.std.specs.Prelude.{◌≡◌, ◌+◌, ◌*◌, ◌≤◌, length};
ghost use Rattle.scope.specs.Sound.{zeros, names_clean};
ghost use Rattle.kinds.specs.Rows.{names_number};
ghost use Rattle.layout.specs.Words.{NODE_WORDS, KNOWN_TAG, long_enough, unused_zero, node_clean};
ghost use Rattle.layout.specs.Meaning.{kind_cell, named_of, Lies};
ghost use Rattle.clean.specs.Parts.{room_clean, name_clean_if, slots_clean_if, plain_clean, known_clean};

use kinds::Names;
use layout::{
    CHILD_TAG, Cell, FAILED_TAG, HEAD_WORDS, KNOWN_TAG, Kind, NODE_WORDS, UNKNOWN_TAG, child_words,
    node_words, read_header,
};
use names::{NO_NAME, Name};
use types::TypeIdx;

// A node's words from here on are its kind's.
const KIND_WORDS: usize = 3;

// The slices are as long as the capacities need.
fn long_enough(h: &[u32], ws: &[u32], ks: &[u32]) -> bool
    ensures { result ≡ long_enough h.now ws.now ks.now }
{
    let x = read_header(h);
    HEAD_WORDS <= h.len()
        && x.nodes <= x.node_room
        && x.children <= x.child_room
        && node_words(x.node_room) <= ws.len()
        && child_words(x.child_room) <= ks.len()
}

// All words are zero. Each is looked at, whatever the others are, so that several can be at once: `all`, which ends at the first that is not, takes four times as long.
fn all_zero(s: &[u32]) -> bool
    ensures { result ≡ zeros s.now }
{
    s.iter().fold(true, |zero, &word| zero & (word == 0))
}

// The slots from the counts to the capacities.
fn unused_zero(h: &[u32], ws: &[u32], ks: &[u32]) -> bool
    requires { Lies h.now ws.now ks.now }
    ensures { result ≡ unused_zero h.now ws.now ks.now }
{
    let x = read_header(h);
    all_zero(&ws[node_words(x.nodes)..node_words(x.node_room)])
        && all_zero(&ks[child_words(x.children)..child_words(x.child_room)])
}

// No slice is too short, and no unused slot is not zero.
pub fn room_clean(h: &[u32], ws: &[u32], ks: &[u32]) -> bool
    ensures { result ≡ room_clean h.now ws.now ks.now }
{
    long_enough(h, ws, ks) && unused_zero(h, ws, ks)
}

// A name's words: a name where there may be one, or zeros.
pub fn name_clean(may: bool, name: Name) -> bool
    ensures { result ≡ name_clean_if may name }
{
    if name.len == 0 { name == NO_NAME } else { may }
}

// The names of the children a to e.
fn children_clean(may: bool, ks: &[u32], a: usize, e: usize) -> bool
    ensures { result ≡ slots_clean_if may ks.now a e }
{
    (a..e).all(|i| name_clean(may, layout::child_at(ks, i).name))
}

// How many of n children, from the first on, may have a name; a Closure's return has none.
fn named_children(names: Names, n: usize) -> usize
    ensures { result ≡ named_of (names_number names) n }
{
    match names {
        Names::No | Names::Own => 0,
        Names::OfChildren => n,
        Names::OfParameters => n.saturating_sub(1),
    }
}

// The kind's own name and those of its children in ks, a store's or a list that is lent: names that its row lacks are zeros.
pub fn names_clean(ks: &[u32], k: Kind) -> bool
    ensures { result ≡ names_clean (kind_cell ks.now k) }
{
    let names = kinds::row_of(k.code).names;
    let first = k.first as usize;
    let n = k.count as usize;
    let named = first + named_children(names, n);
    name_clean(names == Names::Own, k.name)
        && children_clean(true, ks, first, named)
        && children_clean(false, ks, named, first + n)
}

// A Known node, with c children made.
fn known_clean(ks: &[u32], c: u32, x: Cell) -> bool
    requires { x.tag ≡ KNOWN_TAG }
    ensures { result ≡ known_clean ks.now c x }
{
    u64::from(x.link) + u64::from(x.count) <= u64::from(c)
        && x.inv <= 1
        && x.dual <= 1
        && names_clean(ks, layout::kind_in(x))
}

// The first three words of any other node.
fn plain_clean(x: Cell) -> bool
    ensures { result ≡ plain_clean x }
{
    match x.tag {
        CHILD_TAG => x.size == 0,
        UNKNOWN_TAG => true,
        FAILED_TAG => x.link == 0,
        _ => false,
    }
}

pub fn node_clean(ws: &[u32], ks: &[u32], c: u32, i: TypeIdx) -> bool
    requires { i.0 * NODE_WORDS + NODE_WORDS ≤ length ws.now }
    ensures { result ≡ node_clean ws.now ks.now c i.0 }
{
    let a = i.0 as usize * NODE_WORDS;
    let e = a + NODE_WORDS;
    let s = &ws[a..e];
    let x = layout::cell_at(ws, i);
    if x.tag == KNOWN_TAG {
        known_clean(ks, c, x)
    } else {
        plain_clean(x) && all_zero(&s[KIND_WORDS..NODE_WORDS])
    }
}

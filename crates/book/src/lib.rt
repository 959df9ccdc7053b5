#![tactic(auto)]
// A names buffer in one lent slice: where its places lie, how a place's parts and its name are read, and how a name is written and taken away. A place is
// read and written as a slice of its own, `ps`, its words and no others. Nothing here looks at a held store: that is what is above.
//
// Kept (5): the buffer or a place goes beside its `Room`: this crate and `book_sound` read it and `states` writes it, so a struct with both would be two, and one that kept
// that the buffer is clean (`book_clean`) could not be lent to what writes a word of it.
ghost use Rattle.std.specs.Prelude.{◌≡◌, true, ◌≤◌, ◌<◌, length, set};
ghost use Rattle.scope.specs.Limits.{MAX_STATES};
ghost use Rattle.scope.specs.States.{under, is_free, place_where};
ghost use Rattle.book.specs.Words.{nodes_from, kids_from, place_words, book_words, place_from, place_at};
ghost use Rattle.book.specs.Words.{name_length_in, name_bytes_in, head_in, nodes_in, kids_in, places_in, book_clean};
ghost use Rattle.book.specs.Places.{room_in, PlaceLies, NameLies, held_under, Nameable, put_name, if_place};

use layout::{HEAD_WORDS, child_words, node_words};
use scope::{MAX_STATE_NAME, MAX_STATES};
use words::word;

// The two capacities.
pub const BOOK_HEAD: usize = 2;

// A name's length and its bytes, a word each.
pub const NAME_WORDS: usize = MAX_STATE_NAME + 1;

// Where a place's nodes begin, behind its name and its head.
pub const NODES_FROM: usize = NAME_WORDS + HEAD_WORDS;

// The capacities that a names buffer was made for.
#[derive(Clone, Copy)]
pub struct Room {
    pub nodes: u32,
    pub children: u32,
}

impl Room {
    // Where a place's children begin.
    pub fn kids_from(self) -> usize
        ensures { result ≡ kids_from self.nodes }
    {
        NODES_FROM + node_words(self.nodes)
    }

    pub fn place_words(self) -> usize
        ensures { result ≡ place_words self.nodes self.children }
    {
        self.kids_from() + child_words(self.children)
    }

    // How long a names buffer must be.
    pub fn book_words(self) -> usize
        ensures { result ≡ book_words self.nodes self.children }
    {
        BOOK_HEAD + MAX_STATES * self.place_words()
    }

    // Where place i begins, and place i - 1 ends.
    pub fn place_from(self, i: usize) -> usize
        requires { i ≤ MAX_STATES }
        ensures { result ≡ place_from self.nodes self.children i }
    {
        BOOK_HEAD + i * self.place_words()
    }
}

pub fn room_of(bs: &[u32]) -> Room
    ensures { result ≡ room_in bs.now }
{
    Room {
        nodes: word(bs, 0),
        children: word(bs, 1),
    }
}

// The words of place i.
pub fn place(bs: &[u32], room: Room, i: usize) -> &[u32]
    requires { PlaceLies bs.now room.nodes room.children i }
    ensures { result.now ≡ place_at bs.now room.nodes room.children i }
{
    let a = room.place_from(i);
    let e = room.place_from(i + 1);
    &bs[a..e]
}

// A place's parts: its head, its nodes, its children.
pub fn head_of(ps: &[u32]) -> &[u32]
    requires { nodes_from ≤ length ps.now }
    ensures { result.now ≡ head_in ps.now }
{
    &ps[NAME_WORDS..NODES_FROM]
}

pub fn nodes_of(ps: &[u32], room: Room) -> &[u32]
    requires { kids_from room.nodes ≤ length ps.now }
    ensures { result.now ≡ nodes_in room.nodes ps.now }
{
    let e = room.kids_from();
    &ps[NODES_FROM..e]
}

pub fn kids_of(ps: &[u32], room: Room) -> &[u32]
    requires { place_words room.nodes room.children ≤ length ps.now }
    ensures { result.now ≡ kids_in room.nodes room.children ps.now }
{
    let a = room.kids_from();
    let e = room.place_words();
    &ps[a..e]
}

// 0 is a free place's.
pub fn name_length(ps: &[u32]) -> u32
    ensures { result ≡ name_length_in ps.now }
{
    word(ps, 0)
}

// Whether a place is held under exactly these bytes.
pub fn same_name(ps: &[u32], name: &[u8]) -> bool
    requires { NameLies ps.now }
    ensures { result ≡ held_under name.now ps.now }
{
    let length = name_length(ps) as usize;
    length != 0
        && length == name.len()
        && ps[1..length + 1]
            .iter()
            .zip(name)
            .all(|(&word, &b)| word == u32::from(b))
}

// Whether a place is held under the name of another; a free one has none.
pub fn same_names<'a>(ps: &'a [u32], other: &'a [u32]) -> bool
    requires { NameLies ps.now × NameLies other.now }
    ensures { result ≡ held_under (name_bytes_in other.now) ps.now }
{
    let length = name_length(ps);
    let e = length as usize + 1;
    length != 0 && length == name_length(other) && ps[1..e] == other[1..e]
}

// A name in words: its length, its bytes, and zeros behind them.
pub fn put_name(ps: &mut [u32], name: &[u8])
    requires { Nameable ps.old name.now }
    ensures { ps.new ≡ put_name ps.old name.now }
{
    ps[0] = name.len() as u32;
    ps[1..NAME_WORDS].fill(0);
    // Kept (3): the words are written by index, as in `make::new_vars`: after `iter_mut` a proof knows the length of `ps` and not its elements (NOT_COVERED.md of the kit).
    for (i, &b) in name.iter().enumerate() {
        ps[i + 1] = u32::from(b);
    }
}

// Its place is free then.
pub fn free(ps: &mut [u32])
    requires { 0 < length ps.old }
    ensures { ps.new ≡ set ps.old 0 0 }
{
    ps[0] = 0;
}

// The place that is held under a name.
pub fn find_name(bs: &[u32], name: &[u8]) -> Option<usize>
    requires { book_clean bs.now ≡ true }
    ensures { result ≡ if_place (place_where (under name.now) (places_in bs.now)) }
{
    let room = room_of(bs);
    (0..MAX_STATES).find(|&i| same_name(place(bs, room, i), name))
}

// The first free place.
pub fn find_free(bs: &[u32]) -> Option<usize>
    requires { book_clean bs.now ≡ true }
    ensures { result ≡ if_place (place_where is_free (places_in bs.now)) }
{
    let room = room_of(bs);
    (0..MAX_STATES).find(|&i| name_length(place(bs, room, i)) == 0)
}

#![tactic(auto)]
// States held under names, by their places in a names buffer: the present state is written to a place, put back from one, a place is freed, and so are all.
// What each does is what scope's definitions say of the store and of the book that the buffer holds. None tests: what it asks is in its `requires`.
// Of a state the used words are copied, once each way.
ghost use Rattle.std.specs.Prelude.{◌≡◌, ◌≤◌, length};
ghost use Rattle.std.proofs.Math.Option.{none};
ghost use Rattle.scope.specs.States.{blank, keep_reports};
ghost use Rattle.layout.specs.Words.{store_in};
ghost use Rattle.store.specs.Holds.{Became};
ghost use Rattle.scope.specs.Limits.{MAX_STATES};
ghost use Rattle.book.specs.Words.{book_words, book_in, BookBecame};
ghost use Rattle.book.specs.Places.{PlaceLies};
ghost use Rattle.states.specs.Ready.{holding, with_place, store_at, NameReady, ReturnReady, HoldReady, HeldPlace};
ghost use Rattle.states.specs.Free.{freed_at, FreeTo, DropReady, ResetReady, ResetLeft};

use book::{NAME_WORDS, NODES_FROM, Room};
use scope::MAX_STATES;

// A state in the words of a place, under a name.
fn hold(h: &[u32], ws: &[u32], ks: &[u32], ps: &mut [u32], room: Room, name: &[u8])
    requires { HoldReady h.now ws.now ks.now ps.old room.nodes room.children name.now }
    ensures { HeldPlace ps.new room.nodes room.children name.now (store_in h.now ws.now ks.now) }
{
    let x = layout::read_header(h);
    let a = room.kids_from();
    let e = room.place_words();
    book::put_name(ps, name);
    keep::keep_head(h, &mut ps[NAME_WORDS..NODES_FROM]);
    keep::copy_words(ws, &mut ps[NODES_FROM..a], layout::node_words(x.nodes));
    keep::copy_words(ks, &mut ps[a..e], layout::child_words(x.children));
}

// "Let a planner name the present state", at place i.
pub fn name_state(h: &[u32], ws: &[u32], ks: &[u32], bs: &mut [u32], i: usize, name: &[u8])
    requires { NameReady h.now ws.now ks.now bs.old i name.now }
    ensures { BookBecame bs.old bs.new
        (with_place (book_in bs.old) i (holding name.now (store_in h.now ws.now ks.now))) }
{
    let room = book::room_of(bs);
    let a = room.place_from(i);
    let e = room.place_from(i + 1);
    hold(h, ws, ks, &mut bs[a..e], room, name);
}

// The state of place i, put back; the report count stays.
pub fn return_to(h: &mut [u32], ws: &mut [u32], ks: &mut [u32], bs: &[u32], i: usize)
    requires { ReturnReady h.old ws.old ks.old bs.now i }
    ensures { Became h.old ws.old ks.old h.new ws.new ks.new
        (keep_reports (store_in h.old ws.old ks.old) (store_at (book_in bs.now) i)) }
{
    let room = book::room_of(bs);
    let ps = book::place(bs, room, i);
    keep::put_back(
        h,
        ws,
        ks,
        book::head_of(ps),
        book::nodes_of(ps, room),
        book::kids_of(ps, room),
    );
}

// Place i becomes free.
fn free_at(bs: &mut [u32], room: Room, i: usize)
    requires { PlaceLies bs.old room.nodes room.children i }
    ensures { bs.new ≡ freed_at bs.old room.nodes room.children i }
{
    let a = room.place_from(i);
    let e = room.place_from(i + 1);
    book::free(&mut bs[a..e]);
}

// "dropping a name makes its place usable"
pub fn drop_name(bs: &mut [u32], i: usize)
    requires { DropReady bs.old i }
    ensures { BookBecame bs.old bs.new (with_place (book_in bs.old) i none) }
{
    let room = book::room_of(bs);
    free_at(bs, room, i);
}

fn free_all(bs: &mut [u32], room: Room)
    requires { book_words room.nodes room.children ≤ length bs.old }
    ensures { FreeTo bs.old bs.new room.nodes room.children MAX_STATES }
{
    for i in 0..MAX_STATES {
        free_at(bs, room, i);
    }
}

// A names buffer without a name, whatever the slice held.
pub fn open_names(bs: &mut [u32], room: Room)
    requires { book_words room.nodes room.children ≤ length bs.old }
    ensures { BookBecame bs.old bs.new (blank room.nodes room.children) }
{
    bs[0] = room.nodes;
    bs[1] = room.children;
    free_all(bs, room);
}

// "`reset` frees all" and "drops all names"; the report count "outlives `reset`".
pub fn reset(h: &mut [u32], ws: &mut [u32], ks: &mut [u32], bs: &mut [u32])
    requires { ResetReady h.old ws.old ks.old bs.old }
    ensures { ResetLeft h.old ws.old ks.old bs.old
        h.new ws.new ks.new bs.new }
{
    let room = book::room_of(bs);
    make::reset(h, ws, ks);
    free_all(bs, room);
}

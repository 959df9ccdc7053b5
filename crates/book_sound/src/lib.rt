#![tactic(auto)]
// Refusal 8 of a names buffer: "unsound, too short or made for other capacities". Any numbers at all may be lent. Lengths and capacities are tested first,
// then each held place once, whatever is asked for, by the tests that a store has; last that no two names are the same.
ghost use Rattle.std.specs.Prelude.{◌≡◌, true, ◌≤◌, ◌<◌, length};
ghost use Rattle.scope.specs.Base.{all};
ghost use Rattle.scope.specs.Limits.{MAX_STATES};
ghost use Rattle.scope.specs.Refusals.{first_broken};
ghost use Rattle.scope.specs.States.{names_differ, lent_book_sound, book_tests};
ghost use Rattle.chart.specs.Env.{chart_lent};
ghost use Rattle.layout.specs.Words.{lent_of};
ghost use Rattle.refusals.specs.Codes.{told};
ghost use Rattle.sound.specs.Tests.{env_lent};
ghost use Rattle.book.specs.Words.{NAME_WORDS, place_words, book_words, places_in, name_words_clean, book_clean, lent_book_of};
ghost use Rattle.book_sound.specs.Tests.{room_alone, is_below, place_ok, places_ok, Listed, other_name, name_once};

use book::{NAME_WORDS, Room, name_length, place};
use chart::Env;
use refusals::Refusal;
use scope::{MAX_CHILDREN, MAX_NODES, MAX_STATE_NAME, MAX_STATES};

// One more than the largest byte.
const BYTES: u32 = 256;

// All words are below a limit.
fn below(s: &[u32], limit: u32) -> bool
    ensures { result ≡ all (is_below limit) s.now }
{
    s.iter().all(|&word| word < limit)
}

// A name's length is one that a name can have, its words are bytes, and unused ones are zero.
fn name_clean(ps: &[u32]) -> bool
    requires { NAME_WORDS ≤ length ps.now }
    ensures { result ≡ name_words_clean ps.now }
{
    let n = name_length(ps) as usize;
    n <= MAX_STATE_NAME && below(&ps[1..n + 1], BYTES) && below(&ps[n + 1..NAME_WORDS], 1)
}

// A free place passes. A held head says its counts as its capacities, so the slots behind what is used are not looked at.
fn place_sound(env: &Env<'_>, ps: &[u32], room: Room) -> bool
    requires { length ps.now ≡ place_words room.nodes room.children }
    ensures { result ≡ place_ok (chart_lent env.now) room.nodes room.children ps.now }
{
    if name_length(ps) == 0 {
        return true;
    }
    let x = layout::read_header(book::head_of(ps));
    name_clean(ps)
        && room.nodes as usize <= MAX_NODES
        && room.children as usize <= MAX_CHILDREN
        && x.node_room == x.nodes
        && x.child_room == x.children
        && sound::store_sound(
            env,
            book::head_of(ps),
            book::nodes_of(ps, room),
            book::kids_of(ps, room),
        )
}

fn places_sound(env: &Env<'_>, bs: &[u32], room: Room) -> bool
    requires { book_words room.nodes room.children ≤ length bs.now }
    ensures { result ≡ places_ok (chart_lent env.now) room.nodes room.children bs.now }
{
    (0..MAX_STATES).all(|i| place_sound(env, place(bs, room, i), room))
}

// Place j is not held under place i's name.
fn other_name(bs: &[u32], i: usize, j: usize) -> bool
    requires { Listed bs.now i × (j < MAX_STATES) }
    ensures { result ≡ other_name bs.now i j }
{
    let room = book::room_of(bs);
    !book::same_names(place(bs, room, j), place(bs, room, i))
}

// No place behind place i is held under its name.
fn name_once(bs: &[u32], i: usize) -> bool
    requires { Listed bs.now i }
    ensures { result ≡ name_once bs.now i }
{
    (i + 1..MAX_STATES).all(|j| other_name(bs, i, j))
}

fn names_differ(bs: &[u32]) -> bool
    requires { book_clean bs.now ≡ true }
    ensures { result ≡ names_differ (places_in bs.now) }
{
    (0..MAX_STATES).all(|i| name_once(bs, i))
}

// Whether refusal 8 does not stand of a names buffer beside a store with this head.
pub fn book_sound(env: &Env<'_>, h: &[u32], bs: &[u32]) -> bool
    ensures { result ≡ lent_book_sound (chart_lent env.now) (room_alone h.now) (lent_book_of bs.now) }
{
    let x = layout::read_header(h);
    let room = book::room_of(bs);
    room.book_words() <= bs.len()
        && room.nodes == x.node_room
        && room.children == x.child_room
        && places_sound(env, bs, room)
        && names_differ(bs)
}

// The first of refusals 2 and 8 that stands, of a chart, a store and its names buffer.
pub fn lent(env: &Env<'_>, h: &[u32], ws: &[u32], ks: &[u32], bs: &[u32]) -> Result<(), Refusal>
    ensures { first_broken (book_tests (env_lent env.now) (lent_of h.now ws.now ks.now)
        (lent_book_of bs.now)) ≡ told result }
{
    sound::lent(env, h, ws, ks)?;
    if !book_sound(env, h, bs) {
        return Err(Refusal::Unsound);
    }
    Ok(())
}

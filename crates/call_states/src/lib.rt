#![tactic(auto)]
// The calls on a store and its names buffer, on any numbers at all: opening a names buffer is refused with 1 alone; the others test chart, store and names
// buffer and refuse with 2 or 8, or are their forms for tested ones.
//
// Kept (2), (5): as `promise` says.
pub mod tested;

ghost use Rattle.std.specs.Prelude.{leb, length, ◌≡◌, [], ◌∷◌};
ghost use Rattle.scope.specs.Refusals.{first_broken, open_test};
ghost use Rattle.scope.specs.States.{open_names_call, name_state_call, return_to_call, drop_name_call, reset_names_call};
ghost use Rattle.layout.specs.Words.{lent_of};
ghost use Rattle.refusals.specs.Codes.{told};
ghost use Rattle.sound.specs.Tests.{env_lent};
ghost use Rattle.promise.specs.Promise.{done_reply};
ghost use Rattle.book.specs.Words.{book_words, lent_book_of};
ghost use Rattle.call_states.specs.Promise.{NamesPromised, NamesOpened};

use book::Room;
use chart::Env;
use refusals::Refusal;

// Refusal 1 where it stands.
fn opening(bs: &[u32], room: Room) -> Result<(), Refusal>
    ensures { first_broken (open_test room.nodes room.children (leb (book_words room.nodes room.children) (length bs.now)) ∷ []) ≡ told result }
{
    refusals::opening_by(room.nodes, room.children, room.book_words() <= bs.len())
}

// A names buffer without a name, for a store of these capacities, whatever the slice held.
pub fn open_names(bs: &mut [u32], nodes: u32, children: u32) -> Result<(), Refusal>
    ensures { NamesOpened (open_names_call nodes children (leb (book_words nodes children) (length bs.old)))
        (done_reply result) bs.old bs.new }
{
    let room = Room { nodes, children };
    opening(bs, room)?;
    states::open_names(bs, room);
    Ok(())
}

// "Let a planner name the present state, at most eight names of 1 to 255 bytes". "Naming again under a held name replaces it".
pub fn name_state(
    env: &Env<'_>,
    h: &[u32],
    ws: &[u32],
    ks: &[u32],
    bs: &mut [u32],
    name: &[u8],
) -> Result<(), Refusal>
    ensures { NamesPromised
        (name_state_call (env_lent env.now) (lent_of h.now ws.now ks.now) (lent_book_of bs.old) name.now) (done_reply result) h.now ws.now ks.now bs.old h.now ws.now ks.now bs.new }
{
    book_sound::lent(env, h, ws, ks, bs)?;
    tested::name_state(env, h, ws, ks, bs, name)
}

// "Returning restores every node, the remembered error and nil types and every capacity figure; the report count does not go back".
pub fn return_to(
    env: &Env<'_>,
    h: &mut [u32],
    ws: &mut [u32],
    ks: &mut [u32],
    bs: &[u32],
    name: &[u8],
) -> Result<(), Refusal>
    ensures { NamesPromised
        (return_to_call (env_lent env.now) (lent_of h.old ws.old ks.old)
        (lent_book_of bs.now) name.now)
        (done_reply result) h.old ws.old ks.old bs.now h.new ws.new ks.new bs.now }
{
    book_sound::lent(env, h, ws, ks, bs)?;
    tested::return_to(env, h, ws, ks, bs, name)
}

// "dropping a name makes its place usable"
pub fn drop_name(
    env: &Env<'_>,
    h: &[u32],
    ws: &[u32],
    ks: &[u32],
    bs: &mut [u32],
    name: &[u8],
) -> Result<(), Refusal>
    ensures { NamesPromised
        (drop_name_call (env_lent env.now) (lent_of h.now ws.now ks.now) (lent_book_of bs.old) name.now) (done_reply result) h.now ws.now ks.now bs.old h.now ws.now ks.now bs.new }
{
    book_sound::lent(env, h, ws, ks, bs)?;
    tested::drop_name(env, h, ws, ks, bs, name)
}

// "`reset` frees all"; the report count "outlives `reset`", and "`reset` drops all names".
pub fn reset(
    env: &Env<'_>,
    h: &mut [u32],
    ws: &mut [u32],
    ks: &mut [u32],
    bs: &mut [u32],
) -> Result<(), Refusal>
    ensures { NamesPromised
        (reset_names_call (env_lent env.now) (lent_of h.old ws.old ks.old)
        (lent_book_of bs.old))
        (done_reply result) h.old ws.old ks.old bs.old h.new ws.new ks.new bs.new }
{
    book_sound::lent(env, h, ws, ks, bs)?;
    tested::reset(env, h, ws, ks, bs)
}

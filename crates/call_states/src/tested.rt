// The calls on a store and its names buffer, for ones that passed the tests of 2 and 8. "An unheld name, or one of a wrong length, is refused with 12 and a
// ninth with 13, both tested after 5, 12 first".
ghost use Rattle.std.specs.Prelude.{◌≡◌, true};
ghost use Rattle.scope.specs.States.{place_for, name_length, name_state_call, return_to_call, drop_name_call, reset_names_call};
ghost use Rattle.layout.specs.Words.{lent_of};
ghost use Rattle.sound.specs.Tests.{env_lent};
ghost use Rattle.promise.specs.Promise.{done_reply};
ghost use Rattle.book.specs.Words.{places_in, book_clean, lent_book_of};
ghost use Rattle.book.specs.Places.{if_place};
ghost use Rattle.call_states.specs.Promise.{NamesPromised, TestedNames};
ghost use Rattle.call_states.specs.Places.{place_held};

use chart::Env;
use refusals::Refusal;
use scope::MAX_STATE_NAME;

// "names of 1 to 255 bytes"
fn name_fits(name: &[u8]) -> bool
    ensures { result ≡ name_length name.now }
{
    !name.is_empty() && name.len() <= MAX_STATE_NAME
}

// Where a name goes, if there is a place for it.
fn place_for(bs: &[u32], name: &[u8]) -> Option<usize>
    requires { book_clean bs.now ≡ true }
    ensures { result ≡ if_place (place_for name.now (places_in bs.now)) }
{
    book::find_name(bs, name).or_else(|| book::find_free(bs))
}

// Where a name is held, if it is and has a right length.
// Kept (1): `name_fits(name).then(..).flatten()` is no plainer: what is asked answers an Option already.
fn held_place(bs: &[u32], name: &[u8]) -> Option<usize>
    requires { book_clean bs.now ≡ true }
    ensures { result ≡ if_place (place_held name.now (places_in bs.now)) }
{
    if name_fits(name) {
        book::find_name(bs, name)
    } else {
        None
    }
}

// "Let a planner name the present state, at most eight names of 1 to 255 bytes". "Naming again under a held name replaces it".
pub fn name_state(
    env: &Env<'_>,
    h: &[u32],
    ws: &[u32],
    ks: &[u32],
    bs: &mut [u32],
    name: &[u8],
) -> Result<(), Refusal>
    requires { TestedNames (env_lent env.now) h.now ws.now ks.now bs.old }
    ensures { NamesPromised
        (name_state_call (env_lent env.now) (lent_of h.now ws.now ks.now)
        (lent_book_of bs.old) name.now)
        (done_reply result) h.now ws.now ks.now bs.old h.now ws.now ks.now bs.new }
{
    if !name_fits(name) {
        return Err(Refusal::Unheld);
    }
    let Some(i) = place_for(bs, name) else {
        return Err(Refusal::NoPlace);
    };
    states::name_state(h, ws, ks, bs, i, name);
    Ok(())
}

// "Returning restores every node, the remembered error and nil types and every capacity figure; the report count does not go back".
pub fn return_to(
    env: &Env<'_>,
    h: &mut [u32],
    ws: &mut [u32],
    ks: &mut [u32],
    bs: &[u32],
    name: &[u8],
) -> Result<(), Refusal>
    requires { TestedNames (env_lent env.now) h.old ws.old ks.old bs.now }
    ensures { NamesPromised
        (return_to_call (env_lent env.now) (lent_of h.old ws.old ks.old)
        (lent_book_of bs.now) name.now)
        (done_reply result) h.old ws.old ks.old bs.now h.new ws.new ks.new bs.now }
{
    let Some(held) = held_place(bs, name) else {
        return Err(Refusal::Unheld);
    };
    states::return_to(h, ws, ks, bs, held);
    Ok(())
}

// "dropping a name makes its place usable"
pub fn drop_name(
    env: &Env<'_>,
    h: &[u32],
    ws: &[u32],
    ks: &[u32],
    bs: &mut [u32],
    name: &[u8],
) -> Result<(), Refusal>
    requires { TestedNames (env_lent env.now) h.now ws.now ks.now bs.old }
    ensures { NamesPromised
        (drop_name_call (env_lent env.now) (lent_of h.now ws.now ks.now)
        (lent_book_of bs.old) name.now)
        (done_reply result) h.now ws.now ks.now bs.old h.now ws.now ks.now bs.new }
{
    let Some(place) = held_place(bs, name) else {
        return Err(Refusal::Unheld);
    };
    states::drop_name(bs, place);
    Ok(())
}

// "`reset` frees all"; the report count "outlives `reset`", and "`reset` drops all names".
pub fn reset(
    env: &Env<'_>,
    h: &mut [u32],
    ws: &mut [u32],
    ks: &mut [u32],
    bs: &mut [u32],
) -> Result<(), Refusal>
    requires { TestedNames (env_lent env.now) h.old ws.old ks.old bs.old }
    ensures { NamesPromised
        (reset_names_call (env_lent env.now) (lent_of h.old ws.old ks.old)
        (lent_book_of bs.old))
        (done_reply result) h.old ws.old ks.old bs.old h.new ws.new ks.new bs.new }
{
    states::reset(h, ws, ks, bs);
    Ok(())
}

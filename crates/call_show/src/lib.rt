#![tactic(auto)]
// The public printers, on any numbers at all: `show` and `show_impl_type` "write 000's text into a lent buffer and answer its length or a refusal". Each tests
// chart and store and refuses with 2 or 8, or is its form for a tested store. Then their second forms: "A second form of each hands back the written front part
// of that buffer: on 7 the whole buffer, on any other refusal an empty part." The refusal, if one stands, is told beside the part. The part begins where the
// buffer does. A slice that goes into the answer has no value of its own at the end, so a contract cannot say what lies past the part; the first forms, which
// these call, say it.
//
// Kept (2), (5): as `promise` says.
pub mod tested;

ghost use Rattle.scope.specs.Types.{ty_of};
ghost use Rattle.scope.specs.Calls.{show_call, show_impl_type_call};
ghost use Rattle.types.specs.Impls.{impl_means};
ghost use Rattle.layout.specs.Words.{lent_of, store_in};
ghost use Rattle.sound.specs.Tests.{env_lent};
ghost use Rattle.promise.specs.Prints.{PrintPromised, count_reply, PartPromised};
ghost use Rattle.std.specs.Prelude.{◌≡◌, ◌≤◌, length};
ghost use Rattle.call_show.specs.Parts.{part_in, Back};

use chart::Env;
use refusals::Refusal;
use types::{Impl, Type};

// A type's text.
pub fn show(
    env: &Env<'_>,
    h: &[u32],
    ws: &[u32],
    ks: &[u32],
    t: Type,
    buf: &mut [u8],
) -> Result<usize, Refusal>
    ensures { PrintPromised
        (show_call (env_lent env.now) (lent_of h.now ws.now ks.now) (ty_of t.0) buf.old) (count_reply result) (store_in h.now ws.now ks.now) buf.new }
{
    sound::lent(env, h, ws, ks)?;
    tested::show(env, h, ws, ks, t, buf)
}

// An impl type's text.
pub fn show_impl_type(
    env: &Env<'_>,
    h: &[u32],
    ws: &[u32],
    ks: &[u32],
    a: Impl<'_>,
    buf: &mut [u8],
) -> Result<usize, Refusal>
    ensures { PrintPromised
        (show_impl_type_call (env_lent env.now) (lent_of h.now ws.now ks.now) (impl_means a.entry) buf.old)
        (count_reply result) (store_in h.now ws.now ks.now) buf.new }
{
    sound::lent(env, h, ws, ks)?;
    tested::show_impl_type(env, h, ws, ks, a, buf)
}

// How long the part is in a buffer with so much room.
fn part_in(r: Result<usize, Refusal>, room: usize) -> usize
    ensures { result ≡ part_in r room }
{
    match r {
        Ok(n) => n,
        Err(Refusal::Short) => room,
        Err(_) => 0,
    }
}

// The part, and the refusal beside it.
// Kept (1): both are told at once: "on 7 the whole buffer, on any other refusal an empty part". A Result would lose the part on 7.
fn hand_back<'b>(buf: &'b mut [u8], r: Result<usize, Refusal>) -> (&'b mut [u8], Option<Refusal>)
    requires { part_in r (length buf.old) ≤ length buf.old }
    ensures { Back r buf.old result.1 result.0.now × (result.0.ref_ptr ≡ buf.entry.ref_ptr) }
{
    let n = part_in(r, buf.len());
    (&mut buf[..n], r.err())
}

// A type's text.
#[tactic(auto, using(crate::proofs::Laws::show_room))]
pub fn show_part<'b>(
    env: &Env<'_>,
    h: &[u32],
    ws: &[u32],
    ks: &[u32],
    t: Type,
    buf: &'b mut [u8],
) -> (&'b mut [u8], Option<Refusal>)
    ensures { PartPromised
        (show_call (env_lent env.now) (lent_of h.now ws.now ks.now) (ty_of t.0) buf.old)
        result.1 result.0.now (store_in h.now ws.now ks.now)
        × (result.0.ref_ptr ≡ buf.entry.ref_ptr) }
{
    let r = show(env, h, ws, ks, t, buf);
    hand_back(buf, r)
}

// An impl type's text.
#[tactic(auto, using(crate::proofs::Laws::impl_room))]
pub fn show_impl_type_part<'b>(
    env: &Env<'_>,
    h: &[u32],
    ws: &[u32],
    ks: &[u32],
    a: Impl<'_>,
    buf: &'b mut [u8],
) -> (&'b mut [u8], Option<Refusal>)
    ensures { PartPromised
        (show_impl_type_call (env_lent env.now) (lent_of h.now ws.now ks.now) (impl_means a.entry) buf.old)
        result.1 result.0.now (store_in h.now ws.now ks.now)
        × (result.0.ref_ptr ≡ buf.entry.ref_ptr) }
{
    let r = show_impl_type(env, h, ws, ks, a, buf);
    hand_back(buf, r)
}

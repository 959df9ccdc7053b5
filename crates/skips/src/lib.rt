#![tactic(auto)]
// A byte for each child slot says over how many, from it on, a walk passes, since the roots of their children are marked: so runs of children that overlap are
// gone through once. Nothing here knows of marks: what holds of all slots that are passed over holds of all that are passed over afterwards.
ghost use Rattle.std.specs.Prelude.{◌≡◌, ◌≤◌, ◌<◌, get_or};
ghost use Rattle.skips.specs.Table.{SLOTS, BYTES, Passed, Scanned, Filled, Stretched};

// What a byte is less than.
const BYTES: usize = 256;

// A byte for each child slot says over how many, from it on, a walk passes: the roots of their children are marked. Past the end it is none.
// Kept (1): 0 is no slot to pass over, and a number of slots like any other; an Option would be taken apart to be added.
fn skip_at(skip: &[u8], s: usize) -> usize
    ensures { (result ≡ get_or skip.now s 0) × (result < BYTES) }
{
    skip.get(s).map_or(0, |far| usize::from(*far))
}

// How many slots from s on are passed over: those that s tells of, and those that the next one does. Both become one where a byte holds them, so that
// runs of children that overlap are gone through once.
pub fn pass(skip: &mut [u8], s: usize) -> usize
    requires { s < SLOTS }
    ensures { Passed skip.old skip.new s result }
{
    let near = skip_at(skip, s);
    if near == 0 {
        return 0;
    }
    let far = near + skip_at(skip, s + near);
    if let Ok(byte) = u8::try_from(far) {
        words::put(skip, s, byte);
    }
    far
}

// A byte for each node says that its root is marked. The first slot from s on whose child's node has none, or that is passed over already; the end if there is none.
fn scan(ks: &[u32], seen: &[u8], skip: &[u8], s: usize, end: usize) -> usize
    requires { s ≤ end }
    ensures { Scanned ks.now seen.now s end result }
{
    (s..end)
        .find(|&t| {
            !roots::is_marked(seen, layout::child_at(ks, t).ty.idx()) || 0 < skip_at(skip, t)
        })
        .unwrap_or(end)
}

// Each slot from s up to t tells how far t is, where a byte holds it.
// Kept (3): the bytes are written by index: after `iter_mut` a proof knows the part's length and not its elements (NOT_COVERED.md of the kit).
fn fill(skip: &mut [u8], s: usize, t: usize)
    requires { s ≤ t }
    ensures { Filled skip.old skip.new s t }
{
    if BYTES <= t - s {
        return;
    }
    for x in s..t.min(skip.len()) {
        skip[x] = (t - x) as u8;
    }
}

// What follows the slot s and needs no root: the slot after it. If the child in s has been met all of it is passed over from now on.
pub fn stretch(ks: &[u32], seen: &[u8], skip: &mut [u8], s: usize, end: usize) -> usize
    requires { (s < end) × (end < SLOTS) }
    ensures { Stretched ks.now seen.now skip.old skip.new s end result }
{
    let t = scan(ks, seen, skip, s + 1, end);
    if roots::is_marked(seen, layout::child_at(ks, s).ty.idx()) {
        fill(skip, s, t);
    }
    t
}

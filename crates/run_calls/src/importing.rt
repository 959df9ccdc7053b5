// An import into the store in hand out of the other one: room for answers, 1 with a parameter list, how many types, these, then the entries.
use chart::Env;
use run_text::numbers::{after, first};
use run_text::writing;
use scope::MAX_LIST;
use std::io;
use std::io::Write;
use words::word;

// One more than a list may have.
const ROOM: usize = MAX_LIST + 1;

// Out of the words sh, sw, sk.
pub(crate) fn import<W: Write>(
    to: &mut W,
    env: &Env<'_>,
    h: &mut [u32],
    ws: &mut [u32],
    ks: &mut [u32],
    sh: &[u32],
    sw: &[u32],
    sk: &[u32],
    a: &[u32],
) -> io::Result<()> {
    let mut out = [0u32; ROOM];
    let room = out.len().min(word(a, 0) as usize);
    let out = &mut out[..room];
    let given = after(a, 3);
    let ts = first(given, word(a, 2) as usize);
    let params = (word(a, 1) != 0).then_some(after(given, ts.len()));
    let r = call_copy::import(env, h, ws, ks, sh, sw, sk, ts, params, out);
    writing::listed(to, r, out, ts.len())
}

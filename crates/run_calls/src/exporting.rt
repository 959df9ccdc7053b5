// An export out of the store in hand into words of its own, whatever they held: nodes, children, room for answers, words lent of each slice, then types.
use crate::{HEAD, KIDS, NODES, asking};
use chart::Env;
use run_text::numbers::after;
use run_text::writing;
use scope::MAX_LIST;
use std::io;
use std::io::Write;
use words::word;

// One more than a list may have.
const ROOM: usize = MAX_LIST + 1;

// What an export's words hold before it.
const USED: u32 = 3_735_928_559;

// The types, and every node of the fresh store. It has as many words as the list says.
pub(crate) fn export<W: Write>(
    to: &mut W,
    env: &Env<'_>,
    h: &[u32],
    ws: &[u32],
    ks: &[u32],
    a: &[u32],
) -> io::Result<()> {
    let mut eh = [USED; HEAD];
    let mut ew = [USED; NODES];
    let mut ek = [USED; KIDS];
    let mut out = [0u32; ROOM];
    let room = out.len().min(word(a, 2) as usize);
    let x = eh.len().min(word(a, 3) as usize);
    let y = ew.len().min(word(a, 4) as usize);
    let z = ek.len().min(word(a, 5) as usize);
    let eh = &mut eh[..x];
    let ew = &mut ew[..y];
    let ek = &mut ek[..z];
    let out = &mut out[..room];
    let ts = after(a, 6);
    let nodes = word(a, 0);
    let children = word(a, 1);
    let r = call_copy::export(env, h, ws, ks, eh, ew, ek, nodes, children, ts, out);
    writing::listed(to, r, out, ts.len())?;
    match r {
        Ok(()) => asking::store(to, env, eh, ew, ek),
        Err(_) => Ok(()),
    }
}

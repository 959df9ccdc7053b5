// Named states: opening their buffer, naming the present state, returning to one, dropping a name, and emptying, which drops all.
use call_states::{drop_name, name_state, open_names, reset, return_to};
use chart::Env;
use refusals::Refusal;
use run_text::numbers::to_bytes;
use scope::MAX_STATE_NAME;
use words::word;

#[derive(Clone, Copy)]
pub(crate) enum Naming {
    Reset,
    // Nodes, children.
    OpenNames,
    // A name's bytes, here and below.
    NameState,
    ReturnTo,
    DropName,
}

// One more than a name may have.
const ROOM: usize = MAX_STATE_NAME + 1;

// bs is what is lent of the names buffer.
pub(crate) fn call(
    c: Naming,
    env: &Env<'_>,
    h: &mut [u32],
    ws: &mut [u32],
    ks: &mut [u32],
    bs: &mut [u32],
    a: &[u32],
) -> Result<(), Refusal> {
    let mut bytes = [0u8; ROOM];
    let n = to_bytes(a, &mut bytes);
    let name = &bytes[..n];
    match c {
        Naming::Reset => reset(env, h, ws, ks, bs),
        Naming::OpenNames => open_names(bs, word(a, 0), word(a, 1)),
        Naming::NameState => name_state(env, h, ws, ks, bs, name),
        Naming::ReturnTo => return_to(env, h, ws, ks, bs, name),
        Naming::DropName => drop_name(env, h, ws, ks, bs, name),
    }
}

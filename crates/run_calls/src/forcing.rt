// Forcing and finishing.
use call_force::{finish_inference, finish_inference_where, force_kind};
use chart::Env;
use run_text::numbers::to_bytes;
use run_text::writing;
use scope::MAX_NODES;
use std::io;
use std::io::Write;
use types::Type;
use words::word;

#[derive(Clone, Copy)]
pub(crate) enum Forcing {
    // A type.
    ForceKind,
    Finish,
    // A byte for each node.
    FinishWhere,
}

pub(crate) fn call<W: Write>(
    to: &mut W,
    c: Forcing,
    env: &Env<'_>,
    h: &mut [u32],
    ws: &mut [u32],
    ks: &[u32],
    a: &[u32],
) -> io::Result<()> {
    match c {
        Forcing::ForceKind => {
            let r = force_kind(env, h, ws, ks, Type(word(a, 0)));
            writing::forced_answer(to, r, ks, env)
        }
        Forcing::Finish => writing::done(to, finish_inference(env, h, ws, ks)),
        Forcing::FinishWhere => {
            let mut bytes = [0u8; MAX_NODES];
            let n = to_bytes(a, &mut bytes);
            let r = finish_inference_where(env, h, ws, ks, &bytes[..n]);
            writing::done(to, r)
        }
    }
}

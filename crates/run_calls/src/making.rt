// Opening and the makers.
use call_make::{error, new_var, nil};
use call_new::{new, new_struct, new_union};
use chart::Env;
use lent_kind::KindArgs;
use names::Name;
use run_text::numbers::after;
use run_text::writing;
use scope::MAX_NODES;
use std::io;
use std::io::Write;
use words::word;

#[derive(Clone, Copy)]
pub(crate) enum Making {
    // Nodes, children.
    Open,
    // Code, number, flex, name (text, start, length), then four numbers for each child.
    New,
    // Number, then types.
    NewStruct,
    // Number, then types.
    NewUnion,
    // Span.
    NewVar,
    // Span, count, room for answers.
    NewVars,
    Error,
    Nil,
}

fn kind_args(a: &[u32]) -> KindArgs {
    let name = Name {
        text: word(a, 3),
        start: word(a, 4),
        len: word(a, 5),
    };
    KindArgs {
        code: word(a, 0),
        number: word(a, 1),
        flex: word(a, 2),
        name,
    }
}

fn new_vars<W: Write>(
    to: &mut W,
    env: &Env<'_>,
    h: &mut [u32],
    ws: &mut [u32],
    ks: &[u32],
    a: &[u32],
) -> io::Result<()> {
    let mut out = [0u32; MAX_NODES];
    let room = out.len().min(word(a, 2) as usize);
    let out = &mut out[..room];
    let n = word(a, 1);
    let r = call_make::new_vars(env, h, ws, ks, word(a, 0), n, out);
    writing::listed(to, r, out, n as usize)
}

pub(crate) fn call<W: Write>(
    to: &mut W,
    c: Making,
    env: &Env<'_>,
    h: &mut [u32],
    ws: &mut [u32],
    ks: &mut [u32],
    a: &[u32],
) -> io::Result<()> {
    let n = word(a, 0);
    let ts = after(a, 1);
    match c {
        Making::Open => writing::done(to, call_open::open(h, ws, ks, n, word(a, 1))),
        Making::New => {
            let r = new(env, h, ws, ks, kind_args(a), after(a, 6));
            writing::type_answer(to, r)
        }
        Making::NewStruct => writing::type_answer(to, new_struct(env, h, ws, ks, n, ts)),
        Making::NewUnion => writing::type_answer(to, new_union(env, h, ws, ks, n, ts)),
        Making::NewVar => writing::type_answer(to, new_var(env, h, ws, ks, n)),
        Making::NewVars => new_vars(to, env, h, ws, ks, a),
        Making::Error => writing::type_answer(to, error(env, h, ws, ks)),
        Making::Nil => writing::type_answer(to, nil(env, h, ws, ks)),
    }
}

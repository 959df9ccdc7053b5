// Calls that change no store.
use call_ask::{find_related, get_mod, is_nil, self_inverse, self_inverse_param};
use chart::Env;
use run_text::numbers::{after, to_bytes};
use run_text::writing;
use scope::MAX_NODES;
use std::io;
use std::io::Write;
use types::Type;
use words::word;

// Each is followed by a type, but for the figures and the store.
#[derive(Clone, Copy)]
pub(crate) enum Asking {
    Find,
    Node,
    // Then an index.
    Child,
    // Then an index.
    ChildName,
    Figures,
    IsNil,
    SelfInverse,
    // Then 0 or 1.
    SelfInverseParam,
    GetMod,
    // Then a mark for each node.
    FindRelated,
    // The figures, and every node.
    Store,
}

fn related<W: Write>(
    to: &mut W,
    env: &Env<'_>,
    h: &[u32],
    ws: &[u32],
    ks: &[u32],
    a: &[u32],
) -> io::Result<()> {
    let mut marks = [0u8; MAX_NODES];
    let n = to_bytes(after(a, 1), &mut marks);
    let marks = &mut marks[..n];
    let r = find_related(env, h, ws, ks, marks, Type(word(a, 0)));
    writing::answer(to, r, |to, ()| writing::marked(to, marks))
}

// Every node, after the figures.
pub(crate) fn store<W: Write>(
    to: &mut W,
    env: &Env<'_>,
    h: &[u32],
    ws: &[u32],
    ks: &[u32],
) -> io::Result<()> {
    let f = call_read::figures(env, h, ws, ks);
    writing::figures_answer(to, f)?;
    let Ok(x) = f else {
        return Ok(());
    };
    for i in 0..x.nodes {
        writing::say(to, b"  ")?;
        let v = call_read::node(env, h, ws, ks, Type(i));
        writing::node_answer(to, v, ks, env)?;
    }
    Ok(())
}

pub(crate) fn call<W: Write>(
    to: &mut W,
    c: Asking,
    env: &Env<'_>,
    h: &[u32],
    ws: &[u32],
    ks: &[u32],
    a: &[u32],
) -> io::Result<()> {
    let t = Type(word(a, 0));
    let j = word(a, 1);
    match c {
        Asking::Find => writing::type_answer(to, call_find::find(env, h, ws, ks, t)),
        Asking::Node => writing::node_answer(to, call_read::node(env, h, ws, ks, t), ks, env),
        Asking::Child => writing::child_answer(to, call_read::child(env, h, ws, ks, t, j)),
        Asking::ChildName => {
            writing::name_answer(to, call_read::child_name(env, h, ws, ks, t, j), env)
        }
        Asking::Figures => writing::figures_answer(to, call_read::figures(env, h, ws, ks)),
        Asking::IsNil => writing::bool_answer(to, is_nil(env, h, ws, ks, t)),
        Asking::SelfInverse => writing::bool_answer(to, self_inverse(env, h, ws, ks, t)),
        Asking::SelfInverseParam => {
            writing::bool_answer(to, self_inverse_param(env, h, ws, ks, t, j != 0))
        }
        Asking::GetMod => writing::mod_answer(to, get_mod(env, h, ws, ks, t)),
        Asking::FindRelated => related(to, env, h, ws, ks, a),
        Asking::Store => store(to, env, h, ws, ks),
    }
}

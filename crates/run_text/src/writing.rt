// What the public calls answer, as lines of text.
use crate::numbers::first;
use chart::Env;
use layout::{Header, Kind, TypeNode, TypeState};
use names::Name;
use refusals::Refusal;
use std::io;
use std::io::Write;
use types::{Inverted, Type, UnifyResult};
use walk::Mod;

pub fn say<W: Write>(to: &mut W, text: &[u8]) -> io::Result<()> {
    to.write_all(text)
}

pub fn line<W: Write>(to: &mut W) -> io::Result<()> {
    say(to, b"\n")
}

// The beginning of a case.
pub fn case<W: Write>(to: &mut W, n: u32) -> io::Result<()> {
    writeln!(to, "case {n}")
}

// Numbers on a line of their own.
pub fn words<W: Write>(to: &mut W, s: &[u32]) -> io::Result<()> {
    for &w in s {
        write!(to, "{w} ")?;
    }
    line(to)
}

pub fn types<W: Write>(to: &mut W, s: &[u32]) -> io::Result<()> {
    say(to, b"types")?;
    for &w in s {
        let t = Type(w);
        write!(to, " {t}")?;
    }
    line(to)
}

// The nodes with a mark.
pub fn marked<W: Write>(to: &mut W, marks: &[u8]) -> io::Result<()> {
    say(to, b"marked")?;
    for (i, &m) in marks.iter().enumerate() {
        if m != 0 {
            write!(to, " {i}")?;
        }
    }
    line(to)
}

pub fn refused<W: Write>(to: &mut W, r: Refusal) -> io::Result<()> {
    write!(to, "refused {r}")
}

// What a call answered: its value, as it is told, or its refusal, on a line of its own.
pub fn answer<W: Write, T, F: FnOnce(&mut W, T) -> io::Result<()>>(
    to: &mut W,
    a: Result<T, Refusal>,
    tell: F,
) -> io::Result<()>
    requires { F.IsAlwaysCallable tell }
{
    match a {
        Ok(x) => tell(to, x),
        Err(r) => {
            refused(to, r)?;
            line(to)
        }
    }
}

pub fn done<W: Write>(to: &mut W, a: Result<(), Refusal>) -> io::Result<()> {
    answer(to, a, |to, ()| say(to, b"done\n"))
}

// The types that stand at the front of `out`, if the call was done.
pub fn listed<W: Write>(
    to: &mut W,
    a: Result<(), Refusal>,
    out: &[u32],
    count: usize,
) -> io::Result<()> {
    answer(to, a, |to, ()| types(to, first(out, count)))
}

pub fn type_answer<W: Write>(to: &mut W, a: Result<Type, Refusal>) -> io::Result<()> {
    answer(to, a, |to, t| writeln!(to, "={t}"))
}

pub fn bool_answer<W: Write>(to: &mut W, a: Result<bool, Refusal>) -> io::Result<()> {
    answer(to, a, |to, b| {
        let n = u32::from(b);
        writeln!(to, "{n}")
    })
}

// Each word goes with its newline, in one write.
fn result<W: Write>(to: &mut W, r: UnifyResult) -> io::Result<()> {
    match r {
        UnifyResult::Success => say(to, b"Success\n"),
        UnifyResult::Failure => say(to, b"Failure\n"),
        UnifyResult::Indeterminate => say(to, b"Indeterminate\n"),
    }
}

pub fn unify_answer<W: Write>(to: &mut W, a: Result<UnifyResult, Refusal>) -> io::Result<()> {
    answer(to, a, result)
}

pub fn mod_answer<W: Write>(to: &mut W, a: Result<Mod, Refusal>) -> io::Result<()> {
    answer(to, a, |to, m| match m {
        Mod::Nothing => say(to, b"none\n"),
        Mod::Error => say(to, b"error\n"),
        Mod::Def(d) => writeln!(to, "def {d}"),
    })
}

fn type_or_none<W: Write>(to: &mut W, t: Option<Type>) -> io::Result<()> {
    match t {
        Some(t) => write!(to, "{t}"),
        None => say(to, b"none"),
    }
}

pub fn child_answer<W: Write>(to: &mut W, a: Result<Option<Type>, Refusal>) -> io::Result<()> {
    answer(to, a, |to, kid| match kid {
        Some(t) => writeln!(to, "{t}"),
        None => say(to, b"none\n"),
    })
}

// A name's bytes between bars.
fn name<W: Write>(to: &mut W, n: Name, env: &Env<'_>) -> io::Result<()> {
    say(to, b"|")?;
    say(to, names::bytes_of(n, &env.texts))?;
    say(to, b"|")
}

pub fn name_answer<W: Write>(
    to: &mut W,
    a: Result<Option<Name>, Refusal>,
    env: &Env<'_>,
) -> io::Result<()> {
    answer(to, a, |to, n| match n {
        Some(n) => {
            name(to, n, env)?;
            line(to)
        }
        None => say(to, b"none\n"),
    })
}

// A child's type, and its name if it has one.
fn child<W: Write>(to: &mut W, ks: &[u32], k: Kind, j: u32, env: &Env<'_>) -> io::Result<()> {
    let s = layout::child_of(ks, k.first, j);
    let t = s.ty;
    write!(to, " {t}")?;
    if s.name.len != 0 {
        name(to, s.name, env)?;
    }
    Ok(())
}

fn children<W: Write>(to: &mut W, ks: &[u32], k: Kind, env: &Env<'_>) -> io::Result<()> {
    for j in 0..k.count {
        child(to, ks, k, j, env)?;
    }
    Ok(())
}

// A kind: code, number, flag, `Flex`, its own name if it has one, its children.
fn kind<W: Write>(to: &mut W, ks: &[u32], k: Kind, env: &Env<'_>) -> io::Result<()> {
    let Kind {
        code,
        number,
        flex,
        ..
    } = k;
    let dual = u32::from(k.dual);
    write!(to, "{code} {number} {dual} {flex}")?;
    if k.name.len != 0 {
        say(to, b" ")?;
        name(to, k.name, env)?;
    }
    children(to, ks, k, env)
}

fn root<W: Write>(to: &mut W, size: u32) -> io::Result<()> {
    write!(to, "root {size} ")
}

fn known<W: Write>(to: &mut W, ks: &[u32], i: Inverted, k: Kind, env: &Env<'_>) -> io::Result<()> {
    write!(to, "known {i}")?;
    kind(to, ks, k, env)
}

fn state<W: Write>(to: &mut W, ks: &[u32], s: TypeState, env: &Env<'_>) -> io::Result<()> {
    match s {
        TypeState::Known(i, k) => known(to, ks, i, k, env),
        TypeState::Unknown(span) => write!(to, "unknown {span}"),
        TypeState::InferenceFailed => say(to, b"failed"),
    }
}

pub fn node_answer<W: Write>(
    to: &mut W,
    a: Result<TypeNode, Refusal>,
    ks: &[u32],
    env: &Env<'_>,
) -> io::Result<()> {
    answer(to, a, |to, node| match node {
        TypeNode::Root {
            state: TypeState::InferenceFailed,
            size,
        } => {
            root(to, size)?;
            say(to, b"failed\n")
        }
        TypeNode::Root { state: s, size } => {
            root(to, size)?;
            state(to, ks, s, env)?;
            line(to)
        }
        TypeNode::Child(t) => writeln!(to, "child {t}"),
    })
}

// "Both give Error uninverted."
fn no_kind<W: Write>(to: &mut W) -> io::Result<()> {
    say(to, b"known 14 0 0 0")
}

pub fn forced_answer<W: Write>(
    to: &mut W,
    a: Result<TypeState, Refusal>,
    ks: &[u32],
    env: &Env<'_>,
) -> io::Result<()> {
    answer(to, a, |to, found| {
        match found {
            TypeState::Known(i, k) => known(to, ks, i, k, env)?,
            TypeState::Unknown(span) => {
                no_kind(to)?;
                write!(to, " reported {span}")?;
            }
            TypeState::InferenceFailed => no_kind(to)?,
        }
        line(to)
    })
}

// Counts, capacities, the remembered types, the report count.
fn header<W: Write>(to: &mut W, x: Header) -> io::Result<()> {
    let Header {
        nodes,
        node_room,
        children,
        child_room,
        reports,
        ..
    } = x;
    write!(
        to,
        "nodes {nodes} of {node_room}, children {children} of {child_room}, error "
    )?;
    type_or_none(to, x.error)?;
    say(to, b", nil ")?;
    type_or_none(to, x.nil)?;
    writeln!(to, ", reports {reports}")
}

pub fn figures_answer<W: Write>(to: &mut W, a: Result<Header, Refusal>) -> io::Result<()> {
    answer(to, a, header)
}

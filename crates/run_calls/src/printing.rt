// The printers, into a buffer of dots: the answer, and then every byte of the buffer, or of the part that is handed back, between bars.
use crate::joining::impl_of;
use call_show::{show, show_impl_type, show_impl_type_part, show_part};
use chart::Env;
use refusals::Refusal;
use run_text::numbers::after;
use run_text::writing;
use std::io;
use std::io::Write;
use types::Type;
use words::word;

#[derive(Clone, Copy)]
pub(crate) enum Printing {
    // How long the buffer is, type.
    Show,
    // How long the buffer is, 1 for an error, the trait's number, its types.
    ShowImplType,
    // Their second forms.
    ShowPart,
    ShowImplTypePart,
}

const ROOM: usize = 4096;

const DOT: u8 = b'.';

// Bytes between bars, to the line's end.
fn bytes<W: Write>(to: &mut W, s: &[u8]) -> io::Result<()> {
    writing::say(to, b" |")?;
    writing::say(to, s)?;
    writing::say(to, b"|\n")
}

fn count<W: Write>(to: &mut W, a: Result<usize, Refusal>) -> io::Result<()> {
    match a {
        Ok(n) => write!(to, "length {n}"),
        Err(r) => writing::refused(to, r),
    }
}

// What is told beside a part.
fn code<W: Write>(to: &mut W, told: Option<Refusal>) -> io::Result<()> {
    let n = told.map_or(0, u32::from);
    write!(to, "code {n}")
}

fn print<W: Write>(
    to: &mut W,
    c: Printing,
    env: &Env<'_>,
    h: &[u32],
    ws: &[u32],
    ks: &[u32],
    buf: &mut [u8],
    a: &[u32],
) -> io::Result<()> {
    let t = Type(word(a, 1));
    let i = impl_of(word(a, 1), word(a, 2), after(a, 3));
    match c {
        Printing::Show => {
            count(to, show(env, h, ws, ks, t, buf))?;
            bytes(to, buf)
        }
        Printing::ShowImplType => {
            count(to, show_impl_type(env, h, ws, ks, i, buf))?;
            bytes(to, buf)
        }
        Printing::ShowPart => {
            let (p, told) = show_part(env, h, ws, ks, t, buf);
            code(to, told)?;
            bytes(to, p)
        }
        Printing::ShowImplTypePart => {
            let (p, told) = show_impl_type_part(env, h, ws, ks, i, buf);
            code(to, told)?;
            bytes(to, p)
        }
    }
}

pub(crate) fn call<W: Write>(
    to: &mut W,
    c: Printing,
    env: &Env<'_>,
    h: &[u32],
    ws: &[u32],
    ks: &[u32],
    a: &[u32],
) -> io::Result<()> {
    let mut buf = [DOT; ROOM];
    let n = buf.len().min(word(a, 0) as usize);
    print(to, c, env, h, ws, ks, &mut buf[..n], a)
}

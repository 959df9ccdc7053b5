#![tactic(auto)]
// Program `sheet`: lines from standard input, and what each prints to standard output, in fixed memory: 4 MB are lent to its unify, in which each pair of types
// has its own entry, so that no input takes long. Each line is answered before more is read, so that it can be used over a pipe or at a terminal. It only reads and
// writes: what a line is and what it prints is `sheet_feed`'s. Where nobody takes the output any more it ends; a read that fails is told on standard error.
ghost use Rattle.std.specs.Prelude.{◌<◌, length};
ghost use Rattle.scope.specs.Limits.{SHEET_TEXT};
ghost use Rattle.sheet_calls.specs.Store.{SheetStore};
ghost use Rattle.sheet.specs.Holding.{Holding, Kept};

use layout::HEAD_WORDS;
use scope::SHEET_TEXT;
use sheet_feed::{Fed, LINE_KEPT};
use sheet_line::{SHEET_CHILD_WORDS, SHEET_MEMORY_WORDS, SHEET_NODE_WORDS};
use std::io;
use std::io::{Read, Write};

// A text and its newline.
const TEXT: usize = SHEET_TEXT + 1;

// What is read at once.
const PIECE: usize = 65536;

// A piece of the input, line by line. The buffer holds the bytes of the line so far and no others, before the piece and after it: so each line that is run
// is the bytes of that line.
fn feed_all<W: Write>(
    to: &mut W,
    h: &mut [u32],
    ws: &mut [u32],
    ks: &mut [u32],
    memory: &mut [u32],
    line: &mut [u8; LINE_KEPT],
    at: usize,
    piece: &[u8],
    text: &mut [u8],
) -> Option<usize>
    requires sheet_store { SheetStore h.old ws.old ks.old }
    requires in_bounds { SHEET_TEXT < length text.old }
    requires holding { Holding line.old at }
    ensures { Kept h.new ws.new ks.new line.new result }
{
    let mut p = at;
    let mut rest = piece;
    // Kept (3): the new form is no plainer: each turn takes as many bytes from its front as the line had.
    while !rest.is_empty() {
        match sheet_feed::feed(h, ws, ks, memory, line, p, rest, text) {
            Fed::More(q) => {
                return Some(q);
            }
            Fed::Line(n, k) => {
                if to.write_all(&text[..n]).is_err() {
                    return None;
                }
                p = 0;
                rest = &rest[k..];
            }
        }
    }
    Some(p)
}

// Reads and answers until there is no more to do. A proved loop has to end, and nothing says that the input does: so reads are counted down, from a number that
// no run uses up.
fn serve<R: Read, W: Write>(
    from: &mut R,
    to: &mut W,
    h: &mut [u32],
    ws: &mut [u32],
    ks: &mut [u32],
    memory: &mut [u32],
    line: &mut [u8; LINE_KEPT],
    piece: &mut [u8],
    text: &mut [u8],
) -> io::Result<()>
    requires sheet_store { SheetStore h.old ws.old ks.old }
    requires in_bounds { SHEET_TEXT < length text.old }
{
    let mut at: usize = 0;
    for _ in 0..u64::MAX {
        let got = from.read(piece)?;
        if got == 0 {
            let n = sheet_feed::feed_end(h, ws, ks, memory, line, at, text);
            let _ = to.write_all(&text[..n]);
            return Ok(());
        }
        let w = feed_all(to, h, ws, ks, memory, line, at, &piece[..got], text);
        let Some(p) = w else {
            return Ok(());
        };
        at = p;
    }
    Ok(())
}

fn main(rt: HostRuntime) -> io::Result<()> {
    let mut h = [0u32; HEAD_WORDS];
    let mut ws = [0u32; SHEET_NODE_WORDS];
    let mut ks = [0u32; SHEET_CHILD_WORDS];
    sheet_calls::start(&mut h, &mut ws, &mut ks);
    let mut memory = [0u32; SHEET_MEMORY_WORDS];
    let mut line = [0u8; LINE_KEPT];
    let mut piece = [0u8; PIECE];
    let mut text = [0u8; TEXT];
    serve(
        &mut rt.stdin(),
        &mut rt.stdout(),
        &mut h,
        &mut ws,
        &mut ks,
        &mut memory,
        &mut line,
        &mut piece,
        &mut text,
    )
}

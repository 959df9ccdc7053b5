#![tactic(auto)]
// An input of program `sheet` that comes in pieces, as a pipe or a terminal hands it over. A piece is taken up to the end of the line that it goes on with; what
// such a line has so far is kept in a buffer of 256 bytes, and a line that is longer is bad however long it is. What each line prints is scope's `sheet_line`.
ghost use Rattle.std.specs.Prelude.{◌<◌, length};
ghost use Rattle.scope.specs.Limits.{SHEET_TEXT};
ghost use Rattle.sheet_calls.specs.Store.{SheetStore};
ghost use Rattle.sheet_feed.specs.Fed.{LineRan, Feeds, LastRan};

use append::Out;
use scope::MAX_LINE;

// "one over 255 bytes is a bad line": one byte more is enough to tell.
pub const LINE_KEPT: usize = MAX_LINE + 1;

// The piece ended before the line did, which then has so many bytes, or more than are kept. Or the line was run: the length of what it prints, newline
// included, and how many bytes of the piece it took.
#[derive(Clone, Copy)]
pub enum Fed {
    More(usize),
    Line(usize, usize),
}

// The line that was read is run, as far as it was kept: whole, or too long either way. What it prints, with its newline, stands at the front of `text`.
// Kept (6): a line and how much of it was read go in beside each other. Tried as one `&mut` struct of both in `feed`: covered, and proved by renaming, but no plainer:
// its clauses name a field more each, the new length is told by `Fed::More` as well, and the two functions that run a line only read it.
fn end_line(
    h: &mut [u32],
    ws: &mut [u32],
    ks: &mut [u32],
    memory: &mut [u32],
    line: &[u8; LINE_KEPT],
    at: usize,
    text: &mut [u8],
) -> usize
    requires sheet_store { SheetStore h.old ws.old ks.old }
    requires in_bounds { SHEET_TEXT < length text.old }
    ensures { LineRan h.old ws.old ks.old h.new ws.new ks.new
        line.now at text.new result }
{
    let e = sheet_lines::kept(line, at);
    let n = sheet_line::run_line(h, ws, ks, memory, &line[..e], text);
    text[n] = b'\n';
    n + 1
}

// A piece, up to its first newline. What the line printed, with its newline, stands at the front of `text`.
pub fn feed(
    h: &mut [u32],
    ws: &mut [u32],
    ks: &mut [u32],
    memory: &mut [u32],
    line: &mut [u8; LINE_KEPT],
    at: usize,
    piece: &[u8],
    text: &mut [u8],
) -> Fed
    requires sheet_store { SheetStore h.old ws.old ks.old }
    requires in_bounds { SHEET_TEXT < length text.old }
    ensures { Feeds h.old ws.old ks.old h.new ws.new ks.new
        line.old at line.new piece.now text.new result }
{
    let e = sheet_lines::line_end(piece, 0);
    let mut read = Out { buf: line, at };
    append::put(&mut read, &piece[..e]);
    let q = read.at;
    if piece.len() <= e {
        return Fed::More(q);
    }
    let took = e + 1;
    let n = end_line(h, ws, ks, memory, line, q, text);
    Fed::Line(n, took)
}

// The input ended: "a last line may lack its newline". What it prints, if there is one, stands at the front of `text`; the answer is its length.
pub fn feed_end(
    h: &mut [u32],
    ws: &mut [u32],
    ks: &mut [u32],
    memory: &mut [u32],
    line: &[u8; LINE_KEPT],
    at: usize,
    text: &mut [u8],
) -> usize
    requires sheet_store { SheetStore h.old ws.old ks.old }
    requires in_bounds { SHEET_TEXT < length text.old }
    ensures { LastRan h.old ws.old ks.old line.now at text.new result }
{
    if at == 0 {
        return 0;
    }
    end_line(h, ws, ks, memory, line, at, text)
}

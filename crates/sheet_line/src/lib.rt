#![tactic(auto)]
// One line of program `sheet` on the store that lent slices hold, over an empty chart: it is read and run, and what it prints and leaves is scope's `sheet_line`. Each line
// is a call on a tested store, since nobody else writes it. The memory is lent to the line's unify: any slice, whatever it holds.
ghost use Rattle.std.specs.Prelude.{◌≡◌, ◌≤◌, length};
ghost use Rattle.scope.specs.Limits.{SHEET_TEXT};
ghost use Rattle.scope.specs.Types.{ty_of};
ghost use Rattle.scope.specs.Sheet.{sheet_env, unify, parse};
ghost use Rattle.layout.specs.Words.{store_in};
ghost use Rattle.sound.specs.Tests.{env_lent};
ghost use Rattle.sheet_calls.specs.Store.{SheetStore};
ghost use Rattle.sheet_calls.specs.Ran.{Ran, Shown};

use call_unify::tested::unify_recalling;
use chart::{Env, NO_BESIDE};
use layout::{CHILD_WORDS, NODE_WORDS};
use names::Texts;
use recall::{ENTRY, HEAD};
use scope::{SHEET_CHILDREN, SHEET_NODES, SHEET_TEXT};
use sheet_lines::{Line, Types};
use types::Type;

// The words of the store's nodes and of its children.
pub const SHEET_NODE_WORDS: usize = NODE_WORDS * SHEET_NODES;

pub const SHEET_CHILD_WORDS: usize = CHILD_WORDS * SHEET_CHILDREN;

// The words of a memory with an entry for each pair of types, as `recall::words_for` says them: a type is a node or its inverse.
pub const SHEET_MEMORY_WORDS: usize = HEAD + ENTRY * (2 * SHEET_NODES) * (2 * SHEET_NODES);

// What is lent beside the store: a chart without records, no fn trait, four empty sigils, and two empty texts.
fn empty_env<'a>() -> Env<'a>
    ensures { env_lent result ≡ sheet_env }
{
    let texts = Texts {
        rule: b"",
        chart: b"",
    };
    Env {
        chart: &[],
        beside: NO_BESIDE,
        texts,
    }
}

// The line `show`: "its text buffer is 4,096 bytes", the first of `out`.
fn show_line(h: &[u32], ws: &[u32], ks: &[u32], t: Type, out: &mut [u8]) -> usize
    requires sheet_store { SheetStore h.now ws.now ks.now }
    requires in_bounds { SHEET_TEXT ≤ length out.old }
    ensures { Shown (store_in h.now ws.now ks.now) (ty_of t.0) out.old out.new result }
{
    let env = empty_env();
    let shown = call_show::tested::show(&env, h, ws, ks, t, &mut out[..SHEET_TEXT]);
    match shown {
        Ok(n) => n,
        Err(e) => sheet_say::put_refused(out, e),
    }
}

// The line `unify`.
fn unify_line(
    h: &[u32],
    ws: &mut [u32],
    ks: &[u32],
    memory: &mut [u32],
    a: Type,
    b: Type,
    out: &mut [u8],
) -> usize
    requires sheet_store { SheetStore h.now ws.old ks.now }
    requires in_bounds { SHEET_TEXT ≤ length out.old }
    ensures { Ran (store_in h.now ws.old ks.now) (unify (ty_of a.0) (ty_of b.0))
        h.now ws.old ks.now h.now ws.new ks.now out.old out.new result }
{
    let env = empty_env();
    let answer = unify_recalling(&env, h, ws, ks, memory, a, b);
    match answer {
        Ok(r) => sheet_say::put_unify(out, r),
        Err(e) => sheet_say::put_refused(out, e),
    }
}

// One line on the store that the slices hold. What it prints, without its newline, stands at the front of `out`; the answer is its length. The memory is any slice,
// whatever it holds: the longer it is, the more pairs of types a unify need not visit again.
pub fn run_line(
    h: &mut [u32],
    ws: &mut [u32],
    ks: &mut [u32],
    memory: &mut [u32],
    line: &[u8],
    out: &mut [u8],
) -> usize
    requires sheet_store { SheetStore h.old ws.old ks.old }
    requires in_bounds { SHEET_TEXT ≤ length out.old }
    ensures { Ran (store_in h.old ws.old ks.old) (parse line.now)
        h.old ws.old ks.old h.new ws.new ks.new out.old out.new result }
{
    let mut types = Types::new();
    match sheet_lines::parse_into(line, &mut types) {
        Line::Plain(p) => sheet_calls::plain_line(h, ws, ks, p, &types, out),
        Line::Unify(a, b) => unify_line(h, ws, ks, memory, a, b, out),
        Line::Show(t) => show_line(h, ws, ks, t, out),
    }
}

#![tactic(auto)]
// The store of program `sheet`, "over an empty chart with no fn trait", and the lines that give no types to unify or show: what one prints and leaves is scope's
// `sheet_line`. Each is a call on a tested store, since nobody else writes it: it is sound before a line and after it, so that lines follow one another.
//
// Kept (5): in this crate and in those above it a store is three lent slices, as `promise` says, and so `SheetStore` is a clause of each. That `out` has room for a text is
// a clause too: an array of exactly so many bytes would ask more of callers than a slice of at least so many, and `sheet` lends one byte more, for the newline.
ghost use Rattle.std.specs.Prelude.{◌≡◌, ◌≤◌, length};
ghost use Rattle.scope.specs.Limits.{SHEET_TEXT, SHEET_NODES, SHEET_CHILDREN};
ghost use Rattle.scope.specs.Sheet.{sheet_store};
ghost use Rattle.layout.specs.Words.{store_in};
ghost use Rattle.store.specs.Holds.{Openable};
ghost use Rattle.sheet_lines.specs.Meaning.{maker_means, MakerFits, plain_means, PlainFits};
ghost use Rattle.sheet_calls.specs.Store.{SheetStore};
ghost use Rattle.sheet_calls.specs.Ran.{Ran, Made};

use heads::Once;
use refusals::Refusal;
use scope::{NONE, SHEET_CHILDREN, SHEET_NODES};
use sheet_lines::{Maker, Plain};
use types::Type;

// The store before the first line: "`sheet` opens 256 nodes and 1,024 children", whatever the slices held.
pub fn start(h: &mut [u32], ws: &mut [u32], ks: &mut [u32])
    requires { Openable SHEET_NODES SHEET_CHILDREN h.old ws.old ks.old }
    ensures { (store_in h.new ws.new ks.new ≡ sheet_store) × SheetStore h.new ws.new ks.new }
{
    make::open(h, ws, ks, SHEET_NODES as u32, SHEET_CHILDREN as u32);
}

// The type that a line makes, over these types.
fn made(
    h: &mut [u32],
    ws: &mut [u32],
    ks: &mut [u32],
    m: Maker,
    types: &[u32],
) -> Result<Type, Refusal>
    requires sheet_store { SheetStore h.old ws.old ks.old }
    requires maker_fits { MakerFits m types.now }
    ensures { Made (store_in h.old ws.old ks.old) (maker_means m types.now)
        h.old ws.old ks.old h.new ws.new ks.new result }
{
    match m {
        Maker::Var => tested_lean::new_var(h, ws, NONE),
        Maker::Nil => tested_lean::once(h, ws, Once::Nil),
        Maker::Error => tested_lean::once(h, ws, Once::Error),
        Maker::Over(code) => {
            let chart = [0u32; 0];
            tested_over::new_over(&chart, h, ws, ks, code, 0, types)
        }
    }
}

// A line that gives no types to unify or show. What it prints, without its newline, stands at the front of `out`; the answer is its length.
pub fn plain_line(
    h: &mut [u32],
    ws: &mut [u32],
    ks: &mut [u32],
    p: Plain,
    types: &[u32],
    out: &mut [u8],
) -> usize
    requires sheet_store { SheetStore h.old ws.old ks.old }
    requires plain_fits { PlainFits p types.now }
    requires in_bounds { SHEET_TEXT ≤ length out.old }
    ensures { Ran (store_in h.old ws.old ks.old) (plain_means p types.now)
        h.old ws.old ks.old h.new ws.new ks.new out.old out.new result }
{
    match p {
        Plain::Make(m) => sheet_say::put_type(out, made(h, ws, ks, m, types)),
        Plain::Finish => {
            force::finish_inference(h, ws, ks);
            append::written(out, b"done")
        }
        Plain::Bad => append::written(out, b"bad line"),
    }
}

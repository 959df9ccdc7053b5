#![tactic(auto)]
// A whole input of program `sheet`, from bytes to bytes: what is printed is scope's `sheet`. The memory is lent to each line's unify: any slice, whatever it holds.
ghost use Rattle.scope.specs.Calls.{printed_text};
ghost use Rattle.scope.specs.Sheet.{sheet_store, sheet};
ghost use Rattle.promise.specs.Prints.{count_reply, PrintPromised};
ghost use Rattle.sheet_run.specs.Cuts.{CutIs};

use append::Out;
use layout::HEAD_WORDS;
use refusals::Refusal;
use scope::SHEET_TEXT;
use sheet_line::{SHEET_CHILD_WORDS, SHEET_NODE_WORDS};

// What is cut at each newline into an input's lines: all but the newline at its end, as "a last line may lack its newline".
fn cut(input: &[u8]) -> &[u8]
    ensures { CutIs input.now result.now }
{
    input.strip_suffix(b"\n").unwrap_or(input)
}

// A whole input, from bytes to bytes, with a memory for its unify, whatever it holds. Where the output does not fit, `buf` is filled with its first bytes, as a
// printer's buffer is.
pub fn run(input: &[u8], memory: &mut [u32], buf: &mut [u8]) -> Result<usize, Refusal>
    ensures { PrintPromised (printed_text sheet_store (sheet input.now) buf.old) (count_reply result) sheet_store buf.new }
{
    let mut h = [0u32; HEAD_WORDS];
    let mut ws = [0u32; SHEET_NODE_WORDS];
    let mut ks = [0u32; SHEET_CHILD_WORDS];
    sheet_calls::start(&mut h, &mut ws, &mut ks);
    let mut text = [0u8; SHEET_TEXT];
    let mut out = Out { buf, at: 0 };
    // A cut gives one line at least, and an empty input has none.
    if input.is_empty() {
        return call_show::tested::printed(&out);
    }
    for line in cut(input).split(|&b| b == b'\n') {
        let n = sheet_line::run_line(&mut h, &mut ws, &mut ks, memory, line, &mut text);
        append::put(&mut out, &text[..n]);
        append::put_byte(&mut out, b'\n');
    }
    call_show::tested::printed(&out)
}

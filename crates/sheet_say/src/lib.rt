#![tactic(auto)]
// What program `sheet` prints for an answer: "`=` and the node, unify's answer, the text, `done`, `refused` and a number, or `bad line`". The text stands at
// the front of a lent buffer, without its newline; the answer is its length.
ghost use Rattle.std.specs.Prelude.{◌≤◌, length};
ghost use Rattle.scope.specs.Limits.{SHEET_TEXT};
ghost use Rattle.scope.specs.Sheet.{answer_text};
ghost use Rattle.types.specs.Answers.{answer_of};
ghost use Rattle.refusals.specs.Codes.{number};
ghost use Rattle.sheet_say.specs.Front.{Front};
ghost use Rattle.sheet_say.specs.Texts.{refused_text, type_text};

use append::Out;
use refusals::Refusal;
use types::{Type, UnifyResult};

// "A refusal prints as `refused 3`."
// Kept (5): that a text has room is asked by four here, and by those above; why the buffer is no array, `sheet_calls` says.
pub fn put_number(buf: &mut [u8], n: u32) -> usize
    requires { SHEET_TEXT ≤ length buf.old }
    ensures { Front buf.old buf.new result (refused_text n) }
{
    let mut out = Out { buf, at: 0 };
    append::put(&mut out, b"refused ");
    append::put_decimal(&mut out, n);
    out.at
}

// The same of one of 01's thirteen.
pub fn put_refused(buf: &mut [u8], r: Refusal) -> usize
    requires { SHEET_TEXT ≤ length buf.old }
    ensures { Front buf.old buf.new result (refused_text (number r)) }
{
    put_number(buf, u32::from(r))
}

// "`=` and the node"
pub fn put_type(buf: &mut [u8], r: Result<Type, Refusal>) -> usize
    requires { SHEET_TEXT ≤ length buf.old }
    ensures { Front buf.old buf.new result (type_text r) }
{
    match r {
        Ok(t) => {
            let mut out = Out { buf, at: 0 };
            append::put(&mut out, b"=");
            append::put_decimal(&mut out, t.idx().0);
            out.at
        }
        Err(e) => put_refused(buf, e),
    }
}

// "unify's answer"
// Kept (4): a Display writes by a formatter; this is lent memory, of which the promise says every byte.
pub fn put_unify(buf: &mut [u8], r: UnifyResult) -> usize
    requires { SHEET_TEXT ≤ length buf.old }
    ensures { Front buf.old buf.new result (answer_text (answer_of r)) }
{
    match r {
        UnifyResult::Success => append::written(buf, b"Success"),
        UnifyResult::Failure => append::written(buf, b"Failure"),
        UnifyResult::Indeterminate => append::written(buf, b"Indeterminate"),
    }
}

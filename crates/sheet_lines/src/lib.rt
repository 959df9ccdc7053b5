#![tactic(auto)]
// A line of program `sheet`, read: "types as `3` or `~3`, one space between", and where a line ends. What each answer says is scope's `parse`.
ghost use Rattle.std.specs.Prelude.{◌≡◌, ◌&&◌, [], map, ◌-◌, ◌≤◌, min, leb, length};
ghost use Rattle.std.proofs.Math.Option.{some};
ghost use Rattle.scope.specs.Limits.{«MAX_DIGITS», «MAX_LINE»};
ghost use Rattle.scope.specs.Types.{ty_of};
ghost use Rattle.scope.specs.Sheet.{no_leading_zero, node_word, type_word, type_words, plain_line, one_type, two_types, with_types, parse};
ghost use Rattle.sheet_lines.specs.Places.{next_place, words_from};
ghost use Rattle.sheet_lines.specs.Meaning.{word_means, Parsed, PlainParsed, ReadIs, Unless, OneBeside};

use arrayvec::ArrayVec;
use kinds::{DEFAULT, NEVER, REF, TUPLE};
use names::same_bytes;
use scope::{MAX_DIGITS, MAX_LINE};
use types::{Inverted, Type, TypeIdx};

// A type takes a byte, and a space stands between two: no line has more types than this.
pub const LINE_TYPES: usize = 128;

// The types of a line, as words.
pub type Types = ArrayVec<u32, LINE_TYPES>;

// What a line makes. `never`, `default`, `tuple` and `ref` are a kind's code; the types that it is over are those read beside it.
#[derive(Clone, Copy)]
pub enum Maker {
    Var,
    Nil,
    Error,
    Over(u32),
}

// A line that gives no types to unify or show.
#[derive(Clone, Copy)]
pub enum Plain {
    Make(Maker),
    Finish,
    Bad,
}

#[derive(Clone, Copy)]
pub enum Line {
    Plain(Plain),
    Unify(Type, Type),
    Show(Type),
}

// What a digit's byte counts.
fn digit_of(d: u8) -> u32
    requires { 48 ≤ d }
    ensures { result ≡ d - 48 }
{
    (d - b'0') as u32
}

// The first place from `from` on where the byte stands, or the end.
fn next_place(s: &[u8], from: usize, byte: u8) -> usize
    ensures { result ≡ next_place byte s.now from }
{
    (from..s.len())
        .find(|&i| s[i] == byte)
        .unwrap_or(from.max(s.len()))
}

// How many bytes of a line a buffer holds that has `at` of it: all, or as many as there is room for.
pub fn kept(buffer: &[u8], at: usize) -> usize
    ensures { result ≡ min at (length buffer.now) }
{
    at.min(buffer.len())
}

// Where the line that starts at `from` ends: "a last line may lack its newline"
pub fn line_end(input: &[u8], from: usize) -> usize
    ensures { result ≡ next_place 10 input.now from }
{
    next_place(input, from, b'\n')
}

// "one to four decimal digits and no leading zero except `0` itself"
fn node_shape(w: &[u8]) -> bool
    ensures { result ≡ (leb (length w.now) «MAX_DIGITS» && no_leading_zero w.now) }
{
    match w {
        [] => false,
        [_] => true,
        [first, ..] => w.len() <= MAX_DIGITS && *first != b'0',
    }
}

fn node_of(inv: Inverted, w: &[u8]) -> Option<Type>
    ensures { word_means result ≡ node_word inv.0 w.now }
{
    if !node_shape(w) {
        return None;
    }
    let mut n: u32 = 0;
    // Kept (3): tried, and the proof did not close: `all` and then a `fold` of `n * 10 + digit_of(*d)`. The closure may be called only at a digit and at a small total, which wants
    // this loop's invariant over the items passed, and the answer of `all` besides; the search proved neither that nor the value.
    for d in w {
        if !d.is_ascii_digit() {
            return None;
        }
        n = n * 10 + digit_of(*d);
    }
    Some(Type::new(inv, TypeIdx(n)))
}

// "types as `3` or `~3`"
fn type_of(w: &[u8]) -> Option<Type>
    ensures { word_means result ≡ type_word w.now }
{
    match w {
        [] => None,
        [b'~', node @ ..] => node_of(Inverted(true), node),
        _ => node_of(Inverted(false), w),
    }
}

// The words from a place on, read as types into an empty list.
fn types_from(line: &[u8], from: usize, types: &mut Types) -> Option<()>
    requires { (length line.now ≤ «MAX_LINE») × (types.old.items ≡ []) }
    ensures { ReadIs result types.new.items (type_words (words_from line.now from)) }
{
    let Some(rest) = line.get(from..) else {
        return Some(());
    };
    for w in rest.split(|&b| b == b' ') {
        types.push(type_of(w)?.0);
    }
    Some(())
}

// A command without types
// Kept (4): here and below a match on byte strings was tried, and the proof did not close: a match decides byte by byte, in dozens of ends that know lengths alone.
fn plain_line(w: &[u8]) -> Plain
    ensures { PlainParsed result [] (plain_line w.now) }
{
    if same_bytes(w, b"var") {
        Plain::Make(Maker::Var)
    } else if same_bytes(w, b"nil") {
        Plain::Make(Maker::Nil)
    } else if same_bytes(w, b"never") {
        Plain::Make(Maker::Over(NEVER))
    } else if same_bytes(w, b"default") {
        Plain::Make(Maker::Over(DEFAULT))
    } else if same_bytes(w, b"error") {
        Plain::Make(Maker::Error)
    } else if same_bytes(w, b"finish") {
        Plain::Finish
    } else if same_bytes(w, b"tuple") {
        Plain::Make(Maker::Over(TUPLE))
    } else {
        Plain::Bad
    }
}

// A command with one type, that is no tuple
fn one_type(w: &[u8], t: Type) -> Line
    ensures { OneBeside result t w.now (one_type w.now (ty_of t.0)) }
{
    if same_bytes(w, b"ref") {
        Line::Plain(Plain::Make(Maker::Over(REF)))
    } else if same_bytes(w, b"show") {
        Line::Show(t)
    } else {
        Line::Plain(Plain::Bad)
    }
}

// A command with two types, that is no tuple
fn two_types(w: &[u8], t: Type, u: Type) -> Line
    ensures { Unless result w.now (two_types w.now (ty_of t.0) (ty_of u.0)) }
{
    if same_bytes(w, b"unify") {
        Line::Unify(t, u)
    } else {
        Line::Plain(Plain::Bad)
    }
}

// "`tuple` takes any number of types, none included; `ref` and `show` one; `unify` two; the rest none."
fn line_of(w: &[u8], types: &[u32]) -> Line
    ensures { Parsed result types.now (with_types w.now (some (map ty_of types.now))) }
{
    match types {
        [] => Line::Plain(plain_line(w)),
        _ if same_bytes(w, b"tuple") => Line::Plain(Plain::Make(Maker::Over(TUPLE))),
        [t] => one_type(w, Type(*t)),
        [t, u] => two_types(w, Type(*t), Type(*u)),
        _ => Line::Plain(Plain::Bad),
    }
}

// A line, its types read into an empty list. Of a line that is bad no type counts.
pub fn parse_into(line: &[u8], types: &mut Types) -> Line
    requires { types.old.items ≡ [] }
    ensures { Parsed result types.new.items (parse line.now) }
{
    if line.len() > MAX_LINE {
        return Line::Plain(Plain::Bad);
    }
    let e = next_place(line, 0, b' ');
    if types_from(line, e + 1, types).is_none() {
        return Line::Plain(Plain::Bad);
    }
    line_of(&line[..e], types)
}

// The same with a list of its own, beside the line.
pub fn parse(line: &[u8]) -> (Line, Types)
    ensures { Parsed result.0 result.1.items (parse line.now) }
{
    let mut types = ArrayVec::new();
    let l = parse_into(line, &mut types);
    (l, types)
}

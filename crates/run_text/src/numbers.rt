// A list of calls as text: decimal numbers with anything else between them; from '#' to the line's end is for the reader. Its numbers, and parts of them.
ghost use Rattle.std.specs.Prelude.{◌≡◌, ◌≤◌, length};

use arrayvec::ArrayVec;

const NEWLINE: u8 = b'\n';

const HASH: u8 = b'#';

const ZERO: u8 = b'0';

// What is being read: a number, of which this is read, a remark, or neither.
#[derive(Clone, Copy)]
enum Reading {
    Between,
    Number(u32),
    Remark,
}

// One digit more. A number past a u32 keeps its low bits.
fn with_digit(value: u32, b: u8) -> u32 {
    if b < ZERO {
        return value;
    }
    let v = u64::from(value) * 10 + u64::from(b - ZERO);
    (v % 4_294_967_296) as u32
}

// Behind a byte that is no digit.
fn between(b: u8) -> Reading {
    if b == HASH {
        Reading::Remark
    } else {
        Reading::Between
    }
}

// What is being read after one byte more. A number that ends there goes to those before, if there is room.
fn step<const N: usize>(out: &mut ArrayVec<u32, N>, reading: Reading, b: u8) -> Reading {
    match reading {
        Reading::Remark if b != NEWLINE => reading,
        Reading::Remark => between(b),
        Reading::Number(n) if b.is_ascii_digit() => Reading::Number(with_digit(n, b)),
        Reading::Number(n) => {
            let _ = out.try_push(n);
            between(b)
        }
        Reading::Between if b.is_ascii_digit() => Reading::Number(with_digit(0, b)),
        Reading::Between => between(b),
    }
}

// The numbers of the text, or the first N. The text ends with a newline.
pub fn numbers<const N: usize>(text: &[u8]) -> ArrayVec<u32, N> {
    let mut out = ArrayVec::new();
    let mut reading = Reading::Between;
    for &b in text {
        reading = step(&mut out, reading, b);
    }
    out
}

// The numbers from a on.
pub fn after(s: &[u32], a: usize) -> &[u32] {
    &s[a.min(s.len())..]
}

// The first n numbers, or all.
pub fn first(s: &[u32], n: usize) -> &[u32] {
    &s[..n.min(s.len())]
}

// The numbers as bytes, and how many.
pub fn to_bytes(s: &[u32], out: &mut [u8]) -> usize
    ensures { result ≤ length out.new }
{
    let n = s.len().min(out.len());
    for (b, &w) in out.iter_mut().zip(s) {
        *b = (w % 256) as u8;
    }
    n
}

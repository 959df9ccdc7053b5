#![tactic(auto)]
// Bytes appended to a text in a lent buffer. A place above the buffer's length says that the text did not fit; a full buffer is left alone, so
// pieces may follow one another without a test between them.
ghost use Rattle.std.specs.Prelude.{◌≡◌, [], ◌∷◌, ltb, length};
ghost use Rattle.scope.specs.Show.{decimal};
ghost use Rattle.append.specs.Appended.{Appended, Puts};

use itoa::Buffer;

// A lent buffer and the place that a text in it has come to.
#[derive(Drop)]
pub struct Out<'a> {
    pub buf: &'a mut [u8],
    pub at: usize,
}

// The text did not fit.
pub fn is_full(out: &Out<'_>) -> bool
    ensures { result ≡ ltb (length out.now.buf.now) out.now.at }
{
    out.buf.len() < out.at
}

// As many of the piece's bytes as there is room for. An empty piece, which many are, is told at once.
pub fn put(out: &mut Out<'_>, piece: &[u8])
    ensures { Puts out.old out.new piece.now }
{
    if is_full(out) || piece.is_empty() {
        return;
    }
    let room = out.buf.len() - out.at;
    if room < piece.len() {
        out.buf[out.at..].copy_from_slice(&piece[..room]);
        out.at = out.buf.len() + 1;
        return;
    }
    out.buf[out.at..out.at + piece.len()].copy_from_slice(piece);
    out.at += piece.len();
}

pub fn put_byte(out: &mut Out<'_>, b: u8)
    ensures { Puts out.old out.new (b ∷ []) }
{
    put(out, &[b]);
}

// "Node numbers are decimal"
pub fn put_decimal(out: &mut Out<'_>, n: u32)
    ensures { Puts out.old out.new (decimal n) }
{
    put(out, Buffer::new().format(n).as_bytes());
}

// One piece at the front of a buffer: where it ends.
pub fn written(buf: &mut [u8], piece: &[u8]) -> usize
    ensures { Appended buf.old 0 buf.new result piece.now }
{
    let mut out = Out { buf, at: 0 };
    put(&mut out, piece);
    out.at
}

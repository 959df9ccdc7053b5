#![tactic(auto)]
// "A name is a part of the rule text or of the chart text, compared as bytes." Its lookup returns a part of one of the two lent slices. No call here asks anything of its arguments.
ghost use Rattle.std.specs.Prelude.{◌≡◌, take, drop};
ghost use Rattle.scope.specs.Names.{text_of, bytes, in_text, name_ok, eq_bytes, lt_bytes};
ghost use Rattle.names.specs.Place.{name_of, texts_by};

use scope::MAX_NAME;

// text 0 is the rule text, any other number the chart text. C lends names in a chart's records, so the fields lie as C's do.
// Kept (4): no `From<[u32; 3]>`: where words become a name, or a name words, the fields say which word is which.
#[repr(C)]
#[derive(Clone, Copy, Debug, PartialEq, Eq)]
pub struct Name {
    pub text: u32,
    pub start: u32,
    pub len: u32,
}

// What stands where there is no name.
// Kept (1): a name is three words of a store or a chart, and none is three words too: an Option would say it twice.
pub const NO_NAME: Name = Name {
    text: 0,
    start: 0,
    len: 0,
};

// The two texts that names are parts of.
#[derive(Clone, Copy)]
pub struct Texts<'a> {
    pub rule: &'a [u8],
    pub chart: &'a [u8],
}

fn text_of<'a>(text: u32, texts: &Texts<'a>) -> &'a [u8]
    ensures { result.now ≡ text_of (texts_by texts.now) text }
{
    match text {
        0 => texts.rule,
        _ => texts.chart,
    }
}

// A start or an end past the slice is taken for the slice's end.
fn part(s: &[u8], start: usize, len: usize) -> &[u8]
    ensures { result.now ≡ take len (drop start s.now) }
{
    let rest = &s[start.min(s.len())..];
    &rest[..len.min(rest.len())]
}

pub fn bytes_of<'a>(n: Name, texts: &Texts<'a>) -> &'a [u8]
    ensures { result.now ≡ bytes (texts_by texts.now) (name_of n) }
{
    part(text_of(n.text, texts), n.start as usize, n.len as usize)
}

// The library looks at the first four bytes, and then, behind a call, at 64 at a time, with no end at the first that differs: so a search among many names is fast, and
// little of it stands in the frame of whoever compares.
#[tactic(auto, using(crate::proofs::Laws::pointwise_same))]
pub fn same_bytes(a: &[u8], b: &[u8]) -> bool
    ensures { result ≡ eq_bytes a.now b.now }
{
    a == b
}

// Byte by byte, unsigned, up to the first that differs; a prefix comes first.
// Kept (4): by the slices' `<` a byte takes twice the instructions, and by a `for` over `zip` a third more. An object's names are compared in each test of its store.
pub fn before(a: &[u8], b: &[u8]) -> bool
    ensures { result ≡ lt_bytes a.now b.now }
{
    for i in 0..a.len().min(b.len()) {
        if a[i] != b[i] {
            return a[i] < b[i];
        }
    }
    a.len() < b.len()
}

pub fn same_name(a: Name, b: Name, texts: &Texts<'_>) -> bool
    ensures { result ≡ eq_bytes (bytes (texts_by texts.now) (name_of a)) (bytes (texts_by texts.now) (name_of b)) }
{
    same_bytes(bytes_of(a, texts), bytes_of(b, texts))
}

pub fn name_before(a: Name, b: Name, texts: &Texts<'_>) -> bool
    ensures { result ≡ lt_bytes (bytes (texts_by texts.now) (name_of a)) (bytes (texts_by texts.now) (name_of b)) }
{
    before(bytes_of(a, texts), bytes_of(b, texts))
}

// The sum is taken in 64 bits, where it does not wrap.
pub fn in_text(n: Name, texts: &Texts<'_>) -> bool
    ensures { result ≡ in_text (texts_by texts.now) (name_of n) }
{
    let end = n.start as usize + n.len as usize;
    match n.text {
        0 => end <= texts.rule.len(),
        1 => end <= texts.chart.len(),
        _ => false,
    }
}

// "names and paths 1 to 255 bytes"
pub fn name_ok(n: Name, texts: &Texts<'_>) -> bool
    ensures { result ≡ name_ok (texts_by texts.now) (name_of n) }
{
    in_text(n, texts) && n.len >= 1 && n.len as usize <= MAX_NAME
}

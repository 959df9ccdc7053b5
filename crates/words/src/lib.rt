#![tactic(auto)]
// A lent slice by its places, where past the end there is nothing: what is read there is 0, and nothing is put.
ghost use Rattle.std.specs.Prelude.{◌≡◌, get_or, set};

// The i-th word, and 0 past the end.
pub fn word(s: &[u32], i: usize) -> u32
    ensures { result ≡ get_or s.now i 0 }
{
    s.get(i).copied().unwrap_or(0)
}

// Past the end of a table nothing is put.
pub fn put<T: Copy>(table: &mut [T], at: usize, x: T)
    ensures { table.new ≡ set table.old at x }
{
    if at < table.len() {
        table[at] = x;
    }
}

#![tactic(auto)]
// The store's own layer, between its words and the calls. specs/Holds says what it is that three lent slices hold a store, and what a core function
// leaves of them; proofs/Laws has the steps from one such store to the next. Beside it stand lists that are lent, an entry of four words a child.
ghost use Rattle.std.specs.Prelude.{◌≡◌};
ghost use Rattle.store.specs.Entries.{entry_count};
ghost use Rattle.store.specs.Bare.{bare_kind};

use layout::{CHILD_WORDS, Kind};
use names::NO_NAME;

// How many whole entries lent words hold.
pub fn entry_count(es: &[u32]) -> usize
    ensures { result ≡ entry_count es.now }
{
    es.len() / CHILD_WORDS
}

// A kind without number, names or children.
pub fn bare_kind(code: u32) -> Kind
    ensures { result ≡ bare_kind code }
{
    Kind {
        code,
        number: 0,
        dual: false,
        flex: 0,
        name: NO_NAME,
        first: 0,
        count: 0,
    }
}

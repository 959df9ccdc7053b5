#![tactic(auto)]
// The chart as a slice of structs: "The chart is a lent slice of records, one for each definition". `load` writes the words that every call takes, ten a
// record, over any records at all; two readers copy a record, or its sort, out. Nothing else takes the slice: everything above works on words.
ghost use Rattle.std.specs.Prelude.{◌≡◌, ◌+◌, ◌*◌, ◌≤◌, ◌<◌, length, get_or};
ghost use Rattle.std.proofs.lemmas.List.Edits.{sets};
ghost use Rattle.chart.specs.Words.{«RECORD_WORDS»};
ghost use Rattle.refusals.specs.Codes.{told};
ghost use Rattle.records.specs.Loaded.{no_record, numbers, loaded, LoadPromised};

use chart::RECORD_WORDS;
use names::Name;
use refusals::Refusal;

// "sort (opaque, struct, enum, union, concrete fn, const, trait, trait fn: 0 to 7), name, path, def number, self-dual flag 0 or 1, and for a trait fn its
// trait; a flag or trait that its sort lacks is 0". Its words stand in this order.
#[repr(C)]
#[derive(Clone, Copy)]
pub struct Record {
    pub sort: u32,
    pub name: Name,
    pub path: Name,
    pub def: u32,
    pub dual: u32,
    pub trait_number: u32,
}

// The record of definition i.
pub fn record_at(records: &[Record], i: usize) -> Record
    requires { i < length records.now }
    ensures { result ≡ get_or records.now i no_record }
{
    records[i]
}

// The sort of definition i.
pub fn sort_at(records: &[Record], i: usize) -> u32
    requires { i < length records.now }
    ensures { result ≡ (get_or records.now i no_record).sort }
{
    records[i].sort
}

// Writes a record's ten words from a place on.
fn put_record(words: &mut [u32], at: usize, r: Record)
    requires { at + «RECORD_WORDS» ≤ length words.old }
    ensures { words.new ≡ sets words.old at (numbers r) }
{
    words[at..at + RECORD_WORDS].copy_from_slice(&[
        r.sort,
        r.name.text,
        r.name.start,
        r.name.len,
        r.path.text,
        r.path.start,
        r.path.len,
        r.def,
        r.dual,
        r.trait_number,
    ]);
}

// Writes the words of all records, which have room.
fn copy_all(records: &[Record], words: &mut [u32])
    requires { length records.now * «RECORD_WORDS» ≤ length words.old }
    ensures { words.new ≡ loaded words.old records.now }
{
    // Kept (3): tried over `chunks_exact_mut` with a zip: after it a proof knows the length of `words` and not its elements, so that the promise stays open.
    for (i, r) in records.iter().enumerate() {
        put_record(words, i * RECORD_WORDS, *r);
    }
}

// Writes the words of all records, at the front. "7. the answer's buffer is too short"; words past them are as found, and on 7 all are.
pub fn load(records: &[Record], words: &mut [u32]) -> Result<(), Refusal>
    ensures { LoadPromised records.now words.old words.new (told result) }
{
    if words.len() / RECORD_WORDS < records.len() {
        return Err(Refusal::Short);
    }
    copy_all(records, words);
    Ok(())
}

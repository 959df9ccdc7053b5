// How large the buffers are, the chart from records, and opening and testing a store and a names buffer.
ghost use Rattle.std.specs.Prelude.{◌≡◌, ◌*◌, leb, length};
ghost use Rattle.scope.specs.Base.{pick};
ghost use Rattle.scope.specs.Limits.{«MAX_NODES»};
ghost use Rattle.scope.specs.Calls.{first_broken, lent_tests, open_call};
ghost use Rattle.scope.specs.States.{book_tests, open_names_call};
ghost use Rattle.chart.specs.Words.{«RECORD_WORDS»};
ghost use Rattle.layout.specs.Words.{HEAD_WORDS, node_words, child_words, lent_of};
ghost use Rattle.book.specs.Words.{book_words, lent_book_of};
ghost use Rattle.recall.specs.Memory.{words_for};
ghost use Rattle.refusals.specs.Opening.{enough};
ghost use Rattle.promise.specs.Promise.{Promised};
ghost use Rattle.call_states.specs.Promise.{NamesOpened};
ghost use Rattle.records.specs.Loaded.{LoadPromised};
ghost use Rattle.c_words.specs.Numbers.{done_in, refusal_in};
ghost use Rattle.c_words.specs.Given.{lent_env};

use book::Room;
use chart::RECORD_WORDS;
use layout::HEAD_WORDS;
use records::Record;

// The words that a store's header takes.
#[unsafe(no_mangle)]
pub extern "C" fn faroalder_header_words() -> usize
    ensures { result ≡ HEAD_WORDS }
{
    HEAD_WORDS
}

// The words that so many nodes take, so many children, and the chart of so many records.
#[unsafe(no_mangle)]
pub extern "C" fn faroalder_node_words(nodes: u32) -> usize
    ensures { result ≡ node_words nodes }
{
    layout::node_words(nodes)
}

#[unsafe(no_mangle)]
pub extern "C" fn faroalder_child_words(children: u32) -> usize
    ensures { result ≡ child_words children }
{
    layout::child_words(children)
}

#[unsafe(no_mangle)]
pub extern "C" fn faroalder_record_words(records: u32) -> usize
    ensures { result ≡ records * «RECORD_WORDS» }
{
    records as usize * RECORD_WORDS
}

// The words of a memory in which every pair of types of so many nodes has a place; 0 where no store has so many nodes.
#[unsafe(no_mangle)]
pub extern "C" fn faroalder_memory_words(nodes: u32) -> usize
    ensures { result ≡ pick (leb nodes «MAX_NODES») (words_for nodes) 0 }
{
    call_unify::memory_words(nodes)
}

// The words of a names buffer for so many nodes and children.
#[unsafe(no_mangle)]
pub extern "C" fn faroalder_names_words(nodes: u32, children: u32) -> usize
    ensures { result ≡ book_words nodes children }
{
    Room { nodes, children }.book_words()
}

// The chart's words from records: 0, or 7 where there is too little room for them.
#[unsafe(no_mangle)]
pub extern "C" fn faroalder_load(records: &[Record], words: &mut [u32]) -> u32
    ensures { LoadPromised records.now words.old words.new (refusal_in result) }
{
    c_words::refusal_number(records::load(records, words))
}

// A store without nodes, whatever the slices held.
#[unsafe(no_mangle)]
pub extern "C" fn faroalder_open(
    h: &mut [u32],
    ws: &mut [u32],
    ks: &mut [u32],
    nodes: u32,
    children: u32,
) -> u64
    ensures { Promised
        (open_call nodes children (enough nodes children h.old ws.old ks.old))
        (done_in result) h.old ws.old ks.old h.new ws.new ks.new }
{
    c_words::done_number(call_open::open(h, ws, ks, nodes, children))
}

// The test of chart, texts and store: 2, 8, or 0 where they pass.
#[unsafe(no_mangle)]
pub extern "C" fn faroalder_refusal<'a>(
    chart: &[u32],
    fn_trait: u32,
    sigils: &[u32; 12],
    rule: &'a [u8],
    text: &'a [u8],
    h: &[u32],
    ws: &[u32],
    ks: &[u32],
) -> u32
    ensures { first_broken
        (lent_tests (lent_env chart.now fn_trait sigils.now rule.now text.now)
        (lent_of h.now ws.now ks.now))
        ≡ refusal_in result }
{
    let env = c_words::env_of(chart, fn_trait, sigils, rule, text);
    c_words::refusal_number(sound::lent(&env, h, ws, ks))
}

// A names buffer without a name, whatever the slice held: 1 where a capacity is above its limit or the slice is too short.
#[unsafe(no_mangle)]
pub extern "C" fn faroalder_open_names(bs: &mut [u32], nodes: u32, children: u32) -> u64
    ensures { NamesOpened (open_names_call nodes children (leb (book_words nodes children) (length bs.old)))
        (done_in result) bs.old bs.new }
{
    c_words::done_number(call_states::open_names(bs, nodes, children))
}

// The test of chart, texts, store and names buffer: 2, 8, or 0 where they pass.
#[unsafe(no_mangle)]
pub extern "C" fn faroalder_names_refusal<'a>(
    chart: &[u32],
    fn_trait: u32,
    sigils: &[u32; 12],
    rule: &'a [u8],
    text: &'a [u8],
    h: &[u32],
    ws: &[u32],
    ks: &[u32],
    bs: &[u32],
) -> u32
    ensures { first_broken
        (book_tests (lent_env chart.now fn_trait sigils.now rule.now text.now)
        (lent_of h.now ws.now ks.now) (lent_book_of bs.now))
        ≡ refusal_in result }
{
    let env = c_words::env_of(chart, fn_trait, sigils, rule, text);
    c_words::refusal_number(book_sound::lent(&env, h, ws, ks, bs))
}

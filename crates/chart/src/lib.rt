#![tactic(auto)]
// The chart's records on plain numbers, what stands beside the chart, and the test of chart and texts. One function, word, reads the chart; a definition
// that the chart lacks reads as a record of no sort.
ghost use Rattle.std.specs.Prelude.{◌≡◌, [], ◌≤◌, ◌<◌, ◌+◌, length, get_or};
ghost use Rattle.scope.specs.Base.{all};
ghost use Rattle.scope.specs.Limits.{«MAX_RECORDS»};
ghost use Rattle.scope.specs.Names.{texts_ok};
ghost use Rattle.scope.specs.Chart.{record_at, sort_at, dual_at, is_trait, sigil_at, flag_ok, trait_ok, record_ok, sigil_ok, sigils_ok, fn_trait_ok};
ghost use Rattle.names.specs.Place.{name_of, texts, texts_by};
ghost use Rattle.chart.specs.Words.{«RECORD_WORDS», name_at, words_of, records_of};
ghost use Rattle.chart.specs.Env.{env_of, env_by, chart_alone, chart_words_ok, chart_lent};

use kinds::{NO_SORT, STRUCT_SORT, TRAIT_FN_SORT, TRAIT_SORT, UNION_SORT};
use names::{NO_NAME, Name, Texts};
use scope::{MAX_NAME, MAX_RECORDS, MAX_TEXT, NONE};

pub const RECORD_WORDS: usize = 10;

// "the four texts of `sigil` for `Flex`"
pub const SIGILS: usize = 4;

// Where a record's fields stand in its ten words. A name or path takes three: text, start, length.
const SORT_FIELD: usize = 0;

const NAME_FIELD: usize = 1;

const PATH_FIELD: usize = 4;

const DEF_FIELD: usize = 7;

const DUAL_FIELD: usize = 8;

const TRAIT_FIELD: usize = 9;

// The number of the builtin fn trait, and the four sigils in Flex's order.
// Kept (1): scope's env has the number itself, where 4,294,967,295 is none: a Some of that number would be none too, and so an Option would say none twice.
#[derive(Clone, Copy)]
pub struct Beside {
    pub fn_trait: u32,
    pub sigils: [Name; SIGILS],
}

pub const NO_BESIDE: Beside = Beside {
    fn_trait: NONE,
    sigils: [NO_NAME; SIGILS],
};

// What every call reads: the chart's words, what stands beside them, and the two texts.
#[derive(Clone, Copy)]
pub struct Env<'a> {
    pub chart: &'a [u32],
    pub beside: Beside,
    pub texts: Texts<'a>,
}

pub fn record_count(chart: &[u32]) -> usize
    ensures { result ≡ length (records_of chart.now) }
{
    chart.len() / RECORD_WORDS
}

// "A definition's number is its record's place, from 0."
// Kept (5): the chart and a record's number go beside each other: nothing is asked of the two, and what lies in a store is the number.
fn word(chart: &[u32], n: u32, field: usize) -> u32
    requires { field < «RECORD_WORDS» }
    ensures { result ≡ get_or (words_of (record_at (chart_alone chart.now) n)) field 0 }
{
    let i = n as usize;
    if i < record_count(chart) {
        chart[i * RECORD_WORDS + field]
    } else if field == SORT_FIELD {
        NO_SORT
    } else {
        0
    }
}

fn record_name(chart: &[u32], n: u32, field: usize) -> Name
    requires { field + 2 < «RECORD_WORDS» }
    ensures { name_of result ≡ name_at field (words_of (record_at (chart_alone chart.now) n)) }
{
    Name {
        text: word(chart, n, field),
        start: word(chart, n, field + 1),
        len: word(chart, n, field + 2),
    }
}

pub fn sort_at(chart: &[u32], n: u32) -> u32
    ensures { result ≡ sort_at (chart_alone chart.now) n }
{
    word(chart, n, SORT_FIELD)
}

pub fn name_at(chart: &[u32], n: u32) -> Name
    ensures { name_of result ≡ (record_at (chart_alone chart.now) n).name }
{
    record_name(chart, n, NAME_FIELD)
}

pub fn path_at(chart: &[u32], n: u32) -> Name
    ensures { name_of result ≡ (record_at (chart_alone chart.now) n).path }
{
    record_name(chart, n, PATH_FIELD)
}

pub fn def_at(chart: &[u32], n: u32) -> u32
    ensures { result ≡ (record_at (chart_alone chart.now) n).def }
{
    word(chart, n, DEF_FIELD)
}

pub fn dual_at(chart: &[u32], n: u32) -> bool
    ensures { result ≡ dual_at (chart_alone chart.now) n }
{
    word(chart, n, DUAL_FIELD) == 1
}

pub fn trait_at(chart: &[u32], n: u32) -> u32
    ensures { result ≡ (record_at (chart_alone chart.now) n).trait }
{
    word(chart, n, TRAIT_FIELD)
}

pub fn is_trait(chart: &[u32], n: u32) -> bool
    ensures { result ≡ is_trait (chart_alone chart.now) n }
{
    sort_at(chart, n) == TRAIT_SORT
}

// A number over 3 is no Flex and gives the empty name.
pub fn sigil_at(beside: Beside, flex: u32) -> Name
    ensures { name_of result ≡ sigil_at (env_of [] beside [] []) flex }
{
    beside.sigils.get(flex as usize).copied().unwrap_or(NO_NAME)
}

// "a flag or trait that its sort lacks is 0"
fn flag_ok(chart: &[u32], n: u32) -> bool
    ensures { result ≡ flag_ok (record_at (chart_alone chart.now) n) }
{
    let dual = word(chart, n, DUAL_FIELD);
    match sort_at(chart, n) {
        STRUCT_SORT | UNION_SORT => dual <= 1,
        _ => dual == 0,
    }
}

fn trait_ok(chart: &[u32], n: u32) -> bool
    ensures { result ≡ trait_ok (chart_alone chart.now) (record_at (chart_alone chart.now) n) }
{
    let t = trait_at(chart, n);
    match sort_at(chart, n) {
        TRAIT_FN_SORT => is_trait(chart, t),
        _ => t == 0,
    }
}

fn record_ok(env: &Env<'_>, n: u32) -> bool
    ensures { result ≡ record_ok (chart_lent env.now) (record_at (chart_alone env.now.chart.now) n) }
{
    sort_at(env.chart, n) <= TRAIT_FN_SORT
        && names::name_ok(name_at(env.chart, n), &env.texts)
        && names::name_ok(path_at(env.chart, n), &env.texts)
        && flag_ok(env.chart, n)
        && trait_ok(env.chart, n)
}

fn records_ok(env: &Env<'_>) -> bool
    requires { length (records_of env.now.chart.now) ≤ «MAX_RECORDS» }
    ensures { result ≡ all (record_ok (chart_lent env.now)) (records_of env.now.chart.now) }
{
    let count = record_count(env.chart) as u32;
    (0..count).all(|n| record_ok(env, n))
}

// It lies in its text and is no longer than a name may be.
fn sigil_ok(sigil: Name, texts: &Texts<'_>) -> bool
    ensures { result ≡ sigil_ok (texts_by texts.now) (name_of sigil) }
{
    names::in_text(sigil, texts) && sigil.len as usize <= MAX_NAME
}

// "the four texts of `sigil` for `Flex`, which alone may be empty"
fn sigils_ok(env: &Env<'_>) -> bool
    ensures { result ≡ sigils_ok (env_by env.now) }
{
    env.beside
        .sigils
        .iter()
        .all(|&sigil| sigil_ok(sigil, &env.texts))
}

// "4,294,967,295: none; any other must be a trait's record"
fn fn_trait_ok(chart: &[u32], beside: Beside) -> bool
    ensures { result ≡ fn_trait_ok (env_of chart.now beside [] []) }
{
    beside.fn_trait == NONE || is_trait(chart, beside.fn_trait)
}

fn texts_ok(texts: &Texts<'_>) -> bool
    ensures { result ≡ texts_ok (texts_by texts.now) }
{
    texts.rule.len() <= MAX_TEXT && texts.chart.len() <= MAX_TEXT
}

// Whether refusal 2 does not stand: "chart or texts break a limit, sort, flag or range".
pub fn chart_ok(env: &Env<'_>) -> bool
    ensures { result ≡ chart_words_ok env.now.chart.now env.now.beside env.now.texts.rule.now env.now.texts.chart.now }
{
    env.chart.len() % RECORD_WORDS == 0
        && record_count(env.chart) <= MAX_RECORDS
        && texts_ok(&env.texts)
        && records_ok(env)
        && fn_trait_ok(env.chart, env.beside)
        && sigils_ok(env)
}

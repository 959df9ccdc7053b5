#![tactic(auto)]
// What a caller in another language gives and gets, as numbers. A type is its word; a public call answers a value's number, which is below 4,294,967,296, or
// the sum of 4,294,967,296 and a refusal's number.
ghost use Rattle.std.specs.Prelude.{◌≡◌, true, ◌+◌, ◌<◌, MatchResult};
ghost use Rattle.scope.specs.Limits.{«SIGILS»};
ghost use Rattle.refusals.specs.Codes.{number, told};
ghost use Rattle.promise.specs.Promise.{type_reply, bool_reply, done_reply};
ghost use Rattle.promise.specs.Prints.{count_reply};
ghost use Rattle.call_unify.specs.Answers.{unify_reply};
ghost use Rattle.c_words.specs.Numbers.{«REFUSED», type_in, done_in, bool_in, unify_in, count_in, count_low, refusal_in, counted};
ghost use Rattle.c_words.specs.Given.{sigil_in, env_of, set_in, list_if, inverted_in, impl_in, kind_args_in};

use chart::{Beside, Env};
use lent_kind::KindArgs;
use names::{Name, Texts};
use refusals::Refusal;
use scope::NONE;
use types::{Impl, Inverted, Type, UnifyResult};

// Refusal n is this and n; every value is below.
pub const REFUSED: u64 = 4_294_967_296;

// The longest text that a length below that can tell.
const LONGEST: usize = 4_294_967_295;

// A Flex's sigil: its text, where it starts there and how long it is are three words of the twelve.
// Kept (6): C lends the four sigils as words, which become names here. A reference to four `Name`s would cross as the same twelve words, but then no contract would say
// which word is which: the order of that struct's fields alone would.
fn sigil_of(words: &[u32; 12], flex: usize) -> Name
    requires { flex < «SIGILS» }
    ensures { result ≡ sigil_in words.now flex }
{
    let at = flex * 3;
    Name {
        text: words[at],
        start: words[at + 1],
        len: words[at + 2],
    }
}

// What every call reads: the chart's words, the number of the builtin fn trait and the twelve words of the four sigils, and the two texts.
pub fn env_of<'a>(
    chart: &'a [u32],
    fn_trait: u32,
    sigils: &[u32; 12],
    rule: &'a [u8],
    text: &'a [u8],
) -> Env<'a>
    ensures { result ≡ env_of chart.entry fn_trait sigils.now rule.entry text.entry }
{
    Env {
        chart,
        beside: Beside {
            fn_trait,
            sigils: [
                sigil_of(sigils, 0),
                sigil_of(sigils, 1),
                sigil_of(sigils, 2),
                sigil_of(sigils, 3),
            ],
        },
        texts: Texts { rule, chart: text },
    }
}

// Any number but 0 is yes.
pub fn is_set(n: u32) -> bool
    ensures { result ≡ set_in n }
{
    n != 0
}

pub fn inverted_of(n: u32) -> Inverted
    ensures { result ≡ inverted_in n }
{
    Inverted(is_set(n))
}

// A list that may be absent: with 0 beside it, what is lent says nothing.
pub fn list_if(listed: u32, list: &[u32]) -> Option<&[u32]>
    ensures { result ≡ list_if listed list.entry }
{
    is_set(listed).then_some(list)
}

// A trait over the list, or an error, beside which the list says nothing: no chart has so many records that a trait has its number.
pub fn impl_of(n: u32, list: &[u32]) -> Impl<'_>
    ensures { result ≡ impl_in n list.entry }
{
    if n == NONE {
        return Impl::Error;
    }
    Impl::Trait(n, list)
}

pub fn kind_args(
    code: u32,
    number: u32,
    flex: u32,
    name_text: u32,
    name_start: u32,
    name_len: u32,
) -> KindArgs
    ensures { result ≡ kind_args_in code number flex name_text name_start name_len }
{
    KindArgs {
        code,
        number,
        flex,
        name: Name {
            text: name_text,
            start: name_start,
            len: name_len,
        },
    }
}

// A refusal as an answer.
pub fn refused(r: Refusal) -> u64
    ensures { result ≡ «REFUSED» + number r }
{
    REFUSED + u64::from(u32::from(r))
}

// A refusal's own number, or 0 where none stands.
pub fn refusal_number(a: Result<(), Refusal>) -> u32
    ensures { refusal_in result ≡ told a }
{
    a.err().map_or(0, u32::from)
}

// A value's number, or a refusal's over all of these.
fn answer_number(a: Result<u32, Refusal>) -> u64
    ensures { MatchResult a (λ n. (result ≡ n) × (n < «REFUSED»)) (λ r. result ≡ «REFUSED» + number r) }
{
    a.map_or_else(refused, u64::from)
}

pub fn type_number(a: Result<Type, Refusal>) -> u64
    ensures { type_in result ≡ type_reply a }
{
    answer_number(a.map(|t| t.0))
}

pub fn done_number(a: Result<(), Refusal>) -> u64
    ensures { done_in result ≡ done_reply a }
{
    answer_number(a.map(|()| 0))
}

pub fn bool_number(a: Result<bool, Refusal>) -> u64
    ensures { bool_in result ≡ bool_reply a }
{
    answer_number(a.map(u32::from))
}

pub fn unify_number(a: Result<UnifyResult, Refusal>) -> u64
    ensures { unify_in result ≡ unify_reply a }
{
    answer_number(a.map(u32::from))
}

// A length as a number; that it is below 4,294,967,296 callers say.
pub fn count_number(a: Result<usize, Refusal>) -> u64
    requires { count_low a ≡ true }
    ensures { count_in result ≡ count_reply a }
{
    answer_number(a.map(|n| n as u32))
}

// How much of a buffer a printer uses: all that a length can tell.
pub fn counted(room: usize) -> usize
    ensures { result ≡ counted room }
{
    room.min(LONGEST)
}

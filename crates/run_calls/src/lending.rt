// What is lent to the calls: a chart and texts, as parts of the list's numbers, and how many words of two stores and of the names buffer.
use chart::{Beside, Env, NO_BESIDE};
use names::{Name, Texts};
use run_text::numbers::after;
use words::word;

#[derive(Clone, Copy)]
pub(crate) enum Lending {
    Rule,
    Text,
    Chart,
    Beside,
    // Words of each slice of the store in hand, then of the names buffer.
    Sizes,
    // The other store in hand.
    Swap,
}

// How many words of each slice of a store, and of the names buffer beside it.
#[derive(Clone, Copy, Default)]
pub(crate) struct Sizes {
    pub(crate) head: usize,
    pub(crate) nodes: usize,
    pub(crate) kids: usize,
    pub(crate) names: usize,
}

// The chart's records and what stands beside them, the texts' bytes, and the words of the store in hand and of the other.
#[derive(Clone, Copy)]
pub(crate) struct Lent<'a> {
    pub(crate) chart: &'a [u32],
    pub(crate) beside: Beside,
    pub(crate) rule: &'a [u32],
    pub(crate) text: &'a [u32],
    pub(crate) here: Sizes,
    pub(crate) there: Sizes,
}

pub(crate) fn nothing_lent<'a>() -> Lent<'a> {
    Lent {
        chart: &[],
        beside: NO_BESIDE,
        rule: &[],
        text: &[],
        here: Sizes::default(),
        there: Sizes::default(),
    }
}

// The chart that is lent, and the texts' bytes.
pub(crate) fn env_of<'a>(l: Lent<'a>, rule: &'a [u8], text: &'a [u8]) -> Env<'a> {
    let texts = Texts { rule, chart: text };
    Env {
        chart: l.chart,
        beside: l.beside,
        texts,
    }
}

// The name in the first three numbers.
fn name_of(a: &[u32]) -> Name {
    Name {
        text: word(a, 0),
        start: word(a, 1),
        len: word(a, 2),
    }
}

fn beside_of(a: &[u32]) -> Beside {
    Beside {
        fn_trait: word(a, 0),
        sigils: [1, 4, 7, 10].map(|at| name_of(after(a, at))),
    }
}

fn sizes_of(a: &[u32]) -> Sizes {
    Sizes {
        head: word(a, 0) as usize,
        nodes: word(a, 1) as usize,
        kids: word(a, 2) as usize,
        names: word(a, 3) as usize,
    }
}

// What is lent from now on, by the call's numbers.
pub(crate) fn lend<'a>(c: Lending, l: Lent<'a>, a: &'a [u32]) -> Lent<'a> {
    match c {
        Lending::Rule => Lent { rule: a, ..l },
        Lending::Text => Lent { text: a, ..l },
        Lending::Chart => Lent { chart: a, ..l },
        Lending::Beside => Lent {
            beside: beside_of(a),
            ..l
        },
        Lending::Sizes => Lent {
            here: sizes_of(a),
            ..l
        },
        Lending::Swap => Lent {
            here: l.there,
            there: l.here,
            ..l
        },
    }
}

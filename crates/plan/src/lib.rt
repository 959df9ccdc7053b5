#![tactic(auto)]
// Two Known kinds, and whether their inversions differ, to what is to be done: the match of the Rust's unify, in its order. Children are named by
// the place of the first and their number; nothing here reads them.
ghost use Rattle.std.specs.Prelude.{◌≡◌};
ghost use Rattle.names.specs.Place.{texts_by};
ghost use Rattle.plan.specs.Meaning.{SameKinds, crosses_kind, Planned};

use kinds::{CLOSURE, ERROR, IF_CONST, KEY, OBJECT, STRUCT, TUPLE, UNION};
use layout::Kind;
use names::Texts;
use types::{Inverted, UnifyResult};

// Two runs of children: the places of the first ones, and how many each has.
// Kept (6): two Ranges are no plainer: a kind says its first child and how many, and what unifies counts both runs with one number.
#[derive(Clone, Copy)]
pub struct Runs {
    pub a: u32,
    pub na: u32,
    pub b: u32,
    pub nb: u32,
    pub inv: Inverted,
}

#[derive(Clone, Copy)]
pub enum Plan {
    Answer(UnifyResult),
    Run(Runs),
    Object(Runs),
    // Parameters, then the return.
    Signature(Runs),
}

// Equal kinds, children apart: by code, by number, a Key by its name.
fn same_kinds(k: Kind, m: Kind, texts: &Texts<'_>) -> bool
    ensures { SameKinds (texts_by texts.now) k m result }
{
    k.code == m.code
        && k.number == m.number
        && (k.code != KEY || names::same_name(k.name, m.name, texts))
}

// May equal kinds meet where their inversions differ? By codes alone: the table of rows would stand in the frame of whoever plans.
fn crosses(k: Kind) -> bool
    ensures { result ≡ crosses_kind k }
{
    match k.code {
        STRUCT | UNION => k.dual,
        TUPLE | OBJECT | IF_CONST | ERROR => true,
        _ => false,
    }
}

pub fn plan_of(k: Kind, m: Kind, inv: Inverted, texts: &Texts<'_>) -> Plan
    ensures { Planned (texts_by texts.now) k m inv.0 result }
{
    if k.code == ERROR || m.code == ERROR {
        return Plan::Answer(UnifyResult::Indeterminate);
    }
    if !same_kinds(k, m, texts) {
        return Plan::Answer(UnifyResult::Failure);
    }
    if inv.0 && !crosses(k) {
        return Plan::Answer(UnifyResult::Failure);
    }
    let runs = Runs {
        a: k.first,
        na: k.count,
        b: m.first,
        nb: m.count,
        inv,
    };
    match k.code {
        OBJECT => Plan::Object(runs),
        CLOSURE => Plan::Signature(runs),
        _ => Plan::Run(runs),
    }
}

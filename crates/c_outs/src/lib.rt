#![tactic(auto)]
// Answers that are more than one number, told to a caller in another language through a lent array of fixed size: which case it is, is the number that is
// returned, and the array has its values, with 0 for what the case lacks. A refusal leaves the array as found.
ghost use Rattle.std.specs.Prelude.{◌≡◌};
ghost use Rattle.c_outs.specs.Outs.{plain_out, kind_out, mod_number, has_word, type_or_zero, figures_out, Told};
ghost use Rattle.c_outs.specs.Outs.{SaidBy, forced_number, node_number, some_number, state_out};
ghost use Rattle.c_outs.specs.Outs.{node_in, node_out, forced_in, forced_out, child_in, child_out, name_answer_in, name_out, mod_in, mod_out, figures_in};

use c_words::refused;
use layout::{HALF, Header, Kind, TypeNode, TypeState};
use names::Name;
use refusals::Refusal;
use types::{Inverted, Type};
use walk::Mod;

// Which case a node is.
// Kept (1): C gets a number for each case.
const CHILD: u64 = 0;

const UNKNOWN: u64 = 1;

const FAILED: u64 = 2;

const KNOWN: u64 = 3;

// A node without a kind: its parent or span, and the size of its tree.
fn plain_out(link: u32, size: u32) -> [u32; 12]
    ensures { result ≡ plain_out link size }
{
    [link, size, 0, 0, 0, 0, 0, 0, 0, 0, 0, 0]
}

// A node with a kind.
fn kind_out(i: Inverted, kind: Kind, size: u32) -> [u32; 12]
    ensures { result ≡ kind_out i kind size }
{
    [
        0,
        size,
        u32::from(i.0),
        kind.code,
        kind.number,
        u32::from(kind.dual),
        kind.flex,
        kind.name.text,
        kind.name.start,
        kind.name.len,
        kind.first,
        kind.count,
    ]
}

// A value's number and words; or a refusal's number, and the words stay as found.
fn tell<const N: usize>(a: Result<(u64, [u32; N]), Refusal>, out: &mut [u32; N]) -> u64
    ensures { SaidBy a.entry out.old out.new result }
{
    match a {
        Ok(told) => {
            let words = told.1;
            *out = words;
            told.0
        }
        Err(r) => refused(r),
    }
}

// A root's state, and the size of its tree.
fn state_words(state: TypeState, size: u32) -> (u64, [u32; 12])
    ensures { result ≡ (forced_number state, state_out size state) }
{
    match state {
        TypeState::Known(i, kind) => (KNOWN, kind_out(i, kind, size)),
        TypeState::Unknown(span) => (UNKNOWN, plain_out(span, size)),
        TypeState::InferenceFailed => (FAILED, plain_out(0, size)),
    }
}

fn node_words(node: TypeNode) -> (u64, [u32; 12])
    ensures { result ≡ (node_number node, node_out node) }
{
    match node {
        TypeNode::Root { state, size } => state_words(state, size),
        TypeNode::Child(parent) => (CHILD, plain_out(parent.0, 0)),
    }
}

pub fn tell_node(a: Result<TypeNode, Refusal>, out: &mut [u32; 12]) -> u64
    ensures { Told node_in node_out a out.old out.new result }
{
    tell(a.map(node_words), out)
}

// A forced type has no size to tell.
fn forced_words(state: TypeState) -> (u64, [u32; 12])
    ensures { result ≡ (forced_number state, forced_out state) }
{
    state_words(state, 0)
}

pub fn tell_forced(a: Result<TypeState, Refusal>, out: &mut [u32; 12]) -> u64
    ensures { Told forced_in forced_out a out.old out.new result }
{
    tell(a.map(forced_words), out)
}

fn child_words(child: Option<Type>) -> (u64, [u32; 1])
    ensures { result ≡ (some_number child, child_out child) }
{
    (u64::from(child.is_some()), [type_or_zero(child)])
}

// 1 and the child, or 0 where there is none.
pub fn tell_child(a: Result<Option<Type>, Refusal>, out: &mut [u32; 1]) -> u64
    ensures { Told child_in child_out a out.old out.new result }
{
    tell(a.map(child_words), out)
}

fn name_words(name: Option<Name>) -> (u64, [u32; 3])
    ensures { result ≡ (some_number name, name_out name) }
{
    match name {
        Some(name) => (1, [name.text, name.start, name.len]),
        None => (0, [0, 0, 0]),
    }
}

// 1 and the name, or 0 where there is none.
pub fn tell_name(a: Result<Option<Name>, Refusal>, out: &mut [u32; 3]) -> u64
    ensures { Told name_answer_in name_out a out.old out.new result }
{
    tell(a.map(name_words), out)
}

fn mod_words(m: Mod) -> (u64, [u32; 1])
    ensures { result ≡ (mod_number m, mod_out m) }
{
    match m {
        Mod::Nothing => (0, [0]),
        Mod::Def(d) => (1, [d]),
        Mod::Error => (2, [0]),
    }
}

// 0 for no definition, 1 and its def number, 2 for an error.
pub fn tell_mod(a: Result<Mod, Refusal>, out: &mut [u32; 1]) -> u64
    ensures { Told mod_in mod_out a out.old out.new result }
{
    tell(a.map(mod_words), out)
}

// Is there a remembered type, and which.
fn has_word(t: Option<Type>) -> u32
    ensures { result ≡ has_word t }
{
    u32::from(t.is_some())
}

fn type_or_zero(t: Option<Type>) -> u32
    ensures { result ≡ type_or_zero t }
{
    t.map_or(0, |t| t.0)
}

// Counts, capacities, remembered types, and the report count's lower and upper half.
fn figures_out(x: Header) -> [u32; 12]
    ensures { result ≡ figures_out x }
{
    [
        x.nodes,
        x.children,
        x.node_room,
        x.child_room,
        has_word(x.error),
        type_or_zero(x.error),
        has_word(x.nil),
        type_or_zero(x.nil),
        (x.reports % HALF) as u32,
        (x.reports / HALF) as u32,
        0,
        0,
    ]
}

fn figures_words(x: Header) -> (u64, [u32; 12])
    ensures { result ≡ (0, figures_out x) }
{
    (0, figures_out(x))
}

pub fn tell_figures(a: Result<Header, Refusal>, out: &mut [u32; 12]) -> u64
    ensures { Told figures_in figures_out a out.old out.new result }
{
    tell(a.map(figures_words), out)
}

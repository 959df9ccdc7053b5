#![tactic(auto)]
// Runs a list of calls through the public calls and writes what each answers. The list is text on standard input: a call's number, how many numbers
// follow, and these. What each number means stands in the module that has the call. There are two stores, one in hand and the other, which an import
// reads, and one names buffer.
ghost use Rattle.std.specs.Prelude.{◌<◌, ◌≤◌, length, IfOk};

mod asking; // what a store, a node or a type tells
mod calls; // the calls by their numbers
mod exporting; // export
mod forcing; // forcing and finishing
mod importing; // import
mod joining; // find_mut, unify and its family
mod lending; // what is lent
mod making; // open and the makers
mod naming; // named states, and reset
mod printing; // show and show_impl_type

use crate::calls::{Call, NoCall};
use crate::lending::{Lending, Lent, env_of, lend, nothing_lent};
use arrayvec::ArrayVec;
use chart::Env;
use layout::{CHILD_WORDS, HEAD_WORDS, NODE_WORDS};
use run_text::numbers::{after, first, numbers, to_bytes};
use run_text::writing;
use scope::{MAX_CHILDREN, MAX_NODES};
use std::io;
use std::io::{Read, Write};
use words::word;

// More words than the largest store needs, so that some are left over.
pub(crate) const HEAD: usize = HEAD_WORDS + 2;

pub(crate) const NODES: usize = (MAX_NODES + 1) * NODE_WORDS;

pub(crate) const KIDS: usize = (MAX_CHILDREN + 2) * CHILD_WORDS;

// The other store's words stand behind one another: the header's, the nodes' from NODES_AT on, the children's from KIDS_AT on.
const NODES_AT: usize = HEAD;

const KIDS_AT: usize = HEAD + NODES;

const OTHER: usize = HEAD + NODES + KIDS;

// A names buffer for stores of up to 256 nodes and 900 children.
const BOOK: usize = 56_000;

// Room for a text, and for the list as text and as numbers.
const BYTES: usize = 4096;

const INPUT: usize = 131_072;

const NUMBERS: usize = 32_768;

// A word of a slice becomes another.
fn poke(h: &mut [u32], ws: &mut [u32], ks: &mut [u32], bs: &mut [u32], a: &[u32]) {
    let i = word(a, 1) as usize;
    let v = word(a, 2);
    match word(a, 0) {
        0 => words::put(h, i, v),
        1 => words::put(ws, i, v),
        2 => words::put(ks, i, v),
        _ => words::put(bs, i, v),
    }
}

// Every word that is lent.
fn words<W: Write>(to: &mut W, h: &[u32], ws: &[u32], ks: &[u32]) -> io::Result<()> {
    writing::words(to, h)?;
    writing::words(to, ws)?;
    writing::words(to, ks)
}

// A call on what is lent; sh, sw, sk are the other store's words, bs those of the names buffer.
fn call<W: Write>(
    to: &mut W,
    c: Call,
    env: &Env<'_>,
    h: &mut [u32],
    ws: &mut [u32],
    ks: &mut [u32],
    bs: &mut [u32],
    sh: &[u32],
    sw: &[u32],
    sk: &[u32],
    a: &[u32],
) -> io::Result<()> {
    match c {
        Call::Lend(_) => Ok(()),
        Call::Poke => {
            poke(h, ws, ks, bs, a);
            Ok(())
        }
        Call::Case => writing::case(to, word(a, 0)),
        Call::Words => words(to, h, ws, ks),
        Call::Make(m) => making::call(to, m, env, h, ws, ks, a),
        Call::Name(m) => writing::done(to, naming::call(m, env, h, ws, ks, bs, a)),
        Call::Force(f) => forcing::call(to, f, env, h, ws, ks, a),
        Call::Ask(q) => asking::call(to, q, env, h, ws, ks, a),
        Call::Join(j) => joining::call(to, j, env, h, ws, ks, a),
        Call::Import => importing::import(to, env, h, ws, ks, sh, sw, sk, a),
        Call::Export => exporting::export(to, env, h, ws, ks, a),
        Call::Print(p) => printing::call(to, p, env, h, ws, ks, a),
    }
}

// The same on what is lent of the two stores.
fn on<W: Write>(
    to: &mut W,
    c: Call,
    env: &Env<'_>,
    l: Lent<'_>,
    h: &mut [u32],
    ws: &mut [u32],
    ks: &mut [u32],
    bs: &mut [u32],
    o: &[u32],
    a: &[u32],
) -> io::Result<()> {
    let here = l.here;
    let there = l.there;
    let sh = first(o, there.head);
    let sw = first(after(o, NODES_AT), there.nodes);
    let sk = first(after(o, KIDS_AT), there.kids);
    let x = here.head.min(h.len());
    let y = here.nodes.min(ws.len());
    let z = here.kids.min(ks.len());
    let b = here.names.min(bs.len());
    call(
        to,
        c,
        env,
        &mut h[..x],
        &mut ws[..y],
        &mut ks[..z],
        &mut bs[..b],
        sh,
        sw,
        sk,
        a,
    )
}

// The same, with the chart and the texts that are lent.
fn act<W: Write>(
    to: &mut W,
    c: Call,
    l: Lent<'_>,
    h: &mut [u32],
    ws: &mut [u32],
    ks: &mut [u32],
    bs: &mut [u32],
    o: &[u32],
    a: &[u32],
) -> io::Result<()> {
    let mut rule = [0u8; BYTES];
    let mut text = [0u8; BYTES];
    let r = to_bytes(l.rule, &mut rule);
    let t = to_bytes(l.text, &mut text);
    let env = env_of(l, &rule[..r], &text[..t]);
    on(to, c, &env, l, h, ws, ks, bs, o, a)
}

// The first call's numbers: behind its own and their count.
fn given(s: &[u32]) -> &[u32] {
    first(after(s, 2), word(s, 1) as usize)
}

// The calls behind the first.
fn rest_of(s: &[u32]) -> &[u32]
    requires { 0 < length s.now }
    ensures { length result.now < length s.now }
{
    let n = 2 + word(s, 1) as usize;
    &s[n.min(s.len())..]
}

// Words for those that stand in o from there on.
fn exchange(x: &mut [u32], o: &mut [u32], from: usize) {
    let at = from.min(o.len());
    for (v, w) in x.iter_mut().zip(o[at..].iter_mut()) {
        std::mem::swap(v, w);
    }
}

// The first call, on what is lent, and what is lent from now on. A number that is no call's does nothing.
fn turn<'a, W: Write>(
    to: &mut W,
    s: &'a [u32],
    l: Lent<'a>,
    h: &mut [u32],
    ws: &mut [u32],
    ks: &mut [u32],
    bs: &mut [u32],
    o: &mut [u32],
) -> io::Result<Lent<'a>> {
    let a = given(s);
    match Call::try_from(word(s, 0)) {
        Ok(Call::Lend(c)) => {
            if let Lending::Swap = c {
                exchange(h, o, 0);
                exchange(ws, o, NODES_AT);
                exchange(ks, o, KIDS_AT);
            }
            Ok(lend(c, l, a))
        }
        Ok(c) => {
            act(to, c, l, h, ws, ks, bs, o, a)?;
            Ok(l)
        }
        Err(NoCall) => Ok(l),
    }
}

// The calls one after the other, on these buffers.
fn turns<W: Write>(
    to: &mut W,
    s: &[u32],
    h: &mut [u32],
    ws: &mut [u32],
    ks: &mut [u32],
    bs: &mut [u32],
    o: &mut [u32],
) -> io::Result<()> {
    let mut l = nothing_lent();
    let mut rest = s;
    // Kept (3): the new form is no plainer: each call says itself how many numbers follow it, and so where the next one stands.
    while !rest.is_empty() {
        l = turn(to, rest, l, h, ws, ks, bs, o)?;
        rest = rest_of(rest);
    }
    Ok(())
}

fn run<W: Write>(to: &mut W, s: &[u32]) -> io::Result<()> {
    let mut h = [0u32; HEAD];
    let mut ws = [0u32; NODES];
    let mut ks = [0u32; KIDS];
    let mut bs = [0u32; BOOK];
    let mut o = [0u32; OTHER];
    turns(to, s, &mut h, &mut ws, &mut ks, &mut bs, &mut o)
}

// What there is to read, up to the buffer's end.
// Kept (6): how much was got goes beside the buffer: a read writes to bytes that are there, and an ArrayVec lends only those that it holds.
fn read_input<R: Read>(from: &mut R, input: &mut [u8]) -> io::Result<usize>
    ensures { IfOk result (λ n. n ≤ length input.new) }
{
    let mut at: usize = 0;
    // Kept (3): the new form is no plainer: a read gives as many bytes as it likes, and none at the end.
    while at < input.len() {
        let got = from.read(&mut input[at..])?;
        if got == 0 {
            return Ok(at);
        }
        at += got;
    }
    Ok(at)
}

fn main(rt: HostRuntime) -> io::Result<()> {
    let mut input = [0u8; INPUT];
    let got = read_input(&mut rt.stdin(), &mut input)?;
    let s: ArrayVec<u32, NUMBERS> = numbers(&input[..got]);
    run(&mut rt.stdout(), &s)
}

// Core functions, without tests: each asks what the core function asks that it calls, and promises the same. Nothing holds a caller in another language to that, so
// these are for bench/ alone, whose driver lends stores that the library has made.
ghost use Rattle.std.specs.Prelude.{◌≤◌, ◌<◌, false, length};
ghost use Rattle.std.proofs.Math.Option.{none};
ghost use Rattle.scope.specs.Types.{ty_of};
ghost use Rattle.scope.specs.Nodes.{opened};
ghost use Rattle.scope.specs.Make.{new, new_var, new_vars, make_error, make_nil};
ghost use Rattle.scope.specs.Unify.{unify};
ghost use Rattle.scope.specs.Import.{import};
ghost use Rattle.scope.specs.Show.{show};
ghost use Rattle.scope.specs.Calls.{nodes_for};
ghost use Rattle.names.specs.Place.{texts};
ghost use Rattle.chart.specs.Env.{env_of};
ghost use Rattle.layout.specs.Words.{store_in, decode};
ghost use Rattle.store.specs.Entries.{types_in};
ghost use Rattle.store.specs.Holds.{Became, Openable, Ready};
ghost use Rattle.make.specs.Made.{MadeIs, MadeAllIs};
ghost use Rattle.make.specs.Given.{KindReady, kind_given};
ghost use Rattle.lent_kind.specs.Lent.{plain_args, with_flag};
ghost use Rattle.meeting.specs.Asks.{Pair};
ghost use Rattle.unify_enter.specs.Leaves.{Leaves};
ghost use Rattle.copy.specs.Whole.{ImportReady, ImportedIs};
ghost use Rattle.walk.specs.Asks.{Stands};
ghost use Rattle.append.specs.Appended.{Appended};
ghost use Rattle.bench.specs.Numbers.{type_word, RESULTS, result_in, bare};

use append::Out;
use chart::{Env, NO_BESIDE};
use copy::Source;
use heads::Once;
use layout::{Kind, Nodes};
use names::Texts;
use types::Type;
use unify_enter::Fixed;

#[unsafe(no_mangle)]
pub extern "C" fn faroalder_direct_open(
    h: &mut [u32],
    ws: &mut [u32],
    ks: &mut [u32],
    nodes: u32,
    children: u32,
)
    requires { Openable nodes children h.old ws.old ks.old }
    ensures { Became h.old ws.old ks.old h.new ws.new ks.new (opened nodes children) }
{
    make::open(h, ws, ks, nodes, children);
}

#[unsafe(no_mangle)]
pub extern "C" fn faroalder_direct_new_var(
    h: &mut [u32],
    ws: &mut [u32],
    ks: &[u32],
    span: u32,
) -> u32
    requires { Ready h.old ws.old ks.now 1 0 }
    ensures { MadeIs h.old ws.old ks.now h.new ws.new ks.now
        (type_word result) (new_var (store_in h.old ws.old ks.now) span) }
{
    make::new_var(h, ws, ks, span).0
}

#[unsafe(no_mangle)]
pub extern "C" fn faroalder_direct_new_vars(
    h: &mut [u32],
    ws: &mut [u32],
    ks: &[u32],
    span: u32,
    count: u32,
    out: &mut [u32],
)
    requires ready { Ready h.old ws.old ks.now count 0 }
    requires count_in_bounds { count ≤ length out.old }
    ensures { MadeAllIs h.old ws.old ks.now h.new ws.new ks.now
        out.old out.new (new_vars (store_in h.old ws.old ks.now) span count) }
{
    make::new_vars(h, ws, ks, span, count, out);
}

#[unsafe(no_mangle)]
pub extern "C" fn faroalder_direct_error(h: &mut [u32], ws: &mut [u32], ks: &[u32]) -> u32
    requires { Ready h.old ws.old ks.now (nodes_for (store_in h.old ws.old ks.now).error) 0 }
    ensures { MadeIs h.old ws.old ks.now h.new ws.new ks.now
        (type_word result) (make_error (store_in h.old ws.old ks.now)) }
{
    make::made_once(h, ws, ks, Once::Error).0
}

#[unsafe(no_mangle)]
pub extern "C" fn faroalder_direct_nil(h: &mut [u32], ws: &mut [u32], ks: &[u32]) -> u32
    requires { Ready h.old ws.old ks.now (nodes_for (store_in h.old ws.old ks.now).nil) 0 }
    ensures { MadeIs h.old ws.old ks.now h.new ws.new ks.now
        (type_word result) (make_nil (store_in h.old ws.old ks.now)) }
{
    make::made_once(h, ws, ks, Once::Nil).0
}

// `new`, of a kind without `Flex` or a name of its own, whose flag is not set.
#[unsafe(no_mangle)]
pub extern "C" fn faroalder_direct_new(
    h: &mut [u32],
    ws: &mut [u32],
    ks: &mut [u32],
    code: u32,
    number: u32,
    entries: &[u32],
) -> u32
    requires { KindReady h.old ws.old ks.old (with_flag (plain_args code number) false) entries.now }
    ensures { MadeIs h.old ws.old ks.old h.new ws.new ks.new
        (type_word result) (new (store_in h.old ws.old ks.old) (kind_given (with_flag (plain_args code number) false) entries.now)) }
{
    let k = Kind {
        number,
        ..store::bare_kind(code)
    };
    make::new_kind(h, ws, ks, k, entries).0
}

// A pair of types, as deep as there are nodes, with a lent memory, whatever it holds.
#[unsafe(no_mangle)]
pub extern "C" fn faroalder_direct_unify_recalling<'a>(
    ws: &mut [u32],
    ks: &[u32],
    n: u32,
    rule: &'a [u8],
    text: &'a [u8],
    memory: &mut [u32],
    a: u32,
    b: u32,
) -> u32
    requires { Pair (texts rule.now text.now) ws.old ks.now n (ty_of a) (ty_of b) }
    ensures upper_bound { result < RESULTS }
    ensures leaves { Leaves ws.old ks.now ws.new n
        (unify (texts rule.now text.now) (decode ws.old ks.now n) (ty_of a) (ty_of b)) (result_in result) }
{
    recall::begin(memory);
    let texts = Texts { rule, chart: text };
    let fixed = Fixed {
        kids: ks,
        made: n,
        texts,
    };
    u32::from(unify_lists::unify_all(ws, &fixed, memory, Type(a), Type(b)))
}

// The same without a memory.
#[unsafe(no_mangle)]
pub extern "C" fn faroalder_direct_unify<'a>(
    ws: &mut [u32],
    ks: &[u32],
    n: u32,
    rule: &'a [u8],
    text: &'a [u8],
    a: u32,
    b: u32,
) -> u32
    requires { Pair (texts rule.now text.now) ws.old ks.now n (ty_of a) (ty_of b) }
    ensures upper_bound { result < RESULTS }
    ensures leaves { Leaves ws.old ks.now ws.new n
        (unify (texts rule.now text.now) (decode ws.old ks.now n) (ty_of a) (ty_of b)) (result_in result) }
{
    let mut memory = [0u32; 0];
    faroalder_direct_unify_recalling(ws, ks, n, rule, text, &mut memory, a, b)
}

// Out of n nodes, with no parameter list. This is the core alone, which the library's names do not have: there an import also counts what it needs. It asks and
// promises what the core does, so that it costs this crate nothing to prove.
#[unsafe(no_mangle)]
pub extern "C" fn faroalder_direct_import(
    sw: &[u32],
    sk: &[u32],
    n: u32,
    h: &mut [u32],
    ws: &mut [u32],
    ks: &mut [u32],
    ts: &[u32],
    out: &mut [u32],
)
    requires { ImportReady sw.now sk.now n none ts.now h.old ws.old ks.old out.old }
    ensures { ImportedIs (import (decode sw.now sk.now n) none (store_in h.old ws.old ks.old)
        (types_in ts.now)) (length ts.now)
        h.old ws.old ks.old h.new ws.new ks.new out.old out.new }
{
    let nodes = Nodes {
        words: sw,
        kids: sk,
        made: n,
    };
    let source = Source {
        nodes,
        params: None,
    };
    copy::import(&source, h, ws, ks, ts, out);
}

// The place where the text ends; one past the buffer where it does not fit.
#[unsafe(no_mangle)]
pub extern "C" fn faroalder_direct_show<'a>(
    chart: &[u32],
    rule: &'a [u8],
    text: &'a [u8],
    ws: &[u32],
    ks: &[u32],
    n: u32,
    t: u32,
    buf: &mut [u8],
) -> usize
    requires { Stands ws.now ks.now n }
    ensures { Appended buf.old 0 buf.new result
        (show (env_of chart.now bare rule.now text.now) (decode ws.now ks.now n) (ty_of t)) }
{
    let env = Env {
        chart,
        beside: NO_BESIDE,
        texts: Texts { rule, chart: text },
    };
    let nodes = Nodes {
        words: ws,
        kids: ks,
        made: n,
    };
    let mut out = Out { buf, at: 0 };
    show::show_all(&env, &nodes, &mut out, Type(t));
    out.at
}

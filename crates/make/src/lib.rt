#![tactic(auto)]
// The makers: a store is opened or emptied, and gets one node more. Each does what scope's definition says of the store that three lent slices
// hold. None tests: what it asks is in its `requires`. A maker's time does not grow with the store.
ghost use Rattle.std.specs.Prelude.{◌≡◌, true, false, ◌+◌, ◌≤◌, ◌<◌, length};
ghost use Rattle.scope.specs.Nodes.{opened};
ghost use Rattle.scope.specs.Make.{new, new_var, new_vars};
ghost use Rattle.scope.specs.Force.{reset};
ghost use Rattle.scope.specs.Calls.{nodes_for};
ghost use Rattle.layout.specs.Words.{HEAD_WORDS, child_words, store_in};
ghost use Rattle.layout.specs.Words as words;
ghost use Rattle.layout.specs.Meaning.{header_in, put_header};
ghost use Rattle.layout.specs.declared.TypeState.TheVariants.{Unknown, Known};
ghost use Rattle.heads.specs.Heads.{remembered_by};
ghost use Rattle.store.specs.Bare.{bare_kind};
ghost use Rattle.store.specs.Holds.{Became, Openable, Ready};
ghost use Rattle.make.specs.Made.{MadeIs, MadeAllIs};
ghost use Rattle.make.specs.Header.{Pushable, Pushed, BlankReady, OnceReady, cleared, fresh, with_remembered};
ghost use Rattle.make.specs.Once.{OnceLeaves, once_of, make_once};
ghost use Rattle.make.specs.Given.{KindReady, Put, kind_given};

use heads::Once;
use kinds::{ERROR, TUPLE};
use layout::{CHILD_WORDS, Header, Kind, TypeNode, TypeState};
use types::{Inverted, Type, TypeIdx};

// The first e words become 0.
pub fn clear(s: &mut [u32], e: usize)
    requires { e ≤ length s.old }
    ensures { s.new ≡ cleared s.old e }
{
    s[..e].fill(0);
}

// The header of a store without nodes.
pub fn no_nodes(node_room: u32, child_room: u32, reports: u64) -> Header
    ensures { result ≡ fresh node_room child_room reports }
{
    Header {
        nodes: 0,
        children: 0,
        node_room,
        child_room,
        error: None,
        nil: None,
        reports,
    }
}

// A store just opened, whatever the slices held.
pub fn open(h: &mut [u32], ws: &mut [u32], ks: &mut [u32], nodes: u32, children: u32)
    requires { Openable nodes children h.old ws.old ks.old }
    ensures { Became h.old ws.old ks.old h.new ws.new ks.new
        (opened nodes children) }
{
    clear(ws, layout::node_words(nodes));
    clear(ks, layout::child_words(children));
    layout::write_header(h, no_nodes(nodes, children, 0));
}

// The used slots become 0; the others are.
pub fn reset(h: &mut [u32], ws: &mut [u32], ks: &mut [u32])
    requires { words.clean h.old ws.old ks.old ≡ true }
    ensures { Became h.old ws.old ks.old h.new ws.new ks.new
        (reset (store_in h.old ws.old ks.old)) }
{
    let x = layout::read_header(h);
    clear(ws, layout::node_words(x.nodes));
    clear(ks, layout::child_words(x.children));
    layout::write_header(h, no_nodes(x.node_room, x.child_room, x.reports));
}

// One root more, with `added` children counted.
pub fn push(h: &mut [u32], ws: &mut [u32], added: u32, state: TypeState) -> Type
    requires { Pushable h.old ws.old (header_in h.old) added }
    ensures { Pushed h.old ws.old h.new ws.new (header_in h.old) added
        (header_in h.old).error (header_in h.old).nil state result }
{
    let n = heads::nodes_made(h);
    let root = TypeNode::Root { state, size: 1 };
    layout::put_node(ws, n + 1, TypeIdx(n), root);
    let children = heads::children_made(h);
    heads::put_counts(h, n + 1, children + added);
    Type(n)
}

// The same of a kind.
pub fn push_kind(h: &mut [u32], ws: &mut [u32], k: Kind) -> Type
    requires { Pushable h.old ws.old (header_in h.old) k.count }
    ensures { Pushed h.old ws.old h.new ws.new (header_in h.old) k.count
        (header_in h.old).error (header_in h.old).nil (Known (record { 0 = false }) k) result }
{
    push(h, ws, k.count, TypeState::Known(Inverted(false), k))
}

// One for an Unknown: its slot is not used yet, so three words say it. It is what a copy is until it takes its kind: `added` children are counted, and
// their words are not written yet.
// Kept (2): what it shares with `push`, the two counts and the type, is three lines; as a function of their own they would want a contract and laws besides `Pushed`.
pub fn push_unknown(h: &mut [u32], ws: &mut [u32], span: u32, added: u32) -> Type
    requires { BlankReady h.old ws.old added }
    ensures { Pushed h.old ws.old h.new ws.new (header_in h.old) added
        (header_in h.old).error (header_in h.old).nil (Unknown span) result }
{
    let n = heads::nodes_made(h);
    heads::put_unknown(ws, TypeIdx(n), span);
    let children = heads::children_made(h);
    heads::put_counts(h, n + 1, children + added);
    Type(n)
}

// One root more whose kind has no children, and the types that are remembered then.
fn push_bare(
    h: &mut [u32],
    ws: &mut [u32],
    x: Header,
    error: Option<Type>,
    nil: Option<Type>,
    code: u32,
) -> Type
    requires { Pushable h.old ws.old x 0 }
    ensures { Pushed h.old ws.old h.new ws.new x 0 error nil (Known (record { 0 = false }) (bare_kind code)) result }
{
    let n = x.nodes;
    let state = TypeState::Known(Inverted(false), store::bare_kind(code));
    let root = TypeNode::Root { state, size: 1 };
    layout::put_node(ws, n + 1, TypeIdx(n), root);
    let grown = Header {
        nodes: n + 1,
        error,
        nil,
        ..x
    };
    layout::write_header(h, grown);
    Type(n)
}

pub fn new_var(h: &mut [u32], ws: &mut [u32], ks: &[u32], span: u32) -> Type
    requires { Ready h.old ws.old ks.now 1 0 }
    ensures { MadeIs h.old ws.old ks.now h.new ws.new ks.now result
        (new_var (store_in h.old ws.old ks.now) span) }
{
    push_unknown(h, ws, span, 0)
}

// Other remembered types, and nothing else changed.
pub fn remember(h: &mut [u32], error: Option<Type>, nil: Option<Type>)
    requires { HEAD_WORDS ≤ length h.old }
    ensures { h.new ≡ put_header h.old (with_remembered (header_in h.old) error nil) }
{
    let x = layout::read_header(h);
    layout::write_header(h, Header { error, nil, ..x });
}

// A type that is made once, the error type or a Tuple: the one remembered, or that of one node more.
pub fn once(h: &mut [u32], ws: &mut [u32], what: Once) -> Type
    requires { OnceReady h.old ws.old (header_in h.old) (remembered_by what (header_in h.old)) }
    ensures { OnceLeaves what h.old ws.old h.new ws.new result }
{
    match heads::made(h, what) {
        Some(t) => t,
        None => {
            let x = layout::read_header(h);
            let next = Some(Type(x.nodes));
            match what {
                Once::Error => push_bare(h, ws, x, next, x.nil, ERROR),
                Once::Nil => push_bare(h, ws, x, x.error, next, TUPLE),
            }
        }
    }
}

// The same, of a whole store.
pub fn made_once(h: &mut [u32], ws: &mut [u32], ks: &[u32], what: Once) -> Type
    requires { Ready h.old ws.old ks.now (nodes_for (once_of what (store_in h.old ws.old ks.now))) 0 }
    ensures { MadeIs h.old ws.old ks.now h.new ws.new ks.now result
        (make_once what (store_in h.old ws.old ks.now)) }
{
    once(h, ws, what)
}

// `count` variables; their types stand at the front of `out`.
pub fn new_vars(h: &mut [u32], ws: &mut [u32], ks: &[u32], span: u32, count: u32, out: &mut [u32])
    requires ready { Ready h.old ws.old ks.now count 0 }
    requires count_in_bounds { count ≤ length out.old }
    ensures { MadeAllIs h.old ws.old ks.now h.new ws.new ks.now
        out.old out.new (new_vars (store_in h.old ws.old ks.now) span count) }
{
    // Kept (3): tried over `out[..count].iter_mut()`: its proof knows the part alone, and the promise is of all of `out`, of which a proof then knows no element, as in `marks::tell_word`.
    for i in 0..count as usize {
        out[i] = new_var(h, ws, ks, span).0;
    }
}

// The first n entries, behind the `first` children made. Each lies as a child does.
fn put_children(ks: &mut [u32], first: u32, entries: &[u32], n: usize)
    requires { (child_words (first + n) ≤ length ks.old) × (child_words n ≤ length entries.now) }
    ensures { Put entries.now first n ks.old ks.new }
{
    let from = layout::child_words(first);
    let len = n * CHILD_WORDS;
    ks[from..from + len].copy_from_slice(&entries[..len]);
}

// `new`, for each of the fifteen kinds, wherever it says that its children lie: they are the entries. A child is lent as it lies in a store: its type, and its
// name's text, start and length.
pub fn new_kind(h: &mut [u32], ws: &mut [u32], ks: &mut [u32], k: Kind, entries: &[u32]) -> Type
    requires { KindReady h.old ws.old ks.old k entries.now }
    ensures { MadeIs h.old ws.old ks.old h.new ws.new ks.new result
        (new (store_in h.old ws.old ks.old) (kind_given k entries.now)) }
{
    let n = store::entry_count(entries);
    let first = heads::children_made(h);
    put_children(ks, first, entries, n);
    let count = n as u32;
    push_kind(h, ws, Kind { first, count, ..k })
}

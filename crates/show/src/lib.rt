#![tactic(auto)]
// A type's text into a lent buffer, straight from the store, the chart and the texts: no other buffer is used. One level after another is written, and
// where the buffer is full work stops at once. A cache keeps the roots found.
ghost use Rattle.std.specs.Prelude.{◌≡◌, ◌≤◌};
ghost use Rattle.scope.specs.Limits.{MAX_NODES};
ghost use Rattle.scope.specs.Types.{ty_of};
ghost use Rattle.scope.specs.Force.{is_nil};
ghost use Rattle.scope.specs.Show.{show_f, show};
ghost use Rattle.chart.specs.Env.{env_by};
ghost use Rattle.layout.specs.Lent.{nodes_by};
ghost use Rattle.roots.specs.StaysLent.{StaysLent};
ghost use Rattle.walk.specs.Asks.{StandsIn, Nil};
ghost use Rattle.append.specs.Appended.{Puts};
ghost use Rattle.show.specs.Level.{most_of, shown_of};

use append::Out;
use chart::Env;
use kinds::{CLOSURE, ENUM, IF_CONST, OBJECT, OPAQUE, REF, STRUCT, TUPLE, UNION};
use layout::{Kind, Nodes};
use roots::Finder;
use scope::MAX_NODES;
use show_names::put_unknown;
use show_parts::{put_close, put_gap, put_lead};
use types::{Inverted, Type};

// `is_nil` with the roots that are kept.
fn is_nil(finder: &mut Finder<'_>, t: Type) -> bool
    ensures { Nil finder.old.nodes.now.words.now finder.old.nodes.now.made t.0 result × StaysLent finder.old finder.new }
{
    let nodes = finder.nodes;
    let root = finder.find(t);
    roots::nil_at(nodes.words, nodes.made, root.idx())
}

// How many of a kind's children are shown where none is nil.
#[tactic(auto, unfolding(crate::specs::Level::most_of))]
fn most(code: u32, count: u32) -> u32
    ensures { result ≡ most_of code count }
{
    match code {
        TUPLE | OBJECT | OPAQUE | STRUCT | ENUM | UNION | CLOSURE | REF => count,
        IF_CONST if count >= 2 => 2,
        _ => 0,
    }
}

// How many of a kind's children are shown: of a Closure and an if const not the last, if it is nil.
#[tactic(auto, unfolding(crate::specs::Level::shown_of, crate::specs::Level::most_of))]
fn shown(finder: &mut Finder<'_>, k: Kind) -> u32
    requires { StandsIn finder.old.nodes.now }
    ensures { (result ≡ shown_of (is_nil (nodes_by finder.old.nodes.now)) finder.old.nodes.now.kids.now k)
        × StaysLent finder.old finder.new }
{
    let nodes = finder.nodes;
    let all = most(k.code, k.count);
    match k.code {
        CLOSURE | IF_CONST if all > 0 && is_nil(finder, nodes.child(k.first, all - 1).ty) => {
            all - 1
        }
        _ => all,
    }
}

// The text of a type, at most so many levels deep, with the roots that are kept.
fn show_by(env: &Env<'_>, finder: &mut Finder<'_>, out: &mut Out<'_>, t: Type, depth: u32)
    requires { StandsIn finder.old.nodes.now }
    ensures { Puts out.old out.new (show_f (env_by env.now) depth (nodes_by finder.old.nodes.now) (ty_of t.0))
        × StaysLent finder.old finder.new }
{
    if depth == 0 || append::is_full(out) {
        return;
    }
    let nodes = finder.nodes;
    let root = finder.find(t);
    let Some((inv, kind)) = nodes.held(root.idx()) else {
        put_unknown(out, root);
        return;
    };
    let i = inv ^ root.inv();
    let dual = kinds::self_dual(kind.code, kind.dual);
    put_lead(env, out, i.0 & !dual, kind);
    let deep = Inverted(i.0 & dual);
    let count = shown(finder, kind);
    for j in 0..count {
        put_gap(&env.texts, nodes.kids, out, kind, j);
        let kid = nodes.child(kind.first, j).ty;
        show_by(env, finder, out, kid.invert_if(deep), depth - 1);
    }
    put_close(out, kind, count);
}

// To clear a cache takes as long as to write a short text. Among so few nodes no path to a root is long, and so few bytes have few types.
const FEW_NODES: u32 = 512;

const FEW_BYTES: usize = 4096;

// The same, with a cache that has room for so many roots.
fn show_within<const ROOM: usize>(
    env: &Env<'_>,
    nodes: &Nodes<'_>,
    out: &mut Out<'_>,
    t: Type,
    depth: u32,
)
    requires stands { StandsIn nodes.now }
    requires room { ROOM ≤ MAX_NODES }
    ensures { Puts out.old out.new (show_f (env_by env.now) depth (nodes_by nodes.now) (ty_of t.0)) }
{
    let mut cache = [0u16; ROOM];
    let mut finder = Finder {
        nodes,
        cache: &mut cache,
    };
    show_by(env, &mut finder, out, t, depth);
}

// The text of a type, at most so many levels deep.
pub fn show_type(env: &Env<'_>, nodes: &Nodes<'_>, out: &mut Out<'_>, t: Type, depth: u32)
    requires { StandsIn nodes.now }
    ensures { Puts out.old out.new (show_f (env_by env.now) depth (nodes_by nodes.now) (ty_of t.0)) }
{
    if FEW_NODES < nodes.made && FEW_BYTES < out.buf.len() {
        show_within::<MAX_NODES>(env, nodes, out, t, depth);
    } else {
        show_within::<0>(env, nodes, out, t, depth);
    }
}

// The text of a type, as deep as there are nodes.
pub fn show_all(env: &Env<'_>, nodes: &Nodes<'_>, out: &mut Out<'_>, t: Type)
    requires { StandsIn nodes.now }
    ensures { Puts out.old out.new (show (env_by env.now) (nodes_by nodes.now) (ty_of t.0)) }
{
    show_type(env, nodes, out, t, nodes.made);
}

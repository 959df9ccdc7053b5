#![tactic(auto)]
// What an import needs: "nodes made plus those needed" of 10, "the same for children" of 11, and 6's "Param with no entry". A walk over the source alone
// goes where the copying goes, counts each root once and copies nothing, so that a call can turn back before a word is written.
ghost use Rattle.std.specs.Prelude.{◌≡◌, not, ◌+◌, eqb, get_or};
ghost use Rattle.scope.specs.Needs.{listed, exported};
ghost use Rattle.layout.specs.Words.{nodes_made, store_in};
ghost use Rattle.layout.specs.Meaning.{held_in, read_at, remembered_means};
ghost use Rattle.store.specs.Entries.{types_in};
ghost use Rattle.roots.specs.StaysLent.{StaysLent};
ghost use Rattle.needs.specs.Roots.{kind_asks, asks_of};
ghost use Rattle.needs.specs.Sums.{CountableIn, CountedIn, Met, AllCountedIn};
ghost use Rattle.needs.specs.Sources.{Importable, ImportableIn, ImportNeedsIn, ExportNeeds};

use layout::{Kind, Nodes};
use roots::Finder;
use scope::MAX_NODES;
use types::{Type, TypeIdx};

#[derive(Clone, Copy, Default)]
pub struct Needs {
    // Is there a Param with no entry?
    // Kept (1): no Option of the counts: `of_import` promises them also where an entry is missing.
    pub missing: bool,
    pub nodes: u32,
    pub children: u32,
}

// What a root of the source asks for.
#[derive(Clone, Copy)]
pub enum Asks {
    // "a Param is replaced by that entry and no node is made"
    Replaced,
    // A Param with no entry.
    Missing,
    // A node, and the children that lie from a place on, so many.
    Node(u32, u32),
}

fn kind_asks(params: Option<u32>, kind: Kind) -> Asks
    ensures { result ≡ kind_asks params kind }
{
    match params {
        Some(count) if kind.code == kinds::PARAM => {
            if kind.number < count {
                Asks::Replaced
            } else {
                Asks::Missing
            }
        }
        _ => Asks::Node(kind.first, kind.count),
    }
}

fn root_asks(nodes: &Nodes<'_>, params: Option<u32>, root: TypeIdx) -> Asks
    ensures { result ≡ asks_of params (held_in (read_at nodes.now.words.now nodes.now.made root.0)) }
{
    match nodes.held(root) {
        Some((_, kind)) => kind_asks(params, kind),
        None => Asks::Node(0, 0),
    }
}

// Nonzero marks a root that is counted; a root that has no mark is never counted.
fn is_counted(marks: &[u8], i: TypeIdx) -> bool
    ensures { result ≡ not (eqb (get_or marks.now i.0 1) 0) }
{
    marks.get(i.0 as usize).copied().unwrap_or(1) != 0
}

// Whether a type's root is counted: the walk from it then does nothing, however deep it may go.
fn is_met(finder: &mut Finder<'_>, marks: &[u8], t: Type) -> bool
    ensures { Met finder.old.nodes.now.words.now finder.old.nodes.now.made marks.now t result
        × StaysLent finder.old finder.new }
{
    is_counted(marks, finder.find(t).idx())
}

// The walk from t: a root that is not counted is counted, then its children are walked from, one level less deep.
// Kept (5): what three functions ask of the marks and of the sum so far goes with a finder that is lent to each. A struct of the three would have each say of two slices in it
// that they are those that were lent, where now each does of one.
fn count(
    finder: &mut Finder<'_>,
    params: Option<u32>,
    marks: &mut [u8],
    sum: Needs,
    t: Type,
    depth: u32,
) -> Needs
    requires { CountableIn finder.old.nodes.now marks.old sum }
    ensures { CountedIn finder.old.nodes.now params marks.old sum t depth marks.new result
        × StaysLent finder.old finder.new }
{
    if depth == 0 {
        return sum;
    }
    let nodes = finder.nodes;
    let root = finder.find(t).idx();
    if is_counted(marks, root) {
        return sum;
    }
    match root_asks(nodes, params, root) {
        Asks::Replaced => sum,
        Asks::Missing => Needs {
            missing: true,
            ..sum
        },
        Asks::Node(first, kids) => {
            roots::set_mark(marks, root);
            let mut all = Needs {
                nodes: sum.nodes + 1,
                children: sum.children + kids,
                ..sum
            };
            for j in 0..kids {
                let kid = nodes.child(first, j).ty;
                if !is_met(finder, marks, kid) {
                    all = count(finder, params, marks, all, kid, depth - 1);
                }
            }
            all
        }
    }
}

// From each type of a list.
fn count_all(
    finder: &mut Finder<'_>,
    params: Option<u32>,
    marks: &mut [u8],
    sum: Needs,
    ts: &[u32],
) -> Needs
    requires { CountableIn finder.old.nodes.now marks.old sum }
    ensures { AllCountedIn finder.old.nodes.now params marks.old sum (types_in ts.now) marks.new result
        × StaysLent finder.old finder.new }
{
    let mut all = sum;
    for t in ts {
        all = count(finder, params, marks, all, Type(*t), finder.nodes.made);
    }
    all
}

// From a type that the source remembers, if any; an export has no parameter list.
fn count_remembered(
    finder: &mut Finder<'_>,
    marks: &mut [u8],
    sum: Needs,
    was: Option<Type>,
) -> Needs
    requires { CountableIn finder.old.nodes.now marks.old sum }
    ensures { AllCountedIn finder.old.nodes.now None marks.old sum (listed (remembered_means was))
        marks.new result × StaysLent finder.old finder.new }
{
    match was {
        Some(t) => count(finder, None, marks, sum, t, finder.nodes.made),
        None => sum,
    }
}

// What an import of a list needs.
// Kept (6): two tables, here and below: the finder holds the cache for as long as the marks are written, and functions of other crates take each as a slice. One table of pairs
// could not be lent to both, and a struct of the two would be taken apart at once.
pub fn of_import(nodes: &Nodes<'_>, params: Option<u32>, ts: &[u32]) -> Needs
    requires { ImportableIn nodes.now (types_in ts.now) }
    ensures { ImportNeedsIn nodes.now params ts.now result }
{
    let mut cache = [0u16; MAX_NODES];
    let mut marks = [0u8; MAX_NODES];
    let mut finder = Finder {
        nodes,
        cache: &mut cache,
    };
    count_all(&mut finder, params, &mut marks, Needs::default(), ts)
}

// What an export of a list needs: "error type first, nil next".
pub fn of_export(h: &[u32], ws: &[u32], ks: &[u32], ts: &[u32]) -> Needs
    requires { Importable ws.now ks.now (nodes_made h.now) (exported (store_in h.now ws.now ks.now) (types_in ts.now)) }
    ensures { ExportNeeds h.now ws.now ks.now ts.now result }
{
    let x = layout::read_header(h);
    let nodes = Nodes {
        words: ws,
        kids: ks,
        made: x.nodes,
    };
    let mut cache = [0u16; MAX_NODES];
    let mut marks = [0u8; MAX_NODES];
    let mut finder = Finder {
        nodes: &nodes,
        cache: &mut cache,
    };
    let first = count_remembered(&mut finder, &mut marks, Needs::default(), x.error);
    let next = count_remembered(&mut finder, &mut marks, first, x.nil);
    count_all(&mut finder, None, &mut marks, next, ts)
}

#![tactic(auto)]
// Whether a type is its own inverse: scope's `self_inverse_of` of the nodes that are lent. Its root and a walk of some visits tell it, or nothing; a walk
// with marks tells it always.
ghost use Rattle.std.specs.Prelude.{◌≡◌, ◌<◌, eqb, get_or};
ghost use Rattle.scope.specs.Base.{all, from};
ghost use Rattle.scope.specs.Types.{ty_of};
ghost use Rattle.layout.specs.Lent.{nodes_by};
ghost use Rattle.layout.specs.Meaning.{read_at, held_in};
ghost use Rattle.related.specs.Stands.{StandsIn};
ghost use Rattle.inverse.specs.Judged.{kids_in, whole, good_kind, Judges, Tries, Glanced};
ghost use Rattle.inverse.specs.Marked.{good_by, good_at, BesideIn, MarkedAllIn};

use arrayvec::ArrayVec;
use layout::{Kind, Nodes};
use std::ops::Range;
use types::{Type, TypeIdx};

// What a root tells of `self_inverse` by itself: it is not good, or good, or good where its children are, so many from the first on.
#[derive(Clone, Copy)]
enum Judgement {
    Bad,
    Good,
    Run { first: u32, count: u32 },
}

// So many visits a walk without marks makes at most, and goes down so many levels.
const VISITS: u32 = 256;

const LEVELS: usize = 8;

// A kind that lets a type be its own inverse, children apart; a Param as param says. A Tuple is met most, and its row is not read.
pub fn good_kind(kind: Kind, param: bool) -> bool
    ensures { result ≡ good_kind param kind }
{
    match kind.code {
        kinds::PARAM => param,
        kinds::TUPLE => true,
        code => kinds::self_dual(code, kind.dual),
    }
}

// It "holds where the root has a self-dual kind and it holds of every child"; a Param has none.
fn judge(nodes: &Nodes<'_>, i: TypeIdx, param: bool) -> Judgement
    ensures { Judges nodes.now.words.now nodes.now.made param i.0 result }
{
    let Some((_, kind)) = nodes.held(i) else {
        return Judgement::Bad;
    };
    if !good_kind(kind, param) {
        Judgement::Bad
    } else if kind.code == kinds::PARAM || kind.count == 0 {
        Judgement::Good
    } else {
        Judgement::Run {
            first: kind.first,
            count: kind.count,
        }
    }
}

// The places of a run of children.
fn whole(first: u32, count: u32) -> Range<usize>
    ensures { result ≡ whole first count }
{
    let start = first as usize;
    start..start + count as usize
}

// A walk of so many visits at most over a run of children, depth first and without marks, which ends at the first root that is not good. What is left of the runs
// above stands in a list, so that it calls nothing that calls itself. None: only a walk with marks tells.
fn inverse_run(nodes: &Nodes<'_>, first: u32, count: u32, param: bool, most: u32) -> Option<bool>
    requires { StandsIn nodes.now }
    ensures { Tries (nodes_by nodes.now) param (kids_in nodes.now.kids.now first count) most result }
{
    let mut above: ArrayVec<Range<usize>, LEVELS> = ArrayVec::new();
    let mut run = whole(first, count);
    let mut left = most;
    // Kept (3): as a `for` it is no plainer: a turn visits the next child of a run or goes back up to the run above, so turns are no counter.
    while 0 < left {
        if let Some(place) = run.next() {
            let kid = layout::child_at(nodes.kids, place).ty;
            let root = roots::find_in(nodes, kid).idx();
            left -= 1;
            match judge(nodes, root, param) {
                Judgement::Bad => return Some(false),
                Judgement::Good => {}
                Judgement::Run { first, count } => {
                    if above.is_full() {
                        return None;
                    }
                    above.push(run);
                    run = whole(first, count);
                }
            }
        } else {
            let Some(up) = above.pop() else {
                return Some(true);
            };
            run = up;
        }
    }
    None
}

// A walk that ends in fewer visits than there are nodes is as deep as it is long at most.
fn visits(n: u32) -> u32
    requires { 0 < n }
    ensures { result < n }
{
    VISITS.min(n - 1)
}

// Is the type its own inverse, as the root tells or some visits do? None: only a walk with marks tells.
pub fn quickly(nodes: &Nodes<'_>, t: Type, param: bool) -> Option<bool>
    requires { StandsIn nodes.now × ((ty_of t.0).idx < nodes.now.made) }
    ensures { Glanced (nodes_by nodes.now) param t.0 result }
{
    let root = roots::find_in(nodes, t).idx();
    match judge(nodes, root, param) {
        Judgement::Bad => Some(false),
        Judgement::Good => Some(true),
        Judgement::Run { first, count } => {
            inverse_run(nodes, first, count, param, visits(nodes.made))
        }
    }
}

// "never where there is no kind"
fn good_at(nodes: &Nodes<'_>, i: TypeIdx, param: bool) -> bool
    ensures { result ≡ good_by param (held_in (read_at nodes.now.words.now nodes.now.made i.0)) }
{
    nodes
        .held(i)
        .is_some_and(|(_, kind)| good_kind(kind, param))
}

// A walk writes 1: other marks are older.
fn is_new(marks: &[u8], i: TypeIdx) -> bool
    ensures { result ≡ eqb (get_or marks.now i.0 0) 1 }
{
    marks.get(i.0 as usize).is_some_and(|&mark| mark == 1)
}

// Every root that a walk met is good.
fn all_good(nodes: &Nodes<'_>, marks: &[u8], param: bool) -> bool
    ensures { result ≡ all (good_at nodes.now.words.now nodes.now.made marks.now param) (from 0 nodes.now.made) }
{
    (0..nodes.made).all(|i| !is_new(marks, TypeIdx(i)) || good_at(nodes, TypeIdx(i), param))
}

// A walk that marks each root it meets, and goes not below a node that is marked: such a one is known to be good, and so is all below it. Where the answer is true, that is
// now known of every marked node.
pub fn by_marks(nodes: &Nodes<'_>, marks: &mut [u8], t: Type, param: bool) -> bool
    requires { BesideIn nodes.now marks.old t.0 param }
    ensures { MarkedAllIn nodes.now marks.new t.0 param result }
{
    related::find_related(nodes, marks, t);
    all_good(nodes, marks, param)
}

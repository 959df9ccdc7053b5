#![tactic(auto)]
// One walk that marks each root it meets: `find_related`, as scope's definition says it of the nodes that are lent. It looks at a child's root
// once, and at a child slot about once, however the runs of children overlap.
ghost use Rattle.std.specs.Prelude.{◌≡◌, ◌≤◌};
ghost use Rattle.scope.specs.Types.{ty_of};
ghost use Rattle.scope.specs.Force.{find_related};
ghost use Rattle.layout.specs.Lent.{nodes_by};
ghost use Rattle.roots.specs.StaysLent.{StaysLent};
ghost use Rattle.related.specs.Stands.{StandsIn};
ghost use Rattle.related.specs.Tables.{SeesIn, MeetsIn, KeepsIn, related_below};

use layout::Nodes;
use roots::Finder;
use scope::{MAX_CHILDREN, MAX_NODES};
use types::{Type, TypeIdx};

// As many nodes as a walk with small tables takes: less to clear, and runs that overlap cost little.
const FEW: usize = 256;

// A child's root is marked, if it is not, and its node told.
fn meet(finder: &mut Finder<'_>, marks: &mut [u8], seen: &mut [u8], kid: Type) -> Option<TypeIdx>
    requires { SeesIn finder.old.nodes.now marks.old seen.old }
    ensures { MeetsIn finder.old.nodes.now kid.0 marks.old marks.new seen.new result × StaysLent finder.old finder.new }
{
    if roots::is_marked(seen, kid.idx()) {
        return None;
    }
    let root = finder.find(kid).idx();
    if roots::is_marked(marks, root) {
        roots::set_mark(seen, kid.idx());
        return None;
    }
    roots::set_mark(marks, root);
    if roots::is_marked(marks, root) {
        roots::set_mark(seen, kid.idx());
    }
    Some(root)
}

// The walk on from a marked root: each unmarked root of a child is marked and walked on from, one level less deep. Of a child whose root is marked
// there is nothing to do.
// Kept (6): three tables of one walk: the marks are lent by whoever asks, and the other two are the walk's own, in two sizes, of which `skips` is lent one alone.
fn mark_below(
    finder: &mut Finder<'_>,
    marks: &mut [u8],
    seen: &mut [u8],
    skip: &mut [u8],
    root: TypeIdx,
    depth: u32,
)
    requires { StandsIn finder.old.nodes.now × KeepsIn finder.old.nodes.now marks.old seen.old skip.old }
    ensures { (marks.new ≡ related_below depth (nodes_by finder.old.nodes.now) marks.old root.0)
        × KeepsIn finder.old.nodes.now marks.new seen.new skip.new × StaysLent finder.old finder.new }
{
    if depth == 0 {
        return;
    }
    let nodes = finder.nodes;
    let Some((_, kind)) = nodes.held(root) else {
        return;
    };
    let mut s = kind.first as usize;
    let end = s + kind.count as usize;
    // Kept (3): as a `for` it is no plainer: a turn goes on behind as many slots as the skips tell, so places are no counter.
    while s < end {
        let far = skips::pass(skip, s);
        if 0 < far {
            s += far;
        } else {
            let kid = layout::child_at(nodes.kids, s).ty;
            if let Some(next) = meet(finder, marks, seen, kid) {
                mark_below(finder, marks, seen, skip, next, depth - 1);
            }
            s = skips::stretch(nodes.kids, seen, skip, s, end);
        }
    }
}

// The walk with tables for so many nodes, and for so many child slots.
fn mark_with<const NODES: usize, const SLOTS: usize>(
    nodes: &Nodes<'_>,
    marks: &mut [u8],
    root: TypeIdx,
    depth: u32,
)
    requires stands { StandsIn nodes.now }
    requires small { (NODES ≤ MAX_NODES) × (SLOTS ≤ MAX_CHILDREN) }
    ensures { marks.new ≡ related_below depth (nodes_by nodes.now) marks.old root.0 }
{
    let mut cache = [0u16; NODES];
    let mut seen = [0u8; NODES];
    let mut skip = [0u8; SLOTS];
    let mut finder = Finder {
        nodes,
        cache: &mut cache,
    };
    mark_below(&mut finder, marks, &mut seen, &mut skip, root, depth);
}

// `find_related`: "nonzero means already in the set, and 1 is written for each root added".
pub fn find_related(nodes: &Nodes<'_>, marks: &mut [u8], t: Type)
    requires { StandsIn nodes.now }
    ensures { marks.new ≡ find_related (nodes_by nodes.now) (ty_of t.0) marks.old }
{
    if nodes.made == 0 {
        return;
    }
    let root = roots::find_in(nodes, t).idx();
    if roots::is_marked(marks, root) {
        return;
    }
    roots::set_mark(marks, root);
    if nodes.made <= FEW as u32 {
        mark_with::<FEW, 1>(nodes, marks, root, nodes.made - 1);
    } else {
        mark_with::<MAX_NODES, MAX_CHILDREN>(nodes, marks, root, nodes.made - 1);
    }
}

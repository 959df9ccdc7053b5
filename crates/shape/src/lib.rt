#![tactic(auto)]
// Whether a store's nodes have the shape of sound ones: no parent cycle, each root's size its tree's node count, no child cycle.
// Each node is climbed from once and visited once, so the time is linear in the nodes and their children.
ghost use Rattle.std.specs.Prelude.{◌≡◌, true, ◌<◌, get_or, set};
ghost use Rattle.scope.specs.Base.{all, from};
ghost use Rattle.scope.specs.Limits.{MAX_NODES};
ghost use Rattle.scope.specs.Sound.{shape_sound};
ghost use Rattle.layout.specs.Lent.{nodes_by};
ghost use Rattle.shape.specs.Walks.{ends};
ghost use Rattle.shape.specs.Read.{kid_at, ups_by, root_of, kids_by, size_by, size_fits};
ghost use Rattle.shape.specs.declared.Mark.TheVariants.{Fresh};
ghost use Rattle.shape.specs.Asks.{is_done, ShapedIn, ClimbsIn, Climbed, ClimbsAllIn, ClimbedAll, Rooted, Tallies, Tallied, FallsIn, VisitsIn, TriesIn, Visited};

use layout::{CHILD_WORDS, Nodes, TypeNode};
use scope::MAX_NODES;
use types::TypeIdx;

// A number for each node: how many nodes have this root, or its root's number and 1, where 0 is a root that is not known.
// Kept (1): a table of roots is fixed memory, four bytes a node, and no Option of a number is promised to be as small.
type Table = [u32; MAX_NODES];

// A node's mark while children are followed: no walk came to it, or it lies on the way, or every walk from it ends.
#[derive(Clone, Copy)]
enum Mark {
    Fresh,
    Open,
    Done,
}

// A mark for each node.
type Marks = [Mark; MAX_NODES];

// The node of the child at a place.
fn kid_at(ks: &[u32], i: usize) -> TypeIdx
    ensures { result.0 ≡ kid_at ks.now i }
{
    layout::child_at(ks, i).ty.idx()
}

// Kept (5): that a node's number is a place in a table is asked by five. It is known of a number where its node or child was read, so that a type which keeps it would be made
// of each of these by the same fact.
fn at(t: &Table, v: TypeIdx) -> u32
    requires { v.0 < MAX_NODES }
    ensures { result ≡ get_or t.now v.0 0 }
{
    t[v.0 as usize]
}

fn put(t: &mut Table, v: TypeIdx, x: u32)
    requires { v.0 < MAX_NODES }
    ensures { t.new ≡ set t.old v.0 x }
{
    t[v.0 as usize] = x;
}

// The root of v, of which roots holds one more; 0 is a root that is not known.
// Kept (1): no Option is answered: `visit` comes once `find_roots` has put a root for every node, and a None is nothing that it could answer.
fn root_of(roots: &Table, v: TypeIdx) -> TypeIdx
    requires { (v.0 < MAX_NODES) × (0 < get_or roots.now v.0 0) }
    ensures { result.0 ≡ root_of roots.now v.0 }
{
    TypeIdx(at(roots, v) - 1)
}

// Whether v's root is known or fewer than depth parent steps lead there. roots then holds it, and that of each node on the way.
fn climb(nodes: &Nodes<'_>, roots: &mut Table, v: TypeIdx, depth: u32) -> bool
    requires { ClimbsIn nodes.now roots.old v.0 }
    ensures { Climbed (ups_by nodes.now) depth v.0 roots.old roots.new result }
{
    if at(roots, v) != 0 {
        return true;
    }
    if depth == 0 {
        return false;
    }
    match nodes.node(v) {
        TypeNode::Root { .. } => {
            put(roots, v, v.0 + 1);
            true
        }
        TypeNode::Child(t) => {
            let p = t.idx();
            if !climb(nodes, roots, p, depth - 1) {
                return false;
            }
            let root = at(roots, p);
            put(roots, v, root);
            true
        }
    }
}

// Whether every node has a root; then roots holds it for each.
fn find_roots(nodes: &Nodes<'_>, roots: &mut Table) -> bool
    requires { ClimbsAllIn nodes.now roots.old }
    ensures { ClimbedAll (ups_by nodes.now) nodes.now.made roots.new result }
{
    // Kept (3): as `all` it is no plainer: a turn changes `roots`, so that the closure would have a contract beside this loop's invariant.
    for i in 0..nodes.made {
        let v = TypeIdx(i);
        match nodes.node(v) {
            TypeNode::Root { .. } => put(roots, v, i + 1),
            TypeNode::Child(_) => {
                if !climb(nodes, roots, v, nodes.made) {
                    return false;
                }
            }
        }
    }
    true
}

// How many nodes have each root, into counts, which holds zeros.
fn tally(roots: &Table, n: u32, counts: &mut Table)
    requires { Tallies roots.now counts.old n }
    ensures { Tallied roots.now n counts.new }
{
    for more in &roots[..n as usize] {
        let r = TypeIdx(*more - 1);
        let count = at(counts, r);
        put(counts, r, count + 1);
    }
}

// Whether v's size, if it is a root, is the one counted.
fn size_ok(nodes: &Nodes<'_>, counts: &Table, v: TypeIdx) -> bool
    requires { v.0 < MAX_NODES }
    ensures { result ≡ size_by (get_or counts.now v.0 0) (ups_by nodes.now v.0) }
{
    match nodes.node(v) {
        TypeNode::Root { size, .. } => size == at(counts, v),
        TypeNode::Child(_) => true,
    }
}

// Whether each root's size is its tree's node count.
fn sizes_ok(nodes: &Nodes<'_>, roots: &Table) -> bool
    requires { Rooted roots.now nodes.now.made }
    ensures { result ≡ all (size_fits nodes.now.words.now nodes.now.made roots.now) (from 0 nodes.now.made) }
{
    let mut counts: Table = [0u32; MAX_NODES];
    tally(roots, nodes.made, &mut counts);
    (0..nodes.made).all(|i| size_ok(nodes, &counts, TypeIdx(i)))
}

fn is_done(marks: &Marks, v: TypeIdx) -> bool
    requires { v.0 < MAX_NODES }
    ensures { result ≡ is_done (get_or marks.now v.0 Fresh) }
{
    matches!(marks[v.0 as usize], Mark::Done)
}

// Whether every walk from v to the roots of children ends. One that comes back to an open node does not, and one to a done node does.
fn visit(nodes: &Nodes<'_>, roots: &Table, marks: &mut Marks, v: TypeIdx) -> bool
    requires { VisitsIn nodes.now roots.now marks.old v.0 }
    ensures { Visited (kids_by nodes.now roots.now) nodes.now.made v.0 marks.old marks.new result }
{
    match marks[v.0 as usize] {
        Mark::Done => return true,
        Mark::Open => return false,
        Mark::Fresh => {}
    }
    marks[v.0 as usize] = Mark::Open;
    let Some((_, kind)) = nodes.held(v) else {
        marks[v.0 as usize] = Mark::Done;
        return true;
    };
    let first = kind.first as usize;
    // Kept (3): as `all` it is no plainer: a turn changes `marks`, so that the closure would have a contract beside this loop's invariant.
    for i in first..first + kind.count as usize {
        let r = root_of(roots, kid_at(nodes.kids, i));
        if !visit(nodes, roots, marks, r) {
            return false;
        }
    }
    marks[v.0 as usize] = Mark::Done;
    true
}

// A quick yes to whether every walk from v ends, where those from the nodes before v do: the roots of its children lie before v, or are done. Where nodes are
// made after their children few marks are read. A run that is not all lent has no quick yes, so a child is read without a test of its own.
// Kept (3): each is looked at, whatever the others are, as in `clean::all_zero`. As a fold it is no plainer: the closure would
// have a contract for what this loop's invariant knows, that a child's number has a place in `roots`.
fn kids_done(nodes: &Nodes<'_>, roots: &Table, marks: &Marks, v: TypeIdx) -> bool
    requires { TriesIn nodes.now roots.now marks.now v.0 }
    ensures { result ≡ true → ends (kids_by nodes.now roots.now) nodes.now.made v.0 ≡ true }
{
    let Some((_, kind)) = nodes.held(v) else {
        return true;
    };
    let first = kind.first as usize;
    let end = first + kind.count as usize;
    if nodes.kids.len() / CHILD_WORDS < end {
        return false;
    }
    let mut done = true;
    for i in first..end {
        let root_more = at(roots, kid_at(nodes.kids, i));
        if v.0 < root_more && !is_done(marks, TypeIdx(root_more - 1)) {
            done = false;
        }
    }
    done
}

// Whether no walk to the roots of children comes back.
fn falls_ok(nodes: &Nodes<'_>, roots: &Table) -> bool
    requires { FallsIn nodes.now roots.now }
    ensures { result ≡ all (ends (kids_by nodes.now roots.now) nodes.now.made) (from 0 nodes.now.made) }
{
    let mut marks = [Mark::Fresh; MAX_NODES];
    // Kept (3): as `all` it is no plainer: a turn changes `marks`, so that the closure would have a contract beside this loop's invariant.
    for i in 0..nodes.made {
        let v = TypeIdx(i);
        if is_done(&marks, v) {
            continue;
        }
        if kids_done(nodes, roots, &marks, v) {
            marks[v.0 as usize] = Mark::Done;
        } else if !visit(nodes, roots, &mut marks, v) {
            return false;
        }
    }
    true
}

// No "parent or child cycle", no "root size that isn't its tree's node count".
pub fn shape_ok(nodes: &Nodes<'_>) -> bool
    requires { ShapedIn nodes.now }
    ensures { result ≡ shape_sound (nodes_by nodes.now) }
{
    let mut roots: Table = [0u32; MAX_NODES];
    find_roots(nodes, &mut roots) && sizes_ok(nodes, &roots) && falls_ok(nodes, &roots)
}

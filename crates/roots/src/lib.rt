#![tactic(auto)]
// "`find` follows parents, combining inversions by exclusive or. `find_mut` also points every node on the path straight at the root, keeping each
// node's meaning." Both look at node words alone, and take as many steps at most as there are nodes. Beside them what a walk over roots keeps for each
// node: a mark, and its root once that is found.
ghost use Rattle.std.specs.Prelude.{◌≡◌, not, ◌<◌, ◌≤◌, length, eqb, get_or, set};
ghost use Rattle.scope.specs.Types.{INV_BIT, ty_of};
ghost use Rattle.layout.specs.Words.{node_words};
ghost use Rattle.layout.specs.Meaning.{Linked, held_in, read_at};
ghost use Rattle.layout.specs.Lent.{LinkedIn};
ghost use Rattle.roots.specs.Found.{Found, FoundIn, FoundMut, Near};
ghost use Rattle.roots.specs.Kept.{kept_word, Kept, RootedIn, ToppedIn, CachedIn};
ghost use Rattle.roots.specs.Nil.{nil_by};

use layout::{Nodes, TypeNode};
use types::{Inverted, Type, TypeIdx};
use words::put;

// The root of a type among n nodes, with the inversions on the way.
fn climb(ws: &[u32], n: u32, t: Type) -> Type
    requires { Linked ws.now n }
    ensures { Found ws.now n t.0 result.0 }
{
    let mut inv = t.inv();
    let mut cur = t.idx();
    for step in 0..n {
        let TypeNode::Child(parent) = layout::node_at(ws, n, cur) else {
            return Type::new(inv, cur);
        };
        inv = inv ^ parent.inv();
        cur = parent.idx();
    }
    Type::new(inv, cur)
}

// The same; every node on the path becomes the root's child.
fn find_far(ws: &mut [u32], n: u32, t: Type) -> Type
    requires { Linked ws.old n }
    ensures { FoundMut ws.old n ws.new t.0 result.0 }
{
    let root = climb(ws, n, t);
    let mut inv = t.inv();
    let mut cur = t.idx();
    for _ in 0..n {
        let TypeNode::Child(prev_parent) = layout::node_at(ws, n, cur) else {
            return root;
        };
        layout::put_node(ws, n, cur, TypeNode::Child(root.invert_if(inv)));
        inv = inv ^ prev_parent.inv();
        cur = prev_parent.idx();
    }
    root
}

// The root of a type whose node is a root or a root's child: `find_mut` then leaves every node as it is.
pub fn near(ws: &[u32], n: u32, t: Type) -> Option<Type>
    requires { Linked ws.now n }
    ensures { Near ws.now n t.0 result }
{
    let TypeNode::Child(parent) = layout::node_at(ws, n, t.idx()) else {
        return Some(t);
    };
    match layout::node_at(ws, n, parent.idx()) {
        TypeNode::Root { .. } => Some(parent.invert_if(t.inv())),
        TypeNode::Child(_) => None,
    }
}

// The same; a type that is near is told at once.
pub fn find(ws: &[u32], n: u32, t: Type) -> Type
    requires { Linked ws.now n }
    ensures { Found ws.now n t.0 result.0 }
{
    near(ws, n, t).unwrap_or_else(|| climb(ws, n, t))
}

// The same among nodes that are lent as one.
pub fn find_in(nodes: &Nodes<'_>, t: Type) -> Type
    requires { LinkedIn nodes.now }
    ensures { FoundIn nodes.now t.0 result.0 }
{
    find(nodes.words, nodes.made, t)
}

// "`find_mut` also points every node on the path straight at the root": a type that is near has no such path.
pub fn find_mut(ws: &mut [u32], n: u32, t: Type) -> Type
    requires { Linked ws.old n }
    ensures { FoundMut ws.old n ws.new t.0 result.0 }
{
    // Kept (1): tried as `near(..).unwrap_or_else(|| find_far(..))`: the proof did not close, since at `returns` what the closure ensures of the lent `ws` cannot be named.
    match near(ws, n, t) {
        Some(r) => r,
        None => find_far(ws, n, t),
    }
}

// A Tuple of nothing.
pub fn nil_at(ws: &[u32], n: u32, i: TypeIdx) -> bool
    requires { node_words n ≤ length ws.now }
    ensures { result ≡ nil_by (held_in (read_at ws.now n i.0)) }
{
    layout::held_at(ws, n, i).is_some_and(|(_, kind)| kind.code == kinds::TUPLE && kind.count == 0)
}

// A mark for each node is a lent byte: nonzero is a mark, "absent means no".
pub fn is_marked(marks: &[u8], i: TypeIdx) -> bool
    ensures { result ≡ not (eqb (get_or marks.now i.0 0) 0) }
{
    marks.get(i.0 as usize).is_some_and(|mark| *mark != 0)
}

pub fn set_mark(marks: &mut [u8], i: TypeIdx)
    ensures { marks.new ≡ set marks.old i.0 1 }
{
    put(marks, i.0 as usize, 1);
}

// A cache has a number for each node: 0, or its root's number and 1, and KEPT_INV more where the root is to be inverted.
// Kept (1): the table is fixed memory, two bytes a node, and no Option of a nonzero number is promised to be as small; `kept` reads them as an Option.
const KEPT_INV: u32 = 32768;

// Node i's root by a cache, if it is there.
fn kept_at(cache: &[u16], i: TypeIdx) -> Option<Type>
    ensures { Kept (get_or cache.now i.0 0) result }
{
    let was = u32::from(*cache.get(i.0 as usize)?).checked_sub(1)?;
    if was < KEPT_INV {
        Some(Type(was))
    } else {
        Some(Type(was - KEPT_INV).inverse())
    }
}

// The number of a root in a cache; 0 of one that is too large for it.
fn kept_word(root: Type) -> u16
    ensures { result ≡ kept_word (ty_of root.0) }
{
    let i = root.idx().0;
    if KEPT_INV <= i + 1 {
        0
    } else if root.inv().0 {
        (i + 1 + KEPT_INV) as u16
    } else {
        (i + 1) as u16
    }
}

// Nodes that stay as they are, whose parents can be followed, and a cache of their roots: for whoever asks for many.
#[derive(Drop)]
pub struct Finder<'a> {
    pub nodes: &'a Nodes<'a>,
    pub cache: &'a mut [u16],
    pub ghost linked: { LinkedIn nodes.now },
    pub ghost cached: { CachedIn nodes.now cache.now },
}

impl Finder<'_> {
    ghost use Rattle.roots.specs.StaysLent.{StaysLent};

    // Node i's root, if it is kept.
    fn kept(&self, i: TypeIdx) -> Option<Type>
        ensures { ToppedIn self.now.nodes.now i.0 result }
    {
        kept_at(self.cache, i)
    }

    // Past the cache's end nothing is kept.
    fn keep(&mut self, i: TypeIdx, root: Type)
        requires { RootedIn self.old.nodes.now i.0 (ty_of root.0) }
        ensures { StaysLent self.old self.new }
    {
        put(self.cache, i.0 as usize, kept_word(root));
    }

    // A node's root by the first node on its path that is kept or a root; none where as many steps as there are nodes meet neither.
    fn top(&self, i: TypeIdx) -> Option<Type>
        requires { i.0 < INV_BIT }
        ensures { ToppedIn self.now.nodes.now i.0 result }
    {
        let nodes = self.nodes;
        let mut inv = Inverted(false);
        let mut cur = i;
        for _ in 0..nodes.made {
            if let Some(known) = self.kept(cur) {
                return Some(known.invert_if(inv));
            }
            let TypeNode::Child(parent) = nodes.node(cur) else {
                return Some(Type::new(inv, cur));
            };
            inv = inv ^ parent.inv();
            cur = parent.idx();
        }
        None
    }

    // Keeps a node's root, and so that of each node on its path before the first that is kept or a root.
    fn keep_path(&mut self, i: TypeIdx, root: Type)
        requires { RootedIn self.old.nodes.now i.0 (ty_of root.0) }
        ensures { StaysLent self.old self.new }
    {
        let nodes = self.nodes;
        let mut cur = i;
        let mut top = root;
        for _ in 0..nodes.made {
            let TypeNode::Child(parent) = nodes.node(cur) else {
                return;
            };
            if self.kept(cur).is_some() {
                return;
            }
            self.keep(cur, top);
            top = top.invert_if(parent.inv());
            cur = parent.idx();
        }
    }

    // The root of a type, whose path is kept. A path that meets no root is followed as `find_in` does, and nothing is kept of it.
    fn find_path(&mut self, t: Type) -> Type
        ensures { FoundIn self.old.nodes.now t.0 result.0 × StaysLent self.old self.new }
    {
        let i = t.idx();
        let Some(root) = self.top(i) else {
            return climb(self.nodes.words, self.nodes.made, t);
        };
        self.keep_path(i, root);
        root.invert_if(t.inv())
    }

    // A root's child has no path but itself.
    fn find_new(&mut self, t: Type) -> Type
        ensures { FoundIn self.old.nodes.now t.0 result.0 × StaysLent self.old self.new }
    {
        let nodes = self.nodes;
        let i = t.idx();
        let TypeNode::Child(parent) = nodes.node(i) else {
            return t;
        };
        let TypeNode::Child(_) = nodes.node(parent.idx()) else {
            self.keep(i, parent);
            return parent.invert_if(t.inv());
        };
        self.find_path(t)
    }

    // The root of a type by its node's entry in the cache, which is made where there is none. With its loops it stays behind a call.
    #[inline(never)]
    fn find_kept(&mut self, t: Type) -> Type
        ensures { FoundIn self.old.nodes.now t.0 result.0 × StaysLent self.old self.new }
    {
        match self.kept(t.idx()) {
            Some(known) => known.invert_if(t.inv()),
            None => self.find_new(t),
        }
    }

    // The root of a type, as `find_in` tells it, where much is asked for and nothing changes: a path that is followed is kept, each of its nodes with its root,
    // and a later one ends where it meets it. A caller has the test for a root in its own code.
    pub fn find(&mut self, t: Type) -> Type
        ensures { FoundIn self.old.nodes.now t.0 result.0 × StaysLent self.old self.new }
    {
        match self.nodes.node(t.idx()) {
            TypeNode::Root { .. } => t,
            TypeNode::Child(_) => self.find_kept(t),
        }
    }
}

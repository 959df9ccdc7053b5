#![tactic(auto)]
// A type copied out of one store into another, with all below it: "Each source root becomes a new Unknown before its children are walked, then takes
// its kind." A table with a number for each node of the source says which roots have a copy, and a cache keeps the roots found. Nothing here can fail:
// what is asked for is room.
// Kept (5): the table goes beside the destination's three slices here, in `copy_parts` and in `copy_lists`; why those are no struct, `promise` says.
ghost use Rattle.scope.specs.Types.{ty_of};
ghost use Rattle.roots.specs.StaysLent.{StaysLent};
ghost use Rattle.copy_parts.specs.Places.{params_in};
ghost use Rattle.copy_type.specs.Words.{copying_at, CopyableFrom, copy_from, CopiedIs};

use copy_parts::Place;
use roots::Finder;
use types::Type;

// The copy of t, at most so deep.
pub fn copy(
    finder: &mut Finder<'_>,
    params: Option<&[u32]>,
    table: &mut [u32],
    h: &mut [u32],
    ws: &mut [u32],
    ks: &mut [u32],
    t: Type,
    depth: u32,
) -> Type
    requires { CopyableFrom finder.old.nodes.now (params_in params) depth h.old ws.old ks.old table.old t }
    ensures { CopiedIs (copy_from finder.old.nodes.now (params_in params.entry) depth (copying_at h.old ws.old ks.old table.old) (ty_of t.0))
        h.old ws.old ks.old h.new ws.new ks.new table.new result
        × StaysLent finder.old finder.new }
{
    if depth == 0 {
        return t;
    }
    let nodes = finder.nodes;
    let root = finder.find(t);
    match copy_parts::root_place(nodes, params, table, root) {
        Place::Is(u) => u,
        Place::Node(span, first, count) => {
            let at = root.idx();
            let from = layout::read_header(h).children;
            let new = copy_parts::begin(table, h, ws, ks, at, span, count);
            for j in 0..count {
                let kid = nodes.child(first, j).ty;
                let next = copy(finder, params, table, h, ws, ks, kid, depth - 1);
                copy_parts::move_child(nodes.kids, first, ks, from, j, next);
            }
            copy_parts::end(nodes, at, h, ws, new.idx(), from);
            new.invert_if(root.inv())
        }
    }
}

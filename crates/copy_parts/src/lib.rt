#![tactic(auto)]
// The steps of copying types out of one store into another, by a table with a number for each node of the source: 0 where a root has no copy, else its
// copy's number and 1. What a root becomes; its blank, a child moved, the kind taken. Nothing here can fail: what is asked for is room.
ghost use Rattle.std.specs.Prelude.{◌≡◌, ◌+◌, ◌*◌, ◌≤◌, length, get_or};
ghost use Rattle.scope.specs.Limits.{MAX_NODES};
ghost use Rattle.scope.specs.Types.{ty_of};
ghost use Rattle.layout.specs.Words.{CHILD_WORDS, node_words, nodes_made};
ghost use Rattle.layout.specs.Meaning.{held_in, read_at};
ghost use Rattle.store.specs.Holds.{Ready};
ghost use Rattle.copy_parts.specs.Places.{params_in, CopyNoted, EntryPlace, KindPlace, StatePlace, RootPlace};
ghost use Rattle.copy_parts.specs.Steps.{Begun, ChildMoved, ended};

use kinds::PARAM;
use layout::{Kind, Nodes, Slot, TypeNode, TypeState};
use scope::NONE;
use types::{Inverted, Type, TypeIdx};

// What a source root becomes.
#[derive(Clone, Copy)]
pub enum Place {
    // Its copy, or its entry: "a Param is replaced by that entry and no node is made".
    Is(Type),
    // A new node: its span until it takes its kind, and the children that lie from a place on, so many.
    Node(u32, u32, u32),
}

// A Param takes the entry's inversion, its own, and that of the type that led to it. One with no entry stays as it is: callers have tested for it.
fn entry_place(params: &[u32], root: Type, inv: Inverted, number: u32) -> Place
    ensures { EntryPlace params.now root inv number result }
{
    let Some(&entry) = params.get(number as usize) else {
        return Place::Is(root);
    };
    Place::Is(Type(entry).invert_if(inv).invert_if(root.inv()))
}

fn kind_place(params: Option<&[u32]>, root: Type, inv: Inverted, kind: Kind) -> Place
    ensures { KindPlace (params_in params.entry) root inv kind result }
{
    match params {
        Some(list) if kind.code == PARAM => entry_place(list, root, inv, kind.number),
        _ => Place::Node(NONE, kind.first, kind.count),
    }
}

// "InferenceFailed becomes Unknown with `Span::NONE`."
fn state_place(nodes: &Nodes<'_>, params: Option<&[u32]>, root: Type) -> Place
    ensures { StatePlace nodes.now.words.now nodes.now.made (params_in params.entry) root result }
{
    match layout::state_of(nodes.node(root.idx())) {
        TypeState::Known(inv, kind) => kind_place(params, root, inv, kind),
        TypeState::Unknown(span) => Place::Node(span, 0, 0),
        TypeState::InferenceFailed => Place::Node(NONE, 0, 0),
    }
}

// The copy that the table has of a root, if any: its number is 1 more, and 0 where there is none.
// Kept (1): the table is fixed memory, four bytes a node, and no Option of a number is promised to be as small; here it is read as one.
fn copy_of(table: &[u32], i: TypeIdx) -> Option<TypeIdx>
    ensures { CopyNoted (get_or table.now i.0 0) result }
{
    let copy = table.get(i.0 as usize)?.checked_sub(1)?;
    Some(TypeIdx(copy))
}

// Of a root that has a copy, its copy.
pub fn root_place(nodes: &Nodes<'_>, params: Option<&[u32]>, table: &[u32], root: Type) -> Place
    requires { get_or table.now (ty_of root.0).idx 0 ≤ MAX_NODES }
    ensures { RootPlace nodes.now.words.now nodes.now.made (params_in params.entry) table.now root result }
{
    match copy_of(table, root.idx()) {
        Some(copy) => Place::Is(Type::new(root.inv(), copy)),
        None => state_place(nodes, params, root),
    }
}

// A new Unknown for the source root i, with `count` children reserved, and the table says so.
pub fn begin(
    table: &mut [u32],
    h: &mut [u32],
    ws: &mut [u32],
    ks: &[u32],
    i: TypeIdx,
    span: u32,
    count: u32,
) -> Type
    requires { Ready h.old ws.old ks.now 1 count }
    ensures { Begun table.old h.old ws.old ks.now i.0 span count
        table.new h.new ws.new result }
{
    let new = make::push_unknown(h, ws, span, count);
    words::put(table, i.0 as usize, new.0 + 1);
    new
}

// The type t stands in the reserved slot j, with the name of the source's child j.
pub fn move_child(kids: &[u32], from: u32, ks: &mut [u32], first: u32, j: u32, t: Type)
    requires { (first + j) * CHILD_WORDS + CHILD_WORDS ≤ length ks.old }
    ensures { ChildMoved kids.now from ks.old first j t.0 ks.new }
{
    let name = layout::child_of(kids, from, j).name;
    layout::put_child(ks, first as usize + j as usize, Slot { ty: t, name });
}

// It "then takes its kind": the copy of the source root i, with its children from `first` on. What has no kind stays an Unknown.
pub fn end(nodes: &Nodes<'_>, i: TypeIdx, h: &[u32], ws: &mut [u32], new: TypeIdx, first: u32)
    requires { node_words (nodes_made h.now) ≤ length ws.old }
    ensures { ws.new ≡ ended ws.old (nodes_made h.now) new.0 first (held_in (read_at nodes.now.words.now nodes.now.made i.0)) }
{
    let made = layout::read_header(h).nodes;
    let Some((inv, kind)) = nodes.held(i) else {
        return;
    };
    let state = TypeState::Known(inv, Kind { first, ..kind });
    layout::put_node(ws, made, new, TypeNode::Root { state, size: 1 });
}

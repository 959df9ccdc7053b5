// A node's twelve words.
ghost use Rattle.std.specs.Prelude.{◌≡◌};
ghost use Rattle.layout.specs.Meaning.{plain_cell, cell_of};

use crate::{CHILD_TAG, Cell, FAILED_TAG, KNOWN_TAG, TypeNode, TypeState, UNKNOWN_TAG};
use names::NO_NAME;

// The words of a node without a kind.
fn plain_cell(tag: u32, link: u32, size: u32) -> Cell
    ensures { result ≡ plain_cell tag link size }
{
    Cell {
        tag,
        link,
        size,
        inv: 0,
        code: 0,
        number: 0,
        dual: 0,
        flex: 0,
        name: NO_NAME,
        count: 0,
    }
}

pub fn cell_of(n: TypeNode) -> Cell
    ensures { result ≡ cell_of n }
{
    match n {
        TypeNode::Child(t) => plain_cell(CHILD_TAG, t.0, 0),
        TypeNode::Root { state, size } => match state {
            TypeState::Unknown(span) => plain_cell(UNKNOWN_TAG, span, size),
            TypeState::InferenceFailed => plain_cell(FAILED_TAG, 0, size),
            TypeState::Known(inv, kind) => Cell {
                tag: KNOWN_TAG,
                link: kind.first,
                size,
                inv: u32::from(inv.0),
                code: kind.code,
                number: kind.number,
                dual: u32::from(kind.dual),
                flex: kind.flex,
                name: kind.name,
                count: kind.count,
            },
        },
    }
}

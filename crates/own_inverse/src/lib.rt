#![tactic(auto)]
// Whether a root is its own inverse, beside a lent memory: every root that a good walk met is its own inverse too, and stays so whatever merges. So all of them are
// marked in the memory, and no walk goes below a marked node: however many ask, what is found good is walked over once.
ghost use Rattle.own_inverse.specs.Own.{OwnAsksIn, OwnToldIn};

use layout::Nodes;
use scope::MAX_NODES;
use types::Type;

// By a walk with marks.
fn by_memory(nodes: &Nodes<'_>, memory: &mut [u32], a: Type) -> bool
    requires { OwnAsksIn nodes.now memory.old a.0 }
    ensures { OwnToldIn nodes.now memory.old memory.new a.0 result }
{
    let mut found = [0u8; MAX_NODES];
    marks::tell(memory, &mut found);
    if !inverse::by_marks(nodes, &mut found, a, false) {
        return false;
    }
    marks::know_new(memory, &found);
    true
}

// By the root and some visits, where these tell it.
pub fn ask(nodes: &Nodes<'_>, memory: &mut [u32], a: Type) -> bool
    requires { OwnAsksIn nodes.now memory.old a.0 }
    ensures { OwnToldIn nodes.now memory.old memory.new a.0 result }
{
    let Some(own) = inverse::quickly(nodes, a, false) else {
        return by_memory(nodes, memory, a);
    };
    if own {
        marks::know(memory, a.idx());
    }
    own
}

// Core functions that ask, without tests, as `direct` has those that make: each asks what the core function asks that it calls, and promises the same of a number.
ghost use Rattle.std.specs.Prelude.{◌≡◌, false};
ghost use Rattle.scope.specs.Types.{ty_of};
ghost use Rattle.scope.specs.Unify.{self_inverse_of};
ghost use Rattle.scope.specs.Force.{find_related};
ghost use Rattle.layout.specs.Words.{decode};
ghost use Rattle.layout.specs.Meaning.{Linked};
ghost use Rattle.roots.specs.Found.{Found, FoundMut};
ghost use Rattle.walk.specs.Asks.{Stands, Inverses};
ghost use Rattle.bench.specs.Numbers.{flag_of, NilNumber, ModNumber};

use layout::Nodes;
use types::Type;
use walk::Mod;

#[unsafe(no_mangle)]
pub extern "C" fn faroalder_direct_find(ws: &[u32], n: u32, t: u32) -> u32
    requires { Linked ws.now n }
    ensures { Found ws.now n t result }
{
    roots::find(ws, n, Type(t)).0
}

#[unsafe(no_mangle)]
pub extern "C" fn faroalder_direct_find_mut(ws: &mut [u32], n: u32, t: u32) -> u32
    requires { Linked ws.old n }
    ensures { FoundMut ws.old n ws.new t result }
{
    roots::find_mut(ws, n, Type(t)).0
}

#[unsafe(no_mangle)]
pub extern "C" fn faroalder_direct_is_nil(ws: &[u32], n: u32, t: u32) -> u32
    requires { Linked ws.now n }
    ensures { NilNumber ws.now n t result }
{
    u32::from(walk::is_nil(ws, n, Type(t)))
}

#[unsafe(no_mangle)]
pub extern "C" fn faroalder_direct_self_inverse(ws: &[u32], ks: &[u32], n: u32, t: u32) -> u32
    requires { Inverses ws.now ks.now n t }
    ensures { result ≡ flag_of (self_inverse_of (decode ws.now ks.now n) (ty_of t) false) }
{
    let nodes = Nodes {
        words: ws,
        kids: ks,
        made: n,
    };
    u32::from(walk::self_inverse(&nodes, Type(t), false))
}

// A definition's number, and 0 for anything else.
#[unsafe(no_mangle)]
pub extern "C" fn faroalder_direct_get_mod(
    ws: &[u32],
    ks: &[u32],
    n: u32,
    chart: &[u32],
    t: u32,
) -> u32
    requires { Stands ws.now ks.now n }
    ensures { ModNumber ws.now ks.now n chart.now t result }
{
    let nodes = Nodes {
        words: ws,
        kids: ks,
        made: n,
    };
    match walk::get_mod(&nodes, chart, Type(t)) {
        Mod::Def(d) => d,
        Mod::Error => 0,
        Mod::Nothing => 0,
    }
}

#[unsafe(no_mangle)]
pub extern "C" fn faroalder_direct_find_related(
    ws: &[u32],
    ks: &[u32],
    n: u32,
    marks: &mut [u8],
    t: u32,
)
    requires { Stands ws.now ks.now n }
    ensures { marks.new ≡ find_related (decode ws.now ks.now n) (ty_of t) marks.old }
{
    let nodes = Nodes {
        words: ws,
        kids: ks,
        made: n,
    };
    related::find_related(&nodes, marks, Type(t));
}

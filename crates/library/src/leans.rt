// Calls on a tested store that are lent no more than they look at, for callers to whom a call's arguments are much of its time. Each is the call of the second
// family with the same name, but for `new_over`, which is `new` of a kind without names.
ghost use Rattle.scope.specs.Types.{ty_of};
ghost use Rattle.scope.specs.Calls.{new_var_call, error_call, nil_call, find_call, find_mut_call};
ghost use Rattle.tested_lean.specs.Each.{Passed, EachPromised, EachAnswered};
ghost use Rattle.tested_over.specs.Over.{PassedBy, OverPromised};
ghost use Rattle.c_words.specs.Numbers.{type_in};

use heads::Once;
use types::Type;

// "`new_var`": a type without a kind, and its span.
#[unsafe(no_mangle)]
pub extern "C" fn faroalder_lean_new_var(h: &mut [u32], ws: &mut [u32], span: u32) -> u64
    requires { Passed h.old ws.old }
    ensures { EachPromised (λ e l. new_var_call e l span) (type_in result) h.old ws.old h.new ws.new }
{
    c_words::type_number(tested_lean::new_var(h, ws, span))
}

// The error type.
#[unsafe(no_mangle)]
pub extern "C" fn faroalder_lean_error(h: &mut [u32], ws: &mut [u32]) -> u64
    requires { Passed h.old ws.old }
    ensures { EachPromised error_call (type_in result) h.old ws.old h.new ws.new }
{
    c_words::type_number(tested_lean::once(h, ws, Once::Error))
}

// The type of nothing: a Tuple without children.
#[unsafe(no_mangle)]
pub extern "C" fn faroalder_lean_nil(h: &mut [u32], ws: &mut [u32]) -> u64
    requires { Passed h.old ws.old }
    ensures { EachPromised nil_call (type_in result) h.old ws.old h.new ws.new }
{
    c_words::type_number(tested_lean::once(h, ws, Once::Nil))
}

// "`find` follows parents, combining inversions by exclusive or."
#[unsafe(no_mangle)]
pub extern "C" fn faroalder_lean_find(h: &[u32], ws: &[u32], t: u32) -> u64
    requires { Passed h.now ws.now }
    ensures { EachAnswered (λ e l. find_call e l (ty_of t)) (type_in result) h.now ws.now }
{
    c_words::type_number(tested_lean::find(h, ws, Type(t)))
}

// "`find_mut` also points every node on the path straight at the root, keeping each node's meaning."
#[unsafe(no_mangle)]
pub extern "C" fn faroalder_lean_find_mut(h: &[u32], ws: &mut [u32], t: u32) -> u64
    requires { Passed h.now ws.old }
    ensures { EachPromised (λ e l. find_mut_call e l (ty_of t)) (type_in result) h.now ws.old h.now ws.new }
{
    c_words::type_number(tested_lean::find_mut(h, ws, Type(t)))
}

// `new` of a kind without names over listed types; a kind that has names is turned back with 4.
#[unsafe(no_mangle)]
pub extern "C" fn faroalder_lean_new_over(
    chart: &[u32],
    h: &mut [u32],
    ws: &mut [u32],
    ks: &mut [u32],
    code: u32,
    number: u32,
    types: &[u32],
) -> u64
    requires { PassedBy chart.now h.old ws.old ks.old }
    ensures { OverPromised chart.now code number types.now (type_in result)
        h.old ws.old ks.old h.new ws.new ks.new }
{
    c_words::type_number(tested_over::new_over(chart, h, ws, ks, code, number, types))
}

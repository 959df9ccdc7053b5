// Finding a type's root and reading nodes, on a tested store.
ghost use Rattle.std.specs.Prelude.{◌≡◌};
ghost use Rattle.scope.specs.Types.{ty_of};
ghost use Rattle.scope.specs.Calls.{find_call, find_mut_call, node_call, child_call, name_call, figures_call};
ghost use Rattle.layout.specs.Words.{lent_of, store_in};
ghost use Rattle.promise.specs.Promise.{Promised, Tested, outcome_by};
ghost use Rattle.call_read.specs.Replies.{NodePromised, child_reply, name_reply, figures_reply};
ghost use Rattle.c_words.specs.Numbers.{type_in};
ghost use Rattle.c_words.specs.Given.{lent_env};
ghost use Rattle.c_outs.specs.Outs.{node_in, node_out, child_in, child_out, name_answer_in, name_out, figures_in, figures_out, Tells};

use types::Type;

// "`find` follows parents, combining inversions by exclusive or."
#[unsafe(no_mangle)]
pub extern "C" fn faroalder_tested_find<'a>(
    chart: &[u32],
    fn_trait: u32,
    sigils: &[u32; 12],
    rule: &'a [u8],
    text: &'a [u8],
    h: &[u32],
    ws: &[u32],
    ks: &[u32],
    t: u32,
) -> u64
    requires { Tested (lent_env chart.now fn_trait sigils.now rule.now text.now) h.now ws.now ks.now }
    ensures { find_call
        (lent_env chart.now fn_trait sigils.now rule.now text.now) (lent_of h.now ws.now ks.now) (ty_of t)
        ≡ outcome_by (type_in result) (store_in h.now ws.now ks.now) }
{
    let env = c_words::env_of(chart, fn_trait, sigils, rule, text);
    c_words::type_number(call_find::tested::find(&env, h, ws, ks, Type(t)))
}

// "`find_mut` also points every node on the path straight at the root, keeping each node's meaning."
#[unsafe(no_mangle)]
pub extern "C" fn faroalder_tested_find_mut<'a>(
    chart: &[u32],
    fn_trait: u32,
    sigils: &[u32; 12],
    rule: &'a [u8],
    text: &'a [u8],
    h: &[u32],
    ws: &mut [u32],
    ks: &[u32],
    t: u32,
) -> u64
    requires { Tested (lent_env chart.now fn_trait sigils.now rule.now text.now) h.now ws.old ks.now }
    ensures { Promised
        (find_mut_call (lent_env chart.now fn_trait sigils.now rule.now text.now) (lent_of h.now ws.old ks.now) (ty_of t))
        (type_in result) h.now ws.old ks.now h.now ws.new ks.now }
{
    let env = c_words::env_of(chart, fn_trait, sigils, rule, text);
    c_words::type_number(call_find::tested::find_mut(&env, h, ws, ks, Type(t)))
}

// A type's node as it stands, be it a root or a child.
#[unsafe(no_mangle)]
pub extern "C" fn faroalder_tested_node<'a>(
    chart: &[u32],
    fn_trait: u32,
    sigils: &[u32; 12],
    rule: &'a [u8],
    text: &'a [u8],
    h: &[u32],
    ws: &[u32],
    ks: &[u32],
    t: u32,
    out: &mut [u32; 12],
) -> u64
    requires { Tested (lent_env chart.now fn_trait sigils.now rule.now text.now) h.now ws.now ks.now }
    ensures { Tells node_in node_out out.old out.new result (λ a. NodePromised
        (node_call (lent_env chart.now fn_trait sigils.now rule.now text.now) (lent_of h.now ws.now ks.now) (ty_of t))
        a h.now ws.now ks.now) }
{
    let env = c_words::env_of(chart, fn_trait, sigils, rule, text);
    c_outs::tell_node(call_read::tested::node(&env, h, ws, ks, Type(t)), out)
}

// Child j of a type's node, none past the end.
#[unsafe(no_mangle)]
pub extern "C" fn faroalder_tested_child<'a>(
    chart: &[u32],
    fn_trait: u32,
    sigils: &[u32; 12],
    rule: &'a [u8],
    text: &'a [u8],
    h: &[u32],
    ws: &[u32],
    ks: &[u32],
    t: u32,
    j: u32,
    out: &mut [u32; 1],
) -> u64
    requires { Tested (lent_env chart.now fn_trait sigils.now rule.now text.now) h.now ws.now ks.now }
    ensures { Tells child_in child_out out.old out.new result (λ a. child_call
        (lent_env chart.now fn_trait sigils.now rule.now text.now) (lent_of h.now ws.now ks.now) (ty_of t) j
        ≡ outcome_by (child_reply a) (store_in h.now ws.now ks.now)) }
{
    let env = c_words::env_of(chart, fn_trait, sigils, rule, text);
    c_outs::tell_child(call_read::tested::child(&env, h, ws, ks, Type(t), j), out)
}

// Name j of a type's node, none past the end and where there is no name.
#[unsafe(no_mangle)]
pub extern "C" fn faroalder_tested_child_name<'a>(
    chart: &[u32],
    fn_trait: u32,
    sigils: &[u32; 12],
    rule: &'a [u8],
    text: &'a [u8],
    h: &[u32],
    ws: &[u32],
    ks: &[u32],
    t: u32,
    j: u32,
    out: &mut [u32; 3],
) -> u64
    requires { Tested (lent_env chart.now fn_trait sigils.now rule.now text.now) h.now ws.now ks.now }
    ensures { Tells name_answer_in name_out out.old out.new result (λ a. name_call
        (lent_env chart.now fn_trait sigils.now rule.now text.now) (lent_of h.now ws.now ks.now) (ty_of t) j
        ≡ outcome_by (name_reply a) (store_in h.now ws.now ks.now)) }
{
    let env = c_words::env_of(chart, fn_trait, sigils, rule, text);
    c_outs::tell_name(
        call_read::tested::child_name(&env, h, ws, ks, Type(t), j),
        out,
    )
}

// Counts, capacities, remembered types and the report count.
#[unsafe(no_mangle)]
pub extern "C" fn faroalder_tested_figures<'a>(
    chart: &[u32],
    fn_trait: u32,
    sigils: &[u32; 12],
    rule: &'a [u8],
    text: &'a [u8],
    h: &[u32],
    ws: &[u32],
    ks: &[u32],
    out: &mut [u32; 12],
) -> u64
    requires { Tested (lent_env chart.now fn_trait sigils.now rule.now text.now) h.now ws.now ks.now }
    ensures { Tells figures_in figures_out out.old out.new result (λ a. figures_call
        (lent_env chart.now fn_trait sigils.now rule.now text.now) (lent_of h.now ws.now ks.now)
        ≡ outcome_by (figures_reply ws.now ks.now a) (store_in h.now ws.now ks.now)) }
{
    let env = c_words::env_of(chart, fn_trait, sigils, rule, text);
    c_outs::tell_figures(call_read::tested::figures(&env, h, ws, ks), out)
}

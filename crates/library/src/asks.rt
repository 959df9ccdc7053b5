// Questions that are asked of a type through its root.
ghost use Rattle.std.specs.Prelude.{◌≡◌, false};
ghost use Rattle.scope.specs.Types.{ty_of};
ghost use Rattle.scope.specs.Calls.{is_nil_call, self_inverse_call, get_mod_call, find_related_call};
ghost use Rattle.layout.specs.Words.{lent_of, store_in};
ghost use Rattle.promise.specs.Promise.{outcome_by, done_reply};
ghost use Rattle.call_ask.specs.Replies.{mod_reply, MarksPromised};
ghost use Rattle.c_words.specs.Numbers.{done_in, bool_in, Says};
ghost use Rattle.c_words.specs.Given.{set_in, lent_env};
ghost use Rattle.c_outs.specs.Outs.{mod_in, mod_out, Tells};

use types::Type;

// A Tuple of nothing.
#[unsafe(no_mangle)]
pub extern "C" fn faroalder_is_nil<'a>(
    chart: &[u32],
    fn_trait: u32,
    sigils: &[u32; 12],
    rule: &'a [u8],
    text: &'a [u8],
    h: &[u32],
    ws: &[u32],
    ks: &[u32],
    t: u32,
) -> u64
    ensures { is_nil_call
        (lent_env chart.now fn_trait sigils.now rule.now text.now) (lent_of h.now ws.now ks.now) (ty_of t)
        ≡ outcome_by (bool_in result) (store_in h.now ws.now ks.now) }
{
    let env = c_words::env_of(chart, fn_trait, sigils, rule, text);
    c_words::bool_number(call_ask::is_nil(&env, h, ws, ks, Type(t)))
}

// "`self_inverse` holds where the root has a self-dual kind and it holds of every child; never where there is no kind."
#[unsafe(no_mangle)]
pub extern "C" fn faroalder_self_inverse<'a>(
    chart: &[u32],
    fn_trait: u32,
    sigils: &[u32; 12],
    rule: &'a [u8],
    text: &'a [u8],
    h: &[u32],
    ws: &[u32],
    ks: &[u32],
    t: u32,
) -> u64
    ensures { self_inverse_call
        (lent_env chart.now fn_trait sigils.now rule.now text.now) (lent_of h.now ws.now ks.now) (ty_of t) false
        ≡ outcome_by (bool_in result) (store_in h.now ws.now ks.now) }
{
    let env = c_words::env_of(chart, fn_trait, sigils, rule, text);
    c_words::bool_number(call_ask::self_inverse(&env, h, ws, ks, Type(t)))
}

// `_self_inverse`: a Param counts as param says.
#[unsafe(no_mangle)]
pub extern "C" fn faroalder_self_inverse_param<'a>(
    chart: &[u32],
    fn_trait: u32,
    sigils: &[u32; 12],
    rule: &'a [u8],
    text: &'a [u8],
    h: &[u32],
    ws: &[u32],
    ks: &[u32],
    t: u32,
    param: u32,
) -> u64
    ensures { self_inverse_call
        (lent_env chart.now fn_trait sigils.now rule.now text.now) (lent_of h.now ws.now ks.now) (ty_of t) (set_in param)
        ≡ outcome_by (bool_in result) (store_in h.now ws.now ks.now) }
{
    let env = c_words::env_of(chart, fn_trait, sigils, rule, text);
    c_words::bool_number(call_ask::self_inverse_param(
        &env,
        h,
        ws,
        ks,
        Type(t),
        c_words::is_set(param),
    ))
}

// A definition's def number, through Refs.
#[unsafe(no_mangle)]
pub extern "C" fn faroalder_get_mod<'a>(
    chart: &[u32],
    fn_trait: u32,
    sigils: &[u32; 12],
    rule: &'a [u8],
    text: &'a [u8],
    h: &[u32],
    ws: &[u32],
    ks: &[u32],
    t: u32,
    out: &mut [u32; 1],
) -> u64
    ensures { Tells mod_in mod_out out.old out.new result (λ a. get_mod_call
        (lent_env chart.now fn_trait sigils.now rule.now text.now) (lent_of h.now ws.now ks.now) (ty_of t)
        ≡ outcome_by (mod_reply a) (store_in h.now ws.now ks.now)) }
{
    let env = c_words::env_of(chart, fn_trait, sigils, rule, text);
    c_outs::tell_mod(call_ask::get_mod(&env, h, ws, ks, Type(t)), out)
}

// "`find_related` (lent marks, a byte for each node: nonzero means already in the set, and 1 is written for each root added; too few marks: 7)"
#[unsafe(no_mangle)]
pub extern "C" fn faroalder_find_related<'a>(
    chart: &[u32],
    fn_trait: u32,
    sigils: &[u32; 12],
    rule: &'a [u8],
    text: &'a [u8],
    h: &[u32],
    ws: &[u32],
    ks: &[u32],
    marks: &mut [u8],
    t: u32,
) -> u64
    ensures { Says done_reply (done_in result) (λ a. MarksPromised
        (find_related_call (lent_env chart.now fn_trait sigils.now rule.now text.now) (lent_of h.now ws.now ks.now)
        (ty_of t) marks.old)
        a (store_in h.now ws.now ks.now) marks.old marks.new) }
{
    let env = c_words::env_of(chart, fn_trait, sigils, rule, text);
    c_words::done_number(call_ask::find_related(&env, h, ws, ks, marks, Type(t)))
}

// Unifying: a pair, lists, objects, signatures and impl types.
ghost use Rattle.scope.specs.Types.{ty_of};
ghost use Rattle.scope.specs.Calls.{unify_call, unify_types_call, unify_objects_call, unify_fn_sig_call, unify_impl_type_call, approx_eq_call};
ghost use Rattle.layout.specs.Words.{lent_of};
ghost use Rattle.types.specs.Impls.{impl_means};
ghost use Rattle.store.specs.Entries.{types_in};
ghost use Rattle.lent_tests.specs.Given.{entries_in};
ghost use Rattle.promise.specs.Promise.{Promised};
ghost use Rattle.c_words.specs.Numbers.{bool_in, unify_in};
ghost use Rattle.c_words.specs.Given.{set_in, impl_in, lent_env};

use types::Type;

// "`unify` takes both roots with `find_mut`."
#[unsafe(no_mangle)]
pub extern "C" fn faroalder_unify<'a>(
    chart: &[u32],
    fn_trait: u32,
    sigils: &[u32; 12],
    rule: &'a [u8],
    text: &'a [u8],
    h: &[u32],
    ws: &mut [u32],
    ks: &[u32],
    a: u32,
    b: u32,
) -> u64
    ensures { Promised
        (unify_call (lent_env chart.now fn_trait sigils.now rule.now text.now) (lent_of h.now ws.old ks.now)
        (ty_of a) (ty_of b))
        (unify_in result) h.now ws.old ks.now h.now ws.new ks.now }
{
    let env = c_words::env_of(chart, fn_trait, sigils, rule, text);
    c_words::unify_number(call_unify::unify(&env, h, ws, ks, Type(a), Type(b)))
}

// Two lists of types, a word a type, the second's inverted if inv says so.
#[unsafe(no_mangle)]
pub extern "C" fn faroalder_unify_types<'a>(
    chart: &[u32],
    fn_trait: u32,
    sigils: &[u32; 12],
    rule: &'a [u8],
    text: &'a [u8],
    h: &[u32],
    ws: &mut [u32],
    ks: &[u32],
    xs: &[u32],
    ys: &[u32],
    inv: u32,
) -> u64
    ensures { Promised
        (unify_types_call (lent_env chart.now fn_trait sigils.now rule.now text.now) (lent_of h.now ws.old ks.now)
        (types_in xs.now) (types_in ys.now) (set_in inv))
        (unify_in result) h.now ws.old ks.now h.now ws.new ks.now }
{
    let env = c_words::env_of(chart, fn_trait, sigils, rule, text);
    let inv = c_words::inverted_of(inv);
    c_words::unify_number(call_unify_lists::unify_types(&env, h, ws, ks, xs, ys, inv))
}

// Two objects, four words an entry, as children lie in a store.
#[unsafe(no_mangle)]
pub extern "C" fn faroalder_unify_objects<'a>(
    chart: &[u32],
    fn_trait: u32,
    sigils: &[u32; 12],
    rule: &'a [u8],
    text: &'a [u8],
    h: &[u32],
    ws: &mut [u32],
    ks: &[u32],
    xs: &[u32],
    ys: &[u32],
    inv: u32,
) -> u64
    ensures { Promised
        (unify_objects_call (lent_env chart.now fn_trait sigils.now rule.now text.now) (lent_of h.now ws.old ks.now)
        (entries_in xs.now) (entries_in ys.now) (set_in inv))
        (unify_in result) h.now ws.old ks.now h.now ws.new ks.now }
{
    let env = c_words::env_of(chart, fn_trait, sigils, rule, text);
    let inv = c_words::inverted_of(inv);
    c_words::unify_number(call_unify_lists::unify_objects(&env, h, ws, ks, xs, ys, inv))
}

// Two signatures: a list of parameters, and a return.
#[unsafe(no_mangle)]
pub extern "C" fn faroalder_unify_fn_sig<'a>(
    chart: &[u32],
    fn_trait: u32,
    sigils: &[u32; 12],
    rule: &'a [u8],
    text: &'a [u8],
    h: &[u32],
    ws: &mut [u32],
    ks: &[u32],
    xs: &[u32],
    r: u32,
    ys: &[u32],
    q: u32,
) -> u64
    ensures { Promised
        (unify_fn_sig_call (lent_env chart.now fn_trait sigils.now rule.now text.now) (lent_of h.now ws.old ks.now)
        (types_in xs.now) (ty_of r) (types_in ys.now) (ty_of q))
        (unify_in result) h.now ws.old ks.now h.now ws.new ks.now }
{
    let env = c_words::env_of(chart, fn_trait, sigils, rule, text);
    c_words::unify_number(call_unify_lists::unify_fn_sig(&env, h, ws, ks, xs, Type(r), ys, Type(q)))
}

// Two traits, each over a list of types, or errors.
#[unsafe(no_mangle)]
pub extern "C" fn faroalder_unify_impl_type<'a>(
    chart: &[u32],
    fn_trait: u32,
    sigils: &[u32; 12],
    rule: &'a [u8],
    text: &'a [u8],
    h: &[u32],
    ws: &mut [u32],
    ks: &[u32],
    a: u32,
    xs: &[u32],
    b: u32,
    ys: &[u32],
) -> u64
    ensures { Promised
        (unify_impl_type_call (lent_env chart.now fn_trait sigils.now rule.now text.now) (lent_of h.now ws.old ks.now)
        (impl_means (impl_in a xs.entry)) (impl_means (impl_in b ys.entry)))
        (unify_in result) h.now ws.old ks.now h.now ws.new ks.now }
{
    let env = c_words::env_of(chart, fn_trait, sigils, rule, text);
    c_words::unify_number(call_impl::unify_impl_type(
        &env,
        h,
        ws,
        ks,
        c_words::impl_of(a, xs),
        c_words::impl_of(b, ys),
    ))
}

// `approx_eq`: two impl types, by their traits alone.
#[unsafe(no_mangle)]
pub extern "C" fn faroalder_approx_eq<'a>(
    chart: &[u32],
    fn_trait: u32,
    sigils: &[u32; 12],
    rule: &'a [u8],
    text: &'a [u8],
    h: &[u32],
    ws: &[u32],
    ks: &[u32],
    a: u32,
    xs: &[u32],
    b: u32,
    ys: &[u32],
) -> u64
    ensures { Promised
        (approx_eq_call (lent_env chart.now fn_trait sigils.now rule.now text.now) (lent_of h.now ws.now ks.now)
        (impl_means (impl_in a xs.entry)) (impl_means (impl_in b ys.entry)))
        (bool_in result) h.now ws.now ks.now h.now ws.now ks.now }
{
    let env = c_words::env_of(chart, fn_trait, sigils, rule, text);
    c_words::bool_number(call_impl::approx_eq(
        &env,
        h,
        ws,
        ks,
        c_words::impl_of(a, xs),
        c_words::impl_of(b, ys),
    ))
}

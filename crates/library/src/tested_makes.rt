// Making types, on a tested store.
ghost use Rattle.std.specs.Prelude.{length};
ghost use Rattle.scope.specs.Calls.{new_var_call, new_vars_call, error_call, nil_call, new_call, new_struct_call, new_union_call};
ghost use Rattle.layout.specs.Words.{lent_of};
ghost use Rattle.store.specs.Entries.{types_in};
ghost use Rattle.lent_kind.specs.Lent.{given};
ghost use Rattle.promise.specs.Promise.{Promised, Tested, done_reply};
ghost use Rattle.promise.specs.Lists.{ListPromised};
ghost use Rattle.c_words.specs.Numbers.{type_in, done_in, Says};
ghost use Rattle.c_words.specs.Given.{kind_args_in, lent_env};

// "`new_var`": a type without a kind, and its span.
#[unsafe(no_mangle)]
pub extern "C" fn faroalder_tested_new_var<'a>(
    chart: &[u32],
    fn_trait: u32,
    sigils: &[u32; 12],
    rule: &'a [u8],
    text: &'a [u8],
    h: &mut [u32],
    ws: &mut [u32],
    ks: &[u32],
    span: u32,
) -> u64
    requires { Tested (lent_env chart.now fn_trait sigils.now rule.now text.now) h.old ws.old ks.now }
    ensures { Promised
        (new_var_call (lent_env chart.now fn_trait sigils.now rule.now text.now) (lent_of h.old ws.old ks.now) span)
        (type_in result) h.old ws.old ks.now h.new ws.new ks.now }
{
    let env = c_words::env_of(chart, fn_trait, sigils, rule, text);
    c_words::type_number(call_make::tested::new_var(&env, h, ws, ks, span))
}

// `count` types without a kind; they stand at the front of `out`. "The count given to `new_vars` is limited by 10 and 7 only"
#[unsafe(no_mangle)]
pub extern "C" fn faroalder_tested_new_vars<'a>(
    chart: &[u32],
    fn_trait: u32,
    sigils: &[u32; 12],
    rule: &'a [u8],
    text: &'a [u8],
    h: &mut [u32],
    ws: &mut [u32],
    ks: &[u32],
    span: u32,
    count: u32,
    out: &mut [u32],
) -> u64
    requires { Tested (lent_env chart.now fn_trait sigils.now rule.now text.now) h.old ws.old ks.now }
    ensures { Says done_reply (done_in result) (λ a. ListPromised
        (new_vars_call (lent_env chart.now fn_trait sigils.now rule.now text.now) (lent_of h.old ws.old ks.now)
        span count (length out.old))
        a count h.old ws.old ks.now h.new ws.new ks.now
        out.old out.new) }
{
    let env = c_words::env_of(chart, fn_trait, sigils, rule, text);
    c_words::done_number(call_make::tested::new_vars(&env, h, ws, ks, span, count, out))
}

// The error type.
#[unsafe(no_mangle)]
pub extern "C" fn faroalder_tested_error<'a>(
    chart: &[u32],
    fn_trait: u32,
    sigils: &[u32; 12],
    rule: &'a [u8],
    text: &'a [u8],
    h: &mut [u32],
    ws: &mut [u32],
    ks: &[u32],
) -> u64
    requires { Tested (lent_env chart.now fn_trait sigils.now rule.now text.now) h.old ws.old ks.now }
    ensures { Promised
        (error_call (lent_env chart.now fn_trait sigils.now rule.now text.now) (lent_of h.old ws.old ks.now))
        (type_in result) h.old ws.old ks.now h.new ws.new ks.now }
{
    let env = c_words::env_of(chart, fn_trait, sigils, rule, text);
    c_words::type_number(call_make::tested::error(&env, h, ws, ks))
}

// The type of nothing: a Tuple without children.
#[unsafe(no_mangle)]
pub extern "C" fn faroalder_tested_nil<'a>(
    chart: &[u32],
    fn_trait: u32,
    sigils: &[u32; 12],
    rule: &'a [u8],
    text: &'a [u8],
    h: &mut [u32],
    ws: &mut [u32],
    ks: &[u32],
) -> u64
    requires { Tested (lent_env chart.now fn_trait sigils.now rule.now text.now) h.old ws.old ks.now }
    ensures { Promised
        (nil_call (lent_env chart.now fn_trait sigils.now rule.now text.now) (lent_of h.old ws.old ks.now))
        (type_in result) h.old ws.old ks.now h.new ws.new ks.now }
{
    let env = c_words::env_of(chart, fn_trait, sigils, rule, text);
    c_words::type_number(call_make::tested::nil(&env, h, ws, ks))
}

// `new`: a kind with its children as entries, each a type and its name's text, start and length.
#[unsafe(no_mangle)]
pub extern "C" fn faroalder_tested_new<'a>(
    chart: &[u32],
    fn_trait: u32,
    sigils: &[u32; 12],
    rule: &'a [u8],
    text: &'a [u8],
    h: &mut [u32],
    ws: &mut [u32],
    ks: &mut [u32],
    code: u32,
    number: u32,
    flex: u32,
    name_text: u32,
    name_start: u32,
    name_len: u32,
    entries: &[u32],
) -> u64
    requires { Tested (lent_env chart.now fn_trait sigils.now rule.now text.now) h.old ws.old ks.old }
    ensures { Promised
        (new_call (lent_env chart.now fn_trait sigils.now rule.now text.now) (lent_of h.old ws.old ks.old)
        (given (kind_args_in code number flex name_text name_start name_len) entries.now))
        (type_in result) h.old ws.old ks.old h.new ws.new ks.new }
{
    let env = c_words::env_of(chart, fn_trait, sigils, rule, text);
    let k = c_words::kind_args(code, number, flex, name_text, name_start, name_len);
    c_words::type_number(tested_new::new(&env, h, ws, ks, k, entries))
}

// `new_struct`: a Struct over a definition.
#[unsafe(no_mangle)]
pub extern "C" fn faroalder_tested_new_struct<'a>(
    chart: &[u32],
    fn_trait: u32,
    sigils: &[u32; 12],
    rule: &'a [u8],
    text: &'a [u8],
    h: &mut [u32],
    ws: &mut [u32],
    ks: &mut [u32],
    number: u32,
    types: &[u32],
) -> u64
    requires { Tested (lent_env chart.now fn_trait sigils.now rule.now text.now) h.old ws.old ks.old }
    ensures { Promised
        (new_struct_call (lent_env chart.now fn_trait sigils.now rule.now text.now) (lent_of h.old ws.old ks.old)
        number (types_in types.now))
        (type_in result) h.old ws.old ks.old h.new ws.new ks.new }
{
    let env = c_words::env_of(chart, fn_trait, sigils, rule, text);
    c_words::type_number(tested_new::new_struct(&env, h, ws, ks, number, types))
}

// `new_union`: a Union over a definition.
#[unsafe(no_mangle)]
pub extern "C" fn faroalder_tested_new_union<'a>(
    chart: &[u32],
    fn_trait: u32,
    sigils: &[u32; 12],
    rule: &'a [u8],
    text: &'a [u8],
    h: &mut [u32],
    ws: &mut [u32],
    ks: &mut [u32],
    number: u32,
    types: &[u32],
) -> u64
    requires { Tested (lent_env chart.now fn_trait sigils.now rule.now text.now) h.old ws.old ks.old }
    ensures { Promised
        (new_union_call (lent_env chart.now fn_trait sigils.now rule.now text.now) (lent_of h.old ws.old ks.old)
        number (types_in types.now))
        (type_in result) h.old ws.old ks.old h.new ws.new ks.new }
{
    let env = c_words::env_of(chart, fn_trait, sigils, rule, text);
    c_words::type_number(tested_new::new_union(&env, h, ws, ks, number, types))
}

// Forcing a type, and finishing inference.
ghost use Rattle.scope.specs.Types.{ty_of};
ghost use Rattle.scope.specs.Calls.{force_kind_call, finish_inference_call, finish_where_call};
ghost use Rattle.layout.specs.Words.{lent_of};
ghost use Rattle.promise.specs.Promise.{Promised};
ghost use Rattle.call_force.specs.Replies.{ForcePromised};
ghost use Rattle.c_words.specs.Numbers.{done_in};
ghost use Rattle.c_words.specs.Given.{lent_env};
ghost use Rattle.c_outs.specs.Outs.{forced_in, forced_out, Tells};

use types::Type;

// "A Known gives its kind and its inversion combined with the type's." "An Unknown becomes InferenceFailed, its span is in the answer"; the report count rises.
#[unsafe(no_mangle)]
pub extern "C" fn faroalder_force_kind<'a>(
    chart: &[u32],
    fn_trait: u32,
    sigils: &[u32; 12],
    rule: &'a [u8],
    text: &'a [u8],
    h: &mut [u32],
    ws: &mut [u32],
    ks: &[u32],
    t: u32,
    out: &mut [u32; 12],
) -> u64
    ensures { Tells forced_in forced_out out.old out.new result (λ a. ForcePromised
        (force_kind_call (lent_env chart.now fn_trait sigils.now rule.now text.now) (lent_of h.old ws.old ks.now) (ty_of t))
        a h.old ws.old ks.now h.new ws.new) }
{
    let env = c_words::env_of(chart, fn_trait, sigils, rule, text);
    c_outs::tell_forced(call_force::force_kind(&env, h, ws, ks, Type(t)), out)
}

// "only roots without a kind change, each to Default uninverted"
#[unsafe(no_mangle)]
pub extern "C" fn faroalder_finish_inference<'a>(
    chart: &[u32],
    fn_trait: u32,
    sigils: &[u32; 12],
    rule: &'a [u8],
    text: &'a [u8],
    h: &[u32],
    ws: &mut [u32],
    ks: &[u32],
) -> u64
    ensures { Promised
        (finish_inference_call (lent_env chart.now fn_trait sigils.now rule.now text.now) (lent_of h.now ws.old ks.now))
        (done_in result) h.now ws.old ks.now h.now ws.new ks.now }
{
    let env = c_words::env_of(chart, fn_trait, sigils, rule, text);
    c_words::done_number(call_force::finish_inference(&env, h, ws, ks))
}

// "a lent byte for each node, nonzero chooses, absent means no"
#[unsafe(no_mangle)]
pub extern "C" fn faroalder_finish_inference_where<'a>(
    chart: &[u32],
    fn_trait: u32,
    sigils: &[u32; 12],
    rule: &'a [u8],
    text: &'a [u8],
    h: &[u32],
    ws: &mut [u32],
    ks: &[u32],
    bytes: &[u8],
) -> u64
    ensures { Promised
        (finish_where_call (lent_env chart.now fn_trait sigils.now rule.now text.now) (lent_of h.now ws.old ks.now)
        bytes.now)
        (done_in result) h.now ws.old ks.now h.now ws.new ks.now }
{
    let env = c_words::env_of(chart, fn_trait, sigils, rule, text);
    c_words::done_number(call_force::finish_inference_where(&env, h, ws, ks, bytes))
}

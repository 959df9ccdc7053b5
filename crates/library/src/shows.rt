// Printing. A length is told as a number below every refusal's, so a buffer counts as at most 4,294,967,295 bytes long.
ghost use Rattle.scope.specs.Types.{ty_of};
ghost use Rattle.scope.specs.Calls.{show_call, show_impl_type_call};
ghost use Rattle.layout.specs.Words.{lent_of, store_in};
ghost use Rattle.types.specs.Impls.{impl_means};
ghost use Rattle.c_words.specs.Numbers.{count_in, CutPromised};
ghost use Rattle.c_words.specs.Given.{impl_in, lent_env};

use types::Type;

// A type's text.
#[tactic(auto, using(crate::proofs::Laws::show_low))]
#[unsafe(no_mangle)]
pub extern "C" fn faroalder_show<'a>(
    chart: &[u32],
    fn_trait: u32,
    sigils: &[u32; 12],
    rule: &'a [u8],
    text: &'a [u8],
    h: &[u32],
    ws: &[u32],
    ks: &[u32],
    t: u32,
    buf: &mut [u8],
) -> u64
    ensures { CutPromised
        (show_call (lent_env chart.now fn_trait sigils.now rule.now text.now) (lent_of h.now ws.now ks.now)
        (ty_of t))
        (count_in result) (store_in h.now ws.now ks.now) buf.old buf.new }
{
    let env = c_words::env_of(chart, fn_trait, sigils, rule, text);
    let n = c_words::counted(buf.len());
    c_words::count_number(call_show::show(&env, h, ws, ks, Type(t), &mut buf[..n]))
}

// An impl type's text, its types lent beside it.
#[tactic(auto, using(crate::proofs::Laws::impl_low))]
#[unsafe(no_mangle)]
pub extern "C" fn faroalder_show_impl_type<'a>(
    chart: &[u32],
    fn_trait: u32,
    sigils: &[u32; 12],
    rule: &'a [u8],
    text: &'a [u8],
    h: &[u32],
    ws: &[u32],
    ks: &[u32],
    a: u32,
    xs: &[u32],
    buf: &mut [u8],
) -> u64
    ensures { CutPromised
        (show_impl_type_call (lent_env chart.now fn_trait sigils.now rule.now text.now) (lent_of h.now ws.now ks.now)
        (impl_means (impl_in a xs.entry)))
        (count_in result) (store_in h.now ws.now ks.now) buf.old buf.new }
{
    let env = c_words::env_of(chart, fn_trait, sigils, rule, text);
    let n = c_words::counted(buf.len());
    c_words::count_number(call_show::show_impl_type(
        &env,
        h,
        ws,
        ks,
        c_words::impl_of(a, xs),
        &mut buf[..n],
    ))
}

// Types from one store into another, where those that are read are tested.
ghost use Rattle.std.specs.Prelude.{length};
ghost use Rattle.scope.specs.Calls.{import_call, export_call};
ghost use Rattle.layout.specs.Words.{lent_of, store_in};
ghost use Rattle.store.specs.Entries.{types_in};
ghost use Rattle.refusals.specs.Opening.{enough};
ghost use Rattle.copy_parts.specs.Places.{list_of};
ghost use Rattle.promise.specs.Promise.{Tested, done_reply};
ghost use Rattle.promise.specs.Lists.{ListPromised};
ghost use Rattle.promise.specs.Exports.{ExportPromised};
ghost use Rattle.c_words.specs.Numbers.{done_in, Says};
ghost use Rattle.c_words.specs.Given.{set_in, lent_env};

// The listed types of the source, which is only read; what they become stands at the front of `out`. `params` is a parameter list where `listed` says so.
#[unsafe(no_mangle)]
pub extern "C" fn faroalder_tested_import<'a>(
    chart: &[u32],
    fn_trait: u32,
    sigils: &[u32; 12],
    rule: &'a [u8],
    text: &'a [u8],
    h: &mut [u32],
    ws: &mut [u32],
    ks: &mut [u32],
    sh: &[u32],
    sw: &[u32],
    sk: &[u32],
    ts: &[u32],
    listed: u32,
    params: &[u32],
    out: &mut [u32],
) -> u64
    requires tested { Tested (lent_env chart.now fn_trait sigils.now rule.now text.now) h.old ws.old ks.old }
    requires tested_2 { Tested (lent_env chart.now fn_trait sigils.now rule.now text.now) sh.now sw.now sk.now }
    ensures { Says done_reply (done_in result) (λ a. ListPromised
        (import_call (lent_env chart.now fn_trait sigils.now rule.now text.now) (lent_of h.old ws.old ks.old)
        (lent_of sh.now sw.now sk.now) (types_in ts.now) (list_of (set_in listed) params.now)
        (length out.old))
        a (length ts.now) h.old ws.old ks.old h.new ws.new ks.new
        out.old out.new) }
{
    let env = c_words::env_of(chart, fn_trait, sigils, rule, text);
    c_words::done_number(tested_import::import(
        &env,
        h,
        ws,
        ks,
        sh,
        sw,
        sk,
        ts,
        c_words::list_if(listed, params),
        out,
    ))
}

// The listed types; what they become stands at the front of `out`. The fresh store has room for so many nodes and children, and remembers what the source's
// error and nil became.
#[unsafe(no_mangle)]
pub extern "C" fn faroalder_tested_export<'a>(
    chart: &[u32],
    fn_trait: u32,
    sigils: &[u32; 12],
    rule: &'a [u8],
    text: &'a [u8],
    sh: &[u32],
    sw: &[u32],
    sk: &[u32],
    h: &mut [u32],
    ws: &mut [u32],
    ks: &mut [u32],
    nodes: u32,
    children: u32,
    ts: &[u32],
    out: &mut [u32],
) -> u64
    requires { Tested (lent_env chart.now fn_trait sigils.now rule.now text.now) sh.now sw.now sk.now }
    ensures { Says done_reply (done_in result) (λ a. ExportPromised
        (export_call (lent_env chart.now fn_trait sigils.now rule.now text.now) (lent_of sh.now sw.now sk.now)
        nodes children (enough nodes children h.old ws.old ks.old) (types_in ts.now) (length out.old))
        a (length ts.now) (store_in sh.now sw.now sk.now)
        h.old ws.old ks.old h.new ws.new ks.new out.old out.new) }
{
    let env = c_words::env_of(chart, fn_trait, sigils, rule, text);
    c_words::done_number(tested_export::export(
        &env, sh, sw, sk, h, ws, ks, nodes, children, ts, out,
    ))
}

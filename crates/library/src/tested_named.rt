// Naming the present state, coming back to a named one, dropping a name and emptying, of a tested store and its tested names buffer.
ghost use Rattle.scope.specs.States.{name_state_call, return_to_call, drop_name_call, reset_names_call};
ghost use Rattle.layout.specs.Words.{lent_of};
ghost use Rattle.book.specs.Words.{lent_book_of};
ghost use Rattle.call_states.specs.Promise.{NamesPromised, TestedNames};
ghost use Rattle.c_words.specs.Numbers.{done_in};
ghost use Rattle.c_words.specs.Given.{lent_env};

// "Let a planner name the present state": 12 where the name has a wrong length, 13 where it is not held and no place is free.
#[unsafe(no_mangle)]
pub extern "C" fn faroalder_tested_name_state<'a>(
    chart: &[u32],
    fn_trait: u32,
    sigils: &[u32; 12],
    rule: &'a [u8],
    text: &'a [u8],
    h: &[u32],
    ws: &[u32],
    ks: &[u32],
    bs: &mut [u32],
    name: &[u8],
) -> u64
    requires { TestedNames (lent_env chart.now fn_trait sigils.now rule.now text.now) h.now ws.now ks.now bs.old }
    ensures { NamesPromised
        (name_state_call (lent_env chart.now fn_trait sigils.now rule.now text.now)
        (lent_of h.now ws.now ks.now) (lent_book_of bs.old) name.now)
        (done_in result) h.now ws.now ks.now bs.old
        h.now ws.now ks.now bs.new }
{
    let env = c_words::env_of(chart, fn_trait, sigils, rule, text);
    c_words::done_number(call_states::tested::name_state(&env, h, ws, ks, bs, name))
}

// "and return to one": 12 where the name is not held. The report count "does not go back".
#[unsafe(no_mangle)]
pub extern "C" fn faroalder_tested_return_to<'a>(
    chart: &[u32],
    fn_trait: u32,
    sigils: &[u32; 12],
    rule: &'a [u8],
    text: &'a [u8],
    h: &mut [u32],
    ws: &mut [u32],
    ks: &mut [u32],
    bs: &[u32],
    name: &[u8],
) -> u64
    requires { TestedNames (lent_env chart.now fn_trait sigils.now rule.now text.now) h.old ws.old ks.old bs.now }
    ensures { NamesPromised
        (return_to_call (lent_env chart.now fn_trait sigils.now rule.now text.now)
        (lent_of h.old ws.old ks.old) (lent_book_of bs.now) name.now)
        (done_in result) h.old ws.old ks.old bs.now
        h.new ws.new ks.new bs.now }
{
    let env = c_words::env_of(chart, fn_trait, sigils, rule, text);
    c_words::done_number(call_states::tested::return_to(&env, h, ws, ks, bs, name))
}

// "dropping a name makes its place usable": 12 where it is not held.
#[unsafe(no_mangle)]
pub extern "C" fn faroalder_tested_drop_name<'a>(
    chart: &[u32],
    fn_trait: u32,
    sigils: &[u32; 12],
    rule: &'a [u8],
    text: &'a [u8],
    h: &[u32],
    ws: &[u32],
    ks: &[u32],
    bs: &mut [u32],
    name: &[u8],
) -> u64
    requires { TestedNames (lent_env chart.now fn_trait sigils.now rule.now text.now) h.now ws.now ks.now bs.old }
    ensures { NamesPromised
        (drop_name_call (lent_env chart.now fn_trait sigils.now rule.now text.now)
        (lent_of h.now ws.now ks.now) (lent_book_of bs.old) name.now)
        (done_in result) h.now ws.now ks.now bs.old
        h.now ws.now ks.now bs.new }
{
    let env = c_words::env_of(chart, fn_trait, sigils, rule, text);
    c_words::done_number(call_states::tested::drop_name(&env, h, ws, ks, bs, name))
}

// "`reset` frees all" and "drops all names"; the report count "outlives `reset`".
#[unsafe(no_mangle)]
pub extern "C" fn faroalder_tested_reset<'a>(
    chart: &[u32],
    fn_trait: u32,
    sigils: &[u32; 12],
    rule: &'a [u8],
    text: &'a [u8],
    h: &mut [u32],
    ws: &mut [u32],
    ks: &mut [u32],
    bs: &mut [u32],
) -> u64
    requires { TestedNames (lent_env chart.now fn_trait sigils.now rule.now text.now) h.old ws.old ks.old bs.old }
    ensures { NamesPromised
        (reset_names_call (lent_env chart.now fn_trait sigils.now rule.now text.now)
        (lent_of h.old ws.old ks.old) (lent_book_of bs.old))
        (done_in result) h.old ws.old ks.old bs.old
        h.new ws.new ks.new bs.new }
{
    let env = c_words::env_of(chart, fn_trait, sigils, rule, text);
    c_words::done_number(call_states::tested::reset(&env, h, ws, ks, bs))
}

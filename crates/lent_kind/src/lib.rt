#![tactic(auto)]
// A kind that is lent to a maker, and what is tested of it: 4 and 5, and of a list of types 3 and its width. Its numbers and its children's entries may be
// any at all; its flag is the chart's.
ghost use Rattle.std.specs.Prelude.{◌≡◌, ◌≤◌};
ghost use Rattle.scope.specs.Limits.{MAX_WIDTH};
ghost use Rattle.scope.specs.Kinds.{flag_of};
ghost use Rattle.scope.specs.Calls.{first_broken};
ghost use Rattle.chart.specs.Env.{chart_lent, chart_alone};
ghost use Rattle.store.specs.Entries.{entry_count};
ghost use Rattle.refusals.specs.Codes.{told};
ghost use Rattle.lent_kind.specs.Lent.{with_flag, given, plain_args, list_tests, kind_tests};

use chart::Env;
use layout::{CHILD_WORDS, Kind};
use names::{NO_NAME, Name};
use refusals::Refusal;
use scope::MAX_WIDTH;

// What a kind is made of, its children and their names apart. Its flag is the chart's.
// Kept (2): no twin of `layout::Kind`, which has the flag and says where its children lie: who lends a kind says neither, and as a Kind would fill three fields that nobody reads.
#[derive(Clone, Copy)]
pub struct KindArgs {
    pub code: u32,
    pub number: u32,
    pub flex: u32,
    // Its own name, or zeros.
    pub name: Name,
}

// The kind with the chart's flag, and no children yet.
pub fn flagged(k: KindArgs, chart: &[u32]) -> Kind
    ensures { result ≡ with_flag k (flag_of (chart_alone chart.now) k.code k.number) }
{
    Kind {
        number: k.number,
        dual: kind_sound::chart_flag(k.code, k.number, chart),
        flex: k.flex,
        name: k.name,
        ..store::bare_kind(k.code)
    }
}

// The first of refusals 4 and 5 that stands.
pub fn test_kind(env: &Env<'_>, k: KindArgs, entries: &[u32]) -> Result<(), Refusal>
    requires { entry_count entries.now ≤ MAX_WIDTH }
    ensures { first_broken
        (kind_tests (chart_lent env.now) (given k entries.now)) ≡ told result }
{
    if entries.len() % CHILD_WORDS != 0 {
        return Err(Refusal::Unmakeable);
    }
    let kind = Kind {
        count: store::entry_count(entries) as u32,
        ..flagged(k, env.chart)
    };
    if !clean::names_clean(entries, kind) || !kind_sound::can_be_made(kind, entries, &env.texts) {
        return Err(Refusal::Unmakeable);
    }
    if !kind_sound::is_defined(kind, env.chart) {
        return Err(Refusal::Undefined);
    }
    Ok(())
}

// The first of refusals 3 and 4 that stands for a list of n types: "over 255 children" comes after a type that is not in the store.
pub fn test_list(inside: bool, n: usize) -> Result<(), Refusal>
    ensures { first_broken (list_tests inside n) ≡ told result }
{
    if !inside {
        return Err(Refusal::Outside);
    }
    if n > MAX_WIDTH {
        return Err(Refusal::Unmakeable);
    }
    Ok(())
}

// A kind without `Flex` or names.
pub fn plain_args(code: u32, number: u32) -> KindArgs
    ensures { result ≡ plain_args code number }
{
    KindArgs {
        code,
        number,
        flex: 0,
        name: NO_NAME,
    }
}

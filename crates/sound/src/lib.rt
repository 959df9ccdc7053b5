#![tactic(auto)]
// Refusals 2 and 8, which every call on a store can answer: of a chart and texts that break a limit, and of a store that is not sound.
// Any numbers at all may be lent. Capacities are tested first, and a node's width before its children, so no test looks at more than 4,096 nodes with
// 255 children each.
ghost use Rattle.std.specs.Prelude.{◌≡◌};
ghost use Rattle.scope.specs.Sound.{sound};
ghost use Rattle.scope.specs.Refusals.{first_broken, lent_tests};
ghost use Rattle.chart.specs.Env.{chart_lent};
ghost use Rattle.layout.specs.Words.{lent_of};
ghost use Rattle.refusals.specs.Codes.{told};
ghost use Rattle.sound.specs.Tests.{readable, env_lent};

use chart::Env;
use layout::Nodes;
use refusals::Refusal;
use scope::{MAX_CHILDREN, MAX_NODES};

// The capacities are within the limits, no slice is too short for them, and no unused number is not zero.
fn readable(h: &[u32], ws: &[u32], ks: &[u32]) -> bool
    ensures { result ≡ readable h.now ws.now ks.now }
{
    let x = layout::read_header(h);
    x.node_room as usize <= MAX_NODES
        && x.child_room as usize <= MAX_CHILDREN
        && clean::room_clean(h, ws, ks)
}

// Whether refusal 8 does not stand, with this chart and these texts.
pub fn store_sound(env: &Env<'_>, h: &[u32], ws: &[u32], ks: &[u32]) -> bool
    ensures { result ≡ sound (chart_lent env.now) (lent_of h.now ws.now ks.now) }
{
    if !readable(h, ws, ks) {
        return false;
    }
    let x = layout::read_header(h);
    let nodes = Nodes {
        words: ws,
        kids: ks,
        made: x.nodes,
    };
    node_sound::nodes_sound(&nodes, x.children, env)
        && kind_sound::remembered_inside(x.error, x.nodes)
        && kind_sound::remembered_inside(x.nil, x.nodes)
        && shape::shape_ok(&nodes)
}

// The first of refusals 2 and 8 that stands.
pub fn lent(env: &Env<'_>, h: &[u32], ws: &[u32], ks: &[u32]) -> Result<(), Refusal>
    ensures { first_broken (lent_tests (env_lent env.now) (lent_of h.now ws.now ks.now)) ≡ told result }
{
    if !chart::chart_ok(env) {
        return Err(Refusal::BadChart);
    }
    if !store_sound(env, h, ws, ks) {
        return Err(Refusal::Unsound);
    }
    Ok(())
}

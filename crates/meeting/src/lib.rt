#![tactic(auto)]
// What two roots ask for, and what is read of their children on the way. Nothing here changes a word.
ghost use Rattle.std.specs.Prelude.{◌≡◌, ◌≤◌, length};
ghost use Rattle.scope.specs.Types.{ty_of};
ghost use Rattle.names.specs.Place.{name_of, texts_by};
ghost use Rattle.layout.specs.Words.{node_words};
ghost use Rattle.meeting.specs.Asks.{TopsIn, RootsIn};
ghost use Rattle.meeting.specs.Meets.{OneNodeIn, BareIn, WalkedToIn, bare_roots, MetIn};
ghost use Rattle.plan.specs.declared.Plan.TheVariants as plans;
ghost use Rattle.meeting.specs.Steps.{Ascends, Spans, PlanSpans, Stepped, Lasts, Returns};
ghost use Rattle.meeting.specs.Kids.{sought_means, sought_in, Middle, Between};

use layout::{Nodes, TypeNode};
use names::{Name, Texts};
use plan::{Plan, Runs};
use types::{Type, UnifyResult};

// What two kinds ask of their children: an answer, two runs beside an answer, or two objects.
#[derive(Clone, Copy)]
pub enum Steps {
    Answer(UnifyResult),
    Run(UnifyResult, Runs),
    Object(Runs),
}

// "Same node: Success if the inversions agree or `self_inverse` holds, else Failure."
// Kept (5): what this and the next two ask of two roots is what `walk_roots` asks and hands to its two cases; a struct of it would be made for that one call.
fn same_node(nodes: &Nodes<'_>, a: Type, b: Type) -> UnifyResult
    requires { RootsIn nodes.now (ty_of a.0) (ty_of b.0) }
    ensures { OneNodeIn nodes.now (ty_of a.0) (ty_of b.0) result }
{
    let inv = a.inv() ^ b.inv();
    if inv.0 {
        UnifyResult::from(walk::self_inverse(nodes, a, false))
    } else {
        UnifyResult::Success
    }
}

// "If either has no kind: Failure if one occurs in the other, else they merge." In a root without a kind nothing else occurs.
fn without_kind(nodes: &Nodes<'_>, a: Type, b: Type) -> Option<UnifyResult>
    requires { RootsIn nodes.now (ty_of a.0) (ty_of b.0) }
    ensures { BareIn nodes.now (ty_of a.0) (ty_of b.0) result }
{
    let ia = a.idx();
    let occurs = walk::occurs(nodes, ia, b)
        || nodes.held(ia).is_some() && walk::occurs(nodes, b.idx(), a);
    occurs.then_some(UnifyResult::Failure)
}

// One node, or two of which one has no kind: what walks, apart from `meet`, so that the marks of a walk stay out of the cycle's frames.
pub fn walk_roots(nodes: &Nodes<'_>, a: Type, b: Type) -> Option<UnifyResult>
    requires { RootsIn nodes.now (ty_of a.0) (ty_of b.0) }
    ensures { WalkedToIn nodes.now (ty_of a.0) (ty_of b.0) result }
{
    if a.idx() == b.idx() {
        Some(same_node(nodes, a, b))
    } else {
        without_kind(nodes, a, b)
    }
}

// Are these two nodes, both roots, of which one has no kind?
pub fn bare_roots(ws: &[u32], n: u32, a: Type, b: Type) -> bool
    requires { node_words n ≤ length ws.now }
    ensures { result ≡ bare_roots ws.now n (ty_of a.0).idx (ty_of b.0).idx }
{
    let ia = a.idx();
    let ib = b.idx();
    if ia == ib {
        return false;
    }
    match (layout::node_at(ws, n, ia), layout::node_at(ws, n, ib)) {
        (TypeNode::Root { state: s, .. }, TypeNode::Root { state: t, .. }) => {
            s.lacks_kind() || t.lacks_kind()
        }
        _ => false,
    }
}

// Two roots, and nothing is changed.
pub fn meet(nodes: &Nodes<'_>, texts: &Texts<'_>, a: Type, b: Type) -> Option<Plan>
    requires { TopsIn (texts_by texts.now) nodes.now (ty_of a.0) (ty_of b.0) }
    ensures { MetIn (texts_by texts.now) nodes.now (ty_of a.0) (ty_of b.0) result }
{
    let ia = a.idx();
    let ib = b.idx();
    if ia == ib {
        return None;
    }
    let (i, k) = nodes.held(ia)?;
    let (j, m) = nodes.held(ib)?;
    let inv = i ^ a.inv() ^ (j ^ b.inv());
    Some(plan::plan_of(k, m, inv, texts))
}

// The type beside a name among count children from b on.
pub fn seek(ks: &[u32], name: Name, b: u32, count: u32, texts: &Texts<'_>) -> Option<Type>
    ensures { sought_means result ≡ sought_in (texts_by texts.now) ks.now (name_of name) b count }
{
    let j = (0..count).find(|&j| names::same_name(name, layout::child_of(ks, b, j).name, texts))?;
    Some(layout::child_of(ks, b, j).ty)
}

// Where a name is looked for first among count that ascend, and then: between low and high.
fn middle(low: u32, high: u32) -> u32
    requires { low ≤ high }
    ensures { Middle low high result }
{
    low + (high - low) / 2
}

fn first_look(i: u32, count: u32) -> u32
    ensures { Middle 0 count result }
{
    if i < count { i } else { middle(0, count) }
}

// Where it is looked for then: beside the i-th place, as long as that alone was looked at, and by halves after that.
fn next_look(low: u32, high: u32, i: u32) -> u32
    requires { low ≤ high }
    ensures { Middle low high result }
{
    if low < high && high == i {
        high - 1
    } else if low < high && low > 0 && low - 1 == i {
        low
    } else {
        middle(low, high)
    }
}

// A name that is sought among count children from the first on, whose names ascend. One may stand in the i-th place.
#[derive(Clone, Copy)]
struct Search<'a> {
    kids: &'a [u32],
    name: Name,
    near: u32,
    first: u32,
    count: u32,
    texts: Texts<'a>,
    ghost ascends: { Ascends (texts_by texts) kids.now first count },
}

impl Search<'_> {
    // The type beside the name, where it stands between low and high, if anywhere: the child between them is looked at, then the part before it or behind it. What
    // calls itself is not inlined, and so a search stays out of the frames of whoever seeks.
    // Kept (6): a search of the library goes over a slice and starts in its middle; children lie as words, four a child, and equal objects have the name in the i-th place.
    fn between(&self, low: u32, high: u32, at: u32) -> Option<Type>
        requires { Between (texts_by self.now.texts) self.now.kids.now (name_of self.now.name) self.now.first self.now.count low high at }
        ensures { sought_means result ≡ sought_in (texts_by self.now.texts) self.now.kids.now (name_of self.now.name) self.now.first self.now.count }
    {
        if low >= high {
            return None;
        }
        let other = layout::child_of(self.kids, self.first, at);
        if names::same_name(self.name, other.name, &self.texts) {
            return Some(other.ty);
        }
        if names::name_before(self.name, other.name, &self.texts) {
            return self.between(low, at, next_look(low, at, self.near));
        }
        self.between(at + 1, high, next_look(at + 1, high, self.near))
    }
}

// The type beside a name among count children from b on whose names ascend; one may stand in the i-th place: that child is looked at first, then the one before it or
// behind it, then by halves.
pub fn seek_near(
    ks: &[u32],
    name: Name,
    i: u32,
    b: u32,
    count: u32,
    texts: &Texts<'_>,
) -> Option<Type>
    requires { Ascends (texts_by texts.now) ks.now b count }
    ensures { sought_means result ≡ sought_in (texts_by texts.now) ks.now (name_of name) b count }
{
    let search = Search {
        kids: ks,
        name,
        near: i,
        first: b,
        count,
        texts: *texts,
    };
    search.between(0, count, first_look(i, count))
}

// Two runs of a signature's returns alone, where both have one.
fn returns(s: Runs) -> Runs
    requires { Lasts s }
    ensures { Returns s result }
{
    Runs {
        a: s.a + (s.na - 1),
        na: 1,
        b: s.b + (s.nb - 1),
        nb: 1,
        ..s
    }
}

// A signature is a run of its parameters and its return. "Runs of different length answer Failure and unify nothing, but a Closure's returns are still unified."
fn signature(s: Runs) -> Steps
    requires { Spans s }
    ensures { Stepped (plans.Signature s) result }
{
    if s.na == s.nb {
        Steps::Run(UnifyResult::Success, s)
    } else if s.na == 0 || s.nb == 0 {
        Steps::Answer(UnifyResult::Failure)
    } else {
        Steps::Run(UnifyResult::Failure, returns(s))
    }
}

pub fn in_steps(p: Plan) -> Steps
    requires { PlanSpans p }
    ensures { Stepped p result }
{
    match p {
        Plan::Answer(r) => Steps::Answer(r),
        Plan::Run(s) => Steps::Run(UnifyResult::Success, s),
        Plan::Object(s) => Steps::Object(s),
        Plan::Signature(s) => signature(s),
    }
}

#![tactic(auto)]
// What other callers unify: a pair as deep as there are nodes, and lent lists of types and of entries. Each is what scope's definition says, whatever a memory
// recalls of it.
ghost use Rattle.std.specs.Prelude.{◌≡◌, ◌≤◌, [], ◌∷◌};
ghost use Rattle.scope.specs.Limits.{«MAX_LIST»};
ghost use Rattle.scope.specs.Types.{ty_of};
ghost use Rattle.scope.specs.Unify.{unify_types, unify_objects, unify_fn_sig, unify_impl_type};
ghost use Rattle.scope.specs.Unify as scope;
ghost use Rattle.names.specs.Place.{texts_by};
ghost use Rattle.types.specs.Impls.{impl_means};
ghost use Rattle.store.specs.Entries.{entry_count, entry_names, entry_types, types_in};
ghost use Rattle.unify.specs.Asked.{AskedIn, UnifiedIn, nodes_in};
ghost use Rattle.recall.specs.Memory.{Begun};
ghost use Rattle.unify_lists.specs.Lent.{fixed_of, Lists, Objects, Signatures, Impls};

use chart::Env;
use types::{Impl, Inverted, Type, UnifyResult};
use unify_enter::Fixed;

// A call that is lent no memory has one of its own, of sixteen pairs: enough for one that is asked again and again.
pub const OWN_MEMORY: usize = recall::HEAD + 16 * recall::ENTRY;

// What a call begins with: nothing is remembered, and so many nodes with these children, named by the texts of `env`, are to be unified.
pub fn begin<'a>(env: &Env<'a>, ks: &'a [u32], made: u32, memory: &mut [u32]) -> Fixed<'a>
    ensures begun { Begun memory.new }
    ensures fixed { result ≡ fixed_of env.now ks.entry made }
{
    recall::begin(memory);
    Fixed {
        kids: ks,
        made,
        texts: env.texts,
    }
}

// A pair of types, as deep as there are nodes.
pub fn unify_all(
    ws: &mut [u32],
    fixed: &Fixed<'_>,
    memory: &mut [u32],
    a: Type,
    b: Type,
) -> UnifyResult
    requires { AskedIn fixed.now ws.old memory.old fixed.now.made ((ty_of a.0, ty_of b.0) ∷ []) }
    ensures { UnifiedIn fixed.now ws.old memory.old ws.new memory.new
        (scope.unify (texts_by fixed.now.texts) (nodes_in fixed.now ws.old) (ty_of a.0) (ty_of b.0)) result }
{
    unify::unify(ws, fixed, memory, a, b, fixed.made)
}

// Two lent lists of types, the second's inverted if inv says so.
pub fn unify_lists(
    ws: &mut [u32],
    fixed: &Fixed<'_>,
    memory: &mut [u32],
    xs: &[u32],
    ys: &[u32],
    inv: Inverted,
) -> UnifyResult
    requires { Lists (texts_by fixed.now.texts) ws.old fixed.now.kids.now memory.old fixed.now.made xs.now ys.now inv }
    ensures { UnifiedIn fixed.now ws.old memory.old ws.new memory.new
        (unify_types (texts_by fixed.now.texts) (nodes_in fixed.now ws.old)
        (types_in xs.now) (types_in ys.now) inv.0) result }
{
    if xs.len() != ys.len() {
        return UnifyResult::Failure;
    }
    let mut r = UnifyResult::Success;
    for (x, y) in xs.iter().zip(ys) {
        let y = Type(*y).invert_if(inv);
        r = r.and(unify::unify(ws, fixed, memory, Type(*x), y, fixed.made));
    }
    r
}

// How many entries lent words hold, of those that a list may have.
fn entries(xs: &[u32]) -> u32
    requires { entry_count xs.now ≤ «MAX_LIST» }
    ensures { result ≡ entry_count xs.now }
{
    store::entry_count(xs) as u32
}

// Two lent objects, four words an entry: "Objects of different length or names answer Failure and still unify their shared names, in a's order".
pub fn unify_entries(
    ws: &mut [u32],
    fixed: &Fixed<'_>,
    memory: &mut [u32],
    xs: &[u32],
    ys: &[u32],
    inv: Inverted,
) -> UnifyResult
    requires { Objects (texts_by fixed.now.texts) ws.old fixed.now.kids.now memory.old fixed.now.made xs.now ys.now inv }
    ensures { UnifiedIn fixed.now ws.old memory.old ws.new memory.new
        (unify_objects (texts_by fixed.now.texts) (nodes_in fixed.now ws.old)
        (entry_names xs.now) (entry_types xs.now) (entry_names ys.now) (entry_types ys.now) inv.0) result }
{
    let na = entries(xs);
    let nb = entries(ys);
    let mut r = UnifyResult::from(na == nb);
    for j in 0..na {
        let x = layout::child_of(xs, 0, j);
        let f = meeting::seek(ys, x.name, 0, nb, &fixed.texts);
        let q = match f {
            Some(t) => unify::unify(ws, fixed, memory, x.ty, t.invert_if(inv), fixed.made),
            None => UnifyResult::Failure,
        };
        r = r.and(q);
    }
    r
}

// Two signatures: their parameters, then their returns, whatever the parameters answered.
// Kept (5): no plainer with a struct of a list and a return: scope's `unify_fn_sig` takes the four apart, and so does 01's call; a struct would only name the same fields once more.
pub fn unify_fn_sig(
    ws: &mut [u32],
    fixed: &Fixed<'_>,
    memory: &mut [u32],
    xs: &[u32],
    a: Type,
    ys: &[u32],
    b: Type,
) -> UnifyResult
    requires { Signatures (texts_by fixed.now.texts) ws.old fixed.now.kids.now memory.old fixed.now.made xs.now (ty_of a.0) ys.now (ty_of b.0) }
    ensures { UnifiedIn fixed.now ws.old memory.old ws.new memory.new
        (unify_fn_sig (texts_by fixed.now.texts) (nodes_in fixed.now ws.old)
        (types_in xs.now) (ty_of a.0) (types_in ys.now) (ty_of b.0)) result }
{
    let q = unify_lists(ws, fixed, memory, xs, ys, Inverted(false));
    let r = unify::unify(ws, fixed, memory, a, b, fixed.made);
    q.and(r)
}

// Two traits over lent types, or errors.
pub fn unify_impl_type(
    ws: &mut [u32],
    fixed: &Fixed<'_>,
    memory: &mut [u32],
    a: Impl<'_>,
    b: Impl<'_>,
) -> UnifyResult
    requires { Impls (texts_by fixed.now.texts) ws.old fixed.now.kids.now memory.old fixed.now.made a b }
    ensures { UnifiedIn fixed.now ws.old memory.old ws.new memory.new
        (unify_impl_type (texts_by fixed.now.texts) (nodes_in fixed.now ws.old)
        (impl_means a.entry) (impl_means b.entry)) result }
{
    let (Impl::Trait(i, xs), Impl::Trait(j, ys)) = (a, b) else {
        return UnifyResult::Indeterminate;
    };
    if i != j {
        return UnifyResult::Failure;
    }
    unify_lists(ws, fixed, memory, xs, ys, Inverted(false))
}

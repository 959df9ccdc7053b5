// find_mut, unify and its family.
use call_impl::{approx_eq, unify_impl_type};
use call_unify_lists::{unify_fn_sig, unify_objects, unify_types};
use chart::Env;
use run_text::numbers::{after, first};
use run_text::writing;
use std::io;
use std::io::Write;
use types::{Impl, Inverted, Type};
use words::word;

#[derive(Clone, Copy)]
pub(crate) enum Joining {
    // A type.
    FindMut,
    // Two types.
    Unify,
    // Inversion, how many types the first list has, both lists.
    UnifyTypes,
    // Inversion, how many numbers the first object has, both objects: four numbers for each child.
    UnifyObjects,
    // The returns, how many parameters the first has, both lists.
    UnifyFnSig,
    // 1 for an error and the trait's number, twice; how many types the first has, both lists.
    UnifyImplType,
    // The same.
    ApproxEq,
}

// A trait, by its number, over these types, or an error where the first number says so.
pub(crate) fn impl_of(error: u32, number: u32, types: &[u32]) -> Impl<'_> {
    if error != 0 {
        return Impl::Error;
    }
    Impl::Trait(number, types)
}

// Two lists, and whether the second's types are inverted.
fn lists(a: &[u32]) -> (&[u32], &[u32], Inverted) {
    let n = word(a, 1) as usize;
    let both = after(a, 2);
    (first(both, n), after(both, n), Inverted(word(a, 0) != 0))
}

// Two signatures: their parameters and a return each.
fn signatures(a: &[u32]) -> (&[u32], Type, &[u32], Type) {
    let n = word(a, 2) as usize;
    let both = after(a, 3);
    (
        first(both, n),
        Type(word(a, 0)),
        after(both, n),
        Type(word(a, 1)),
    )
}

// Two impl types.
fn impls(a: &[u32]) -> (Impl<'_>, Impl<'_>) {
    let n = word(a, 4) as usize;
    let both = after(a, 5);
    (
        impl_of(word(a, 0), word(a, 1), first(both, n)),
        impl_of(word(a, 2), word(a, 3), after(both, n)),
    )
}

pub(crate) fn call<W: Write>(
    to: &mut W,
    c: Joining,
    env: &Env<'_>,
    h: &[u32],
    ws: &mut [u32],
    ks: &[u32],
    a: &[u32],
) -> io::Result<()> {
    let t = Type(word(a, 0));
    match c {
        Joining::FindMut => writing::type_answer(to, call_find::find_mut(env, h, ws, ks, t)),
        Joining::Unify => {
            let r = call_unify::unify(env, h, ws, ks, t, Type(word(a, 1)));
            writing::unify_answer(to, r)
        }
        Joining::UnifyTypes => {
            let (xs, ys, inv) = lists(a);
            writing::unify_answer(to, unify_types(env, h, ws, ks, xs, ys, inv))
        }
        Joining::UnifyObjects => {
            let (xs, ys, inv) = lists(a);
            writing::unify_answer(to, unify_objects(env, h, ws, ks, xs, ys, inv))
        }
        Joining::UnifyFnSig => {
            let (xs, x, ys, y) = signatures(a);
            writing::unify_answer(to, unify_fn_sig(env, h, ws, ks, xs, x, ys, y))
        }
        Joining::UnifyImplType => {
            let (p, q) = impls(a);
            writing::unify_answer(to, unify_impl_type(env, h, ws, ks, p, q))
        }
        Joining::ApproxEq => {
            let (p, q) = impls(a);
            writing::bool_answer(to, approx_eq(env, h, ws, ks, p, q))
        }
    }
}

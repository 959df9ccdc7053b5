#![tactic(auto)]
// An impl type's text into a lent buffer: a trait's name and its list, or the fn form of the builtin fn trait over exactly three types, the second a Tuple;
// of an error `??`. Types are `show`'s.
ghost use Rattle.scope.specs.Types.{ty_of};
ghost use Rattle.scope.specs.Force.{is_nil};
ghost use Rattle.scope.specs.Show.{render, show, trait_pieces, fn_pieces, show_impl_type};
ghost use Rattle.types.specs.Impls.{impl_means};
ghost use Rattle.chart.specs.Env.{env_by};
ghost use Rattle.layout.specs.Meaning.{kind_means};
ghost use Rattle.layout.specs.Lent.{nodes_by, LinkedIn};
ghost use Rattle.store.specs.Entries.{types_in};
ghost use Rattle.walk.specs.Asks.{StandsIn};
ghost use Rattle.append.specs.Appended.{Puts};
ghost use Rattle.show_impl.specs.Forms.{TupleOf};

use append::{Out, put};
use chart::Env;
use kinds::TUPLE;
use layout::{Kind, Nodes};
use show::show_all;
use show_lists::{show_list, show_params};
use show_names::put_name;
use types::{Impl, Inverted, Type};

// A trait's name, and its list where it has one.
fn show_trait(env: &Env<'_>, nodes: &Nodes<'_>, out: &mut Out<'_>, i: u32, xs: &[u32])
    requires { StandsIn nodes.now }
    ensures { Puts out.old out.new
        (render (show (env_by env.now) (nodes_by nodes.now)) (trait_pieces (env_by env.now) i (types_in xs.now))) }
{
    put_name(&env.texts, out, chart::name_at(env.chart, i));
    if !xs.is_empty() {
        put(out, b"[");
        show_list(env, nodes, out, xs);
        put(out, b"]");
    }
}

// The fn form: a receiver, the children of a Tuple as parameters, and a return unless it is nil.
fn show_fn(
    env: &Env<'_>,
    nodes: &Nodes<'_>,
    out: &mut Out<'_>,
    receiver: Type,
    i: Inverted,
    k: Kind,
    ret: Type,
)
    requires { StandsIn nodes.now }
    ensures { Puts out.old out.new
        (render (show (env_by env.now) (nodes_by nodes.now))
        (fn_pieces (is_nil (nodes_by nodes.now)) (ty_of receiver.0) i.0
        (kind_means nodes.now.kids.now k).kids (ty_of ret.0))) }
{
    put(out, b"fn ");
    show_all(env, nodes, out, receiver);
    put(out, b"(");
    show_params(env, nodes, out, i, k);
    put(out, b")");
    if !walk::is_nil(nodes.words, nodes.made, ret) {
        put(out, b" -> ");
        show_all(env, nodes, out, ret);
    }
}

// A type's kind where it is a Tuple, with the type's own inversion.
#[tactic(auto, using(crate::proofs::Laws::tuple_none))]
fn tuple_of(nodes: &Nodes<'_>, t: Type) -> Option<(Inverted, Kind)>
    requires { LinkedIn nodes.now }
    ensures { TupleOf nodes.now.words.now nodes.now.made t.0 result }
{
    let root = roots::find_in(nodes, t);
    let (inv, kind) = nodes.held(root.idx())?;
    (kind.code == TUPLE).then_some((inv ^ root.inv(), kind))
}

// An impl type: the fn form, or a trait's name and its list; of an error two question marks.
pub fn show_impl_type(env: &Env<'_>, nodes: &Nodes<'_>, out: &mut Out<'_>, a: Impl<'_>)
    requires { StandsIn nodes.now }
    ensures { Puts out.old out.new (show_impl_type (env_by env.now) (nodes_by nodes.now) (impl_means a.entry)) }
{
    let Impl::Trait(i, xs) = a else {
        put(out, b"??");
        return;
    };
    if let [receiver, params, ret] = xs
        && i == env.beside.fn_trait
        && let Some((inv, kind)) = tuple_of(nodes, Type(*params))
    {
        show_fn(env, nodes, out, Type(*receiver), inv, kind, Type(*ret));
    } else {
        show_trait(env, nodes, out, i, xs);
    }
}

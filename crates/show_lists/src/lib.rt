#![tactic(auto)]
// The types of a list in its text, with a comma between them: a lent list, and the children of a kind. Each type is `show`'s.
ghost use Rattle.std.specs.Prelude.{false};
ghost use Rattle.scope.specs.Show.{render, commas, show};
ghost use Rattle.chart.specs.Env.{env_by};
ghost use Rattle.layout.specs.Meaning.{kind_means};
ghost use Rattle.layout.specs.Lent.{nodes_by};
ghost use Rattle.store.specs.Entries.{types_in};
ghost use Rattle.walk.specs.Asks.{StandsIn};
ghost use Rattle.append.specs.Appended.{Puts};

use append::Out;
use chart::Env;
use layout::{Kind, Nodes};
use show::show_all;
use show_names::put_comma;
use types::{Inverted, Type};

// The types of a lent list.
pub fn show_list(env: &Env<'_>, nodes: &Nodes<'_>, out: &mut Out<'_>, xs: &[u32])
    requires { StandsIn nodes.now }
    ensures { Puts out.old out.new
        (render (show (env_by env.now) (nodes_by nodes.now)) (commas false (types_in xs.now))) }
{
    for (i, w) in xs.iter().enumerate() {
        put_comma(out, 0 < i);
        show_all(env, nodes, out, Type(*w));
    }
}

// The children of a kind, inverted if i says so.
pub fn show_params(env: &Env<'_>, nodes: &Nodes<'_>, out: &mut Out<'_>, i: Inverted, k: Kind)
    requires { StandsIn nodes.now }
    ensures { Puts out.old out.new
        (render (show (env_by env.now) (nodes_by nodes.now)) (commas i.0 (kind_means nodes.now.kids.now k).kids)) }
{
    for j in 0..k.count {
        put_comma(out, 0 < j);
        let kid = nodes.child(k.first, j).ty;
        show_all(env, nodes, out, kid.invert_if(i));
    }
}

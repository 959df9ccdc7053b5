// `find` and `find_mut` on a tested store: each tests its type and refuses with 3, or answers what document 01 says. Both are `tested_lean`'s, whose promise with every
// chart, texts and children's words is theirs with these.
ghost use Rattle.std.specs.Prelude.{◌≡◌};
ghost use Rattle.scope.specs.Types.{ty_of};
ghost use Rattle.scope.specs.Calls.{find_call, find_mut_call};
ghost use Rattle.layout.specs.Words.{lent_of, store_in};
ghost use Rattle.sound.specs.Tests.{env_lent};
ghost use Rattle.promise.specs.Promise.{type_reply, outcome_by, Promised, Tested};

use chart::Env;
use refusals::Refusal;
use types::Type;

// "`find` follows parents, combining inversions by exclusive or."
pub fn find(env: &Env<'_>, h: &[u32], ws: &[u32], ks: &[u32], t: Type) -> Result<Type, Refusal>
    requires { Tested (env_lent env.now) h.now ws.now ks.now }
    ensures { find_call
        (env_lent env.now) (lent_of h.now ws.now ks.now) (ty_of t.0)
        ≡ outcome_by (type_reply result) (store_in h.now ws.now ks.now) }
{
    tested_lean::find(h, ws, t)
}

// "`find_mut` also points every node on the path straight at the root, keeping each node's meaning."
pub fn find_mut(
    env: &Env<'_>,
    h: &[u32],
    ws: &mut [u32],
    ks: &[u32],
    t: Type,
) -> Result<Type, Refusal>
    requires { Tested (env_lent env.now) h.now ws.old ks.now }
    ensures { Promised
        (find_mut_call (env_lent env.now) (lent_of h.now ws.old ks.now) (ty_of t.0))
        (type_reply result) h.now ws.old ks.now h.now ws.new ks.now }
{
    tested_lean::find_mut(h, ws, t)
}

#![tactic(auto)]
// A list of types copied out of one store into another, and a type that the source remembers: a list of one or none. Lists that go through one table
// share their copies. Nothing here can fail: what is asked for is room.
ghost use Rattle.std.proofs.Math.Option.{none};
ghost use Rattle.std.specs.Prelude.{◌≤◌, length};
ghost use Rattle.scope.specs.Needs.{listed};
ghost use Rattle.scope.proofs.CopyTable.{copy_all};
ghost use Rattle.layout.specs.Meaning.{remembered_means};
ghost use Rattle.store.specs.Entries.{types_in};
ghost use Rattle.roots.specs.StaysLent.{StaysLent};
ghost use Rattle.copy_parts.specs.Places.{params_in};
ghost use Rattle.copy_type.specs.Words.{copying_at, copy_from};
ghost use Rattle.copy_lists.specs.Lists.{AllCopyableFrom, AllCopied, RememberedCopied};

use roots::Finder;
use types::Type;

// The copies of a list's types stand at the front of `out`.
pub fn copy_all(
    finder: &mut Finder<'_>,
    params: Option<&[u32]>,
    table: &mut [u32],
    h: &mut [u32],
    ws: &mut [u32],
    ks: &mut [u32],
    ts: &[u32],
    out: &mut [u32],
)
    requires all_copyable { AllCopyableFrom finder.old.nodes.now (params_in params) h.old ws.old ks.old table.old (types_in ts.now) }
    requires ts_in_bounds { length ts.now ≤ length out.old }
    ensures { AllCopied (copy_all (copy_from finder.old.nodes.now (params_in params.entry) finder.old.nodes.now.made) (copying_at h.old ws.old ks.old table.old)
        (types_in ts.now)) (length ts.now)
        h.old ws.old ks.old h.new ws.new ks.new table.new
        out.old out.new × StaysLent finder.old finder.new }
{
    // Kept (3): `out` is written by index, as in `make::new_vars`: after `iter_mut` a proof knows the length of `out` and not its elements (NOT_COVERED.md of the kit).
    for (i, t) in ts.iter().enumerate() {
        let t = Type(*t);
        let next = copy_type::copy(finder, params, table, h, ws, ks, t, finder.nodes.made);
        out[i] = next.0;
    }
}

// The copy of a type that the source remembers, if any. No parameter list is used.
pub fn copy_remembered(
    finder: &mut Finder<'_>,
    table: &mut [u32],
    h: &mut [u32],
    ws: &mut [u32],
    ks: &mut [u32],
    was: Option<Type>,
) -> Option<Type>
    requires { AllCopyableFrom finder.old.nodes.now none h.old ws.old ks.old table.old (listed (remembered_means was)) }
    ensures { RememberedCopied (copy_all (copy_from finder.old.nodes.now none finder.old.nodes.now.made)
        (copying_at h.old ws.old ks.old table.old) (listed (remembered_means was)))
        h.old ws.old ks.old h.new ws.new ks.new table.new result
        × StaysLent finder.old finder.new }
{
    let t = was?;
    Some(copy_type::copy(finder, None, table, h, ws, ks, t, finder.nodes.made))
}

// The printers on a tested store: `show` and `show_impl_type` "write 000's text into a lent buffer and answer its length or a refusal". Refusals come in the
// order 3, 4, 5, 7; "7 from a printer fills the buffer with the text's first bytes".
ghost use Rattle.std.specs.Prelude.{◌≡◌, length};
ghost use Rattle.scope.specs.Types.{ty_of};
ghost use Rattle.scope.specs.Calls.{show_call, show_impl_type_call};
ghost use Rattle.types.specs.Impls.{impl_means};
ghost use Rattle.layout.specs.Words.{lent_of, store_in};
ghost use Rattle.sound.specs.Tests.{env_lent};
ghost use Rattle.promise.specs.Promise.{Tested};
ghost use Rattle.promise.specs.Prints.{PrintPromised, count_reply};
ghost use Rattle.call_show.specs.Ends.{end_reply};

use append::Out;
use chart::Env;
use layout::Nodes;
use promise::inside;
use refusals::Refusal;
use types::{Impl, Type};

// What a printer answers whose text is whole: the place that it came to, which is its length, or 7 where that lies past the buffer.
pub fn printed(out: &Out<'_>) -> Result<usize, Refusal>
    ensures { count_reply result ≡ end_reply (length out.now.buf.now) out.now.at }
{
    if append::is_full(out) {
        return Err(Refusal::Short);
    }
    Ok(out.at)
}

// A type's text.
pub fn show(
    env: &Env<'_>,
    h: &[u32],
    ws: &[u32],
    ks: &[u32],
    t: Type,
    buf: &mut [u8],
) -> Result<usize, Refusal>
    requires { Tested (env_lent env.now) h.now ws.now ks.now }
    ensures { PrintPromised
        (show_call (env_lent env.now) (lent_of h.now ws.now ks.now) (ty_of t.0) buf.old)
        (count_reply result) (store_in h.now ws.now ks.now) buf.new }
{
    inside(h, t)?;
    let nodes = Nodes {
        words: ws,
        kids: ks,
        made: layout::read_header(h).nodes,
    };
    let mut out = Out { buf, at: 0 };
    show::show_all(env, &nodes, &mut out, t);
    printed(&out)
}

// An impl type's text.
pub fn show_impl_type(
    env: &Env<'_>,
    h: &[u32],
    ws: &[u32],
    ks: &[u32],
    a: Impl<'_>,
    buf: &mut [u8],
) -> Result<usize, Refusal>
    requires { Tested (env_lent env.now) h.now ws.now ks.now }
    ensures { PrintPromised
        (show_impl_type_call (env_lent env.now) (lent_of h.now ws.now ks.now) (impl_means a.entry) buf.old)
        (count_reply result) (store_in h.now ws.now ks.now) buf.new }
{
    let nodes = Nodes {
        words: ws,
        kids: ks,
        made: layout::read_header(h).nodes,
    };
    lent_tests::one_impl(a, nodes.made, env)?;
    let mut out = Out { buf, at: 0 };
    show_impl::show_impl_type(env, &nodes, &mut out, a);
    printed(&out)
}

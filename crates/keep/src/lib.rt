#![tactic(auto)]
// The used words of a store, kept in other slices and put back. Only what a store uses is copied: its head, the words of the nodes that it made and those
// of their children. proofs/Front has why that is enough: what a store is does not depend on words behind these. Nothing here tests.
ghost use Rattle.std.specs.Prelude.{◌≡◌, ◌≤◌, length};
ghost use Rattle.layout.specs.Words.{HEAD_WORDS, store_in};
ghost use Rattle.layout.specs.Meaning.{header_in, put_header};
ghost use Rattle.store.specs.Holds.{Became};
ghost use Rattle.keep.specs.Kept.{copied, Copyable, replaced, Replaceable, kept_header, header_back, BackReady, store_back};

use layout::Header;

// The first `count` words.
pub fn copy_words(from: &[u32], to: &mut [u32], count: usize)
    requires { Copyable count from.now to.old }
    ensures { to.new ≡ copied count from.now to.old }
{
    to[..count].copy_from_slice(&from[..count]);
}

// A head that says its counts as its capacities: no word behind what is used belongs to a kept store.
fn kept_header(x: Header) -> Header
    ensures { result ≡ kept_header x }
{
    Header {
        node_room: x.nodes,
        child_room: x.children,
        ..x
    }
}

pub fn keep_head(h: &[u32], to: &mut [u32])
    requires { HEAD_WORDS ≤ length to.old }
    ensures { to.new ≡ put_header to.old (kept_header (header_in h.now)) }
{
    layout::write_header(to, kept_header(layout::read_header(h)));
}

// "the report count does not go back, since those messages have been read"
fn header_back(present: Header, kept: Header) -> Header
    ensures { result ≡ header_back present kept }
{
    Header {
        node_room: present.node_room,
        child_room: present.child_room,
        reports: present.reports,
        ..kept
    }
}

// The first `count` words, in place of the `used` ones: where these are more, the others become 0.
fn replace_words(from: &[u32], to: &mut [u32], used: usize, count: usize)
    requires { Replaceable used count from.now to.old }
    ensures { to.new ≡ replaced used count from.now to.old }
{
    copy_words(from, to, count);
    if count < used {
        make::clear(&mut to[count..], used - count);
    }
}

// "Returning restores every node, the remembered error and nil types and every capacity figure". Words that neither store uses are not touched.
pub fn put_back(h: &mut [u32], ws: &mut [u32], ks: &mut [u32], ph: &[u32], pn: &[u32], pk: &[u32])
    requires { BackReady h.old ws.old ks.old ph.now pn.now pk.now }
    ensures { Became h.old ws.old ks.old h.new ws.new ks.new
        (store_back (store_in h.old ws.old ks.old) (store_in ph.now pn.now pk.now)) }
{
    let x = layout::read_header(h);
    let kept = layout::read_header(ph);
    replace_words(
        pn,
        ws,
        layout::node_words(x.nodes),
        layout::node_words(kept.nodes),
    );
    replace_words(
        pk,
        ks,
        layout::child_words(x.children),
        layout::child_words(kept.children),
    );
    layout::write_header(h, header_back(x, kept));
}

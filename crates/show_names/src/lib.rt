#![tactic(auto)]
// Names, numbers and short texts in a type's text. Each function appends one piece to a text in a lent buffer, straight from the chart and the texts: no
// other buffer is used.
ghost use Rattle.std.specs.Prelude.{[]};
ghost use Rattle.scope.specs.Base.{pick};
ghost use Rattle.scope.specs.Text.{text};
ghost use Rattle.scope.specs.Chart.{record_at};
ghost use Rattle.scope.specs.Names.{bytes};
ghost use Rattle.scope.specs.Types.{ty_of};
ghost use Rattle.names.specs.Place.{texts, name_of, texts_by};
ghost use Rattle.chart.specs.Env.{chart_lent};
ghost use Rattle.append.specs.Appended.{Puts};
ghost use Rattle.show_names.specs.Names.{comma_if, entry_text, function_text, unknown_text};

use append::{Out, put, put_decimal};
use chart::Env;
use kinds::TRAIT_FN_SORT;
use layout::Kind;
use names::{Name, Texts};
use types::Type;

// A ~ where a type is inverted.
pub fn put_tilde(out: &mut Out<'_>, inverted: bool)
    ensures { Puts out.old out.new (pick inverted (text "~") []) }
{
    if inverted {
        put(out, b"~");
    }
}

// A name's bytes, from its text.
pub fn put_name(texts: &Texts<'_>, out: &mut Out<'_>, n: Name)
    ensures { Puts out.old out.new (bytes (texts_by texts.now) (name_of n)) }
{
    put(out, names::bytes_of(n, texts));
}

// Between the items of a list: before a later one.
pub fn put_comma(out: &mut Out<'_>, later: bool)
    ensures { Puts out.old out.new (comma_if later) }
{
    if later {
        put(out, b", ");
    }
}

// The name of child j of a kind, or dots, and a colon, among others.
pub fn put_entry(texts: &Texts<'_>, ks: &[u32], out: &mut Out<'_>, k: Kind, j: u32)
    ensures { Puts out.old out.new (entry_text (texts_by texts.now) ks.now k j) }
{
    put_comma(out, 0 < j);
    let n = layout::child_of(ks, k.first, j).name;
    if n.len == 0 {
        put(out, b"...: ");
    } else {
        put_name(texts, out, n);
        put(out, b": ");
    }
}

// A concrete fn's path; of a trait fn its trait's path and its own name.
pub fn put_function(env: &Env<'_>, out: &mut Out<'_>, number: u32)
    ensures { Puts out.old out.new (function_text (chart_lent env.now) (record_at (chart_lent env.now) number)) }
{
    put(out, b"fn ");
    if chart::sort_at(env.chart, number) == TRAIT_FN_SORT {
        let owner = chart::trait_at(env.chart, number);
        put_name(&env.texts, out, chart::path_at(env.chart, owner));
        put(out, b"::");
        put_name(&env.texts, out, chart::name_at(env.chart, number));
    } else {
        put_name(&env.texts, out, chart::path_at(env.chart, number));
    }
}

// A root without a kind: its number.
pub fn put_unknown(out: &mut Out<'_>, r: Type)
    ensures { Puts out.old out.new (unknown_text (ty_of r.0)) }
{
    put_tilde(out, r.inv().0);
    put(out, b"?");
    put_decimal(out, r.idx().0);
}

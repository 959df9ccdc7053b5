#![tactic(auto)]
// What stands before, between and after a kind's children in its text. Each function appends its part to a text in a lent buffer; the children
// themselves are the caller's. Which fixed bytes a kind has is found first, and then they are put.
ghost use Rattle.std.specs.Prelude.{◌≡◌, [], ◌++◌};
ghost use Rattle.names.specs.Place.{name_of, texts_by};
ghost use Rattle.chart.specs.Env.{env_of, env_by};
ghost use Rattle.append.specs.Appended.{Puts};
ghost use Rattle.show_parts.specs.Parts.{front_of, back_of, own_name, lead_of, gap_of, end_of, close_of, sign_of};

use append::{Out, put, put_decimal};
use chart::{Beside, Env};
use kinds::{
    CLOSURE, DEFAULT, ENUM, ERROR, FN, IF_CONST, KEY, NEVER, OBJECT, OPAQUE, PARAM, REF, STRUCT,
    TUPLE, UNION,
};
use layout::Kind;
use names::{NO_NAME, Name, Texts};
use show_names::{put_comma, put_entry, put_function, put_name, put_tilde};

// What a kind says before its name, or at all where it has none.
// Kept (5): three functions here, and one in `show`, take a kind's code and how many children it has, as their definitions do: the rest of a kind tells nothing there.
#[tactic(auto, unfolding(crate::specs::Parts::front_of))]
fn front(code: u32, count: u32) -> &'static [u8]
    ensures { result.now ≡ front_of code count }
{
    match code {
        TUPLE => b"(",
        OBJECT if count == 0 => b"{}",
        OBJECT => b"{ ",
        CLOSURE => b"fn",
        REF => b"&",
        KEY => b".",
        IF_CONST if count < 2 => b"",
        IF_CONST => b"if const ",
        NEVER => b"!",
        DEFAULT => b"_",
        ERROR => b"??",
        _ => b"",
    }
}

// A kind's name: its own, its definition's, a Closure's sigil. An if const without two children has none.
#[tactic(auto, unfolding(crate::specs::Parts::own_name))]
fn own_name(chart: &[u32], beside: Beside, k: Kind) -> Name
    ensures { name_of result ≡ own_name (env_of chart.now beside [] []) k }
{
    match k.code {
        PARAM | KEY => k.name,
        CLOSURE => chart::sigil_at(beside, k.flex),
        OPAQUE | STRUCT | ENUM | UNION => chart::name_at(chart, k.number),
        IF_CONST if k.count >= 2 => chart::path_at(chart, k.number),
        _ => NO_NAME,
    }
}

// What a kind says after its name.
#[tactic(auto, unfolding(crate::specs::Parts::back_of))]
fn back(code: u32, count: u32) -> &'static [u8]
    ensures { result.now ≡ back_of code count }
{
    match code {
        CLOSURE => b" <",
        IF_CONST if count < 2 => b"",
        IF_CONST => b" { ",
        OPAQUE | STRUCT | ENUM | UNION if count > 0 => b"[",
        _ => b"",
    }
}

// A kind up to its children, with a ~ or without.
pub fn put_lead(env: &Env<'_>, out: &mut Out<'_>, tilde: bool, k: Kind)
    ensures { Puts out.old out.new (sign_of tilde ++ lead_of (env_by env.now) k) }
{
    put_tilde(out, tilde);
    if k.code == FN {
        put_function(env, out, k.number);
        return;
    }
    put(out, front(k.code, k.count));
    if k.code == TUPLE {
        return;
    }
    put_name(&env.texts, out, own_name(env.chart, env.beside, k));
    put(out, back(k.code, k.count));
    if k.code != CLOSURE {
        return;
    }
    put_decimal(out, k.number);
    put(out, b">(");
}

// What stands before child j of a kind.
#[tactic(auto, unfolding(crate::specs::Parts::gap_of))]
pub fn put_gap(texts: &Texts<'_>, ks: &[u32], out: &mut Out<'_>, k: Kind, j: u32)
    ensures { Puts out.old out.new (gap_of (texts_by texts.now) ks.now k j) }
{
    match k.code {
        CLOSURE if j as usize + 1 == k.count as usize => put(out, b") -> "),
        OBJECT | CLOSURE => put_entry(texts, ks, out, k, j),
        IF_CONST if j == 0 => {}
        IF_CONST => put(out, b" } else { "),
        _ => put_comma(out, 0 < j),
    }
}

// What stands after a kind's children, of which m are shown.
#[tactic(auto, unfolding(crate::specs::Parts::end_of))]
fn end(code: u32, count: u32, m: u32) -> &'static [u8]
    ensures { result.now ≡ end_of code count m }
{
    match code {
        TUPLE if count == 1 => b",)",
        TUPLE => b")",
        OBJECT if count > 0 => b" }",
        OPAQUE | STRUCT | ENUM | UNION if count > 0 => b"]",
        CLOSURE if m < count || count == 0 => b")",
        IF_CONST if count >= 2 => b" }",
        _ => b"",
    }
}

pub fn put_close(out: &mut Out<'_>, k: Kind, m: u32)
    ensures { Puts out.old out.new (close_of k m) }
{
    put(out, end(k.code, k.count, m));
}

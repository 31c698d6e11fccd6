// Whether the names of a line are known, or new: refusal 51.
#![tactic(auto)]

ghost use Rattle.std.specs.Prelude.{◌≡◌};
ghost use Rattle.text_words.specs.Parts.{Whole, all_of};
ghost use Rattle.text_definition.specs.Decls.{is_in, has_function, known_term};
ghost use Rattle.text_known.specs.Known.{Room, known_by};
ghost use Rattle.text_grammar.specs.Grammar.{pattern_of, pass_from};

use rule_signatures::table::{head_at, kind_at};
use text_grammar::{Form, Kind, forms};
use text_words::names;
use text_words::parts::{Parts, between};

// The names that are declared, and the signatures of the heads.
#[derive(Clone, Copy)]
pub struct Declared<'a> {
    pub sorts: Parts<'a>,
    pub globals: Parts<'a>,
    pub heads: Parts<'a>,
    pub signatures: &'a [usize],
}

#[tactic(auto, using(crate::specs::Laws::in_parts))]
fn is_in(names: Parts, w: &[u8]) -> bool
    requires { Whole names }
    ensures { result ≡ is_in w.now (all_of names.entry) }
{
    names.find(w) < names.count
}

// One of the first n signatures is a function with this head.
fn has_function(signatures: &[usize], n: usize, head: usize) -> bool
    ensures { result ≡ has_function signatures.now n head }
{
    (0..n).any(|i| kind_at(signatures, i) <= 1 && head_at(signatures, i) == head)
}

// Behind `@` a global that is declared, behind `=` a sort that is.
#[tactic(auto, using(text_words::specs::Laws::Names::to_end, text_words::specs::Laws::Names::sort_part_lem), unfolding(text_definition::specs::Decls::known_term))]
fn known_term(sorts: Parts, globals: Parts, w: &[u8]) -> bool
    requires sorts { Whole sorts }
    requires globals { Whole globals }
    ensures { result ≡ known_term (all_of sorts.entry) (all_of globals.entry) w.now }
{
    match w {
        [b'@', rest @ ..] => is_in(globals, rest),
        [b'=', rest @ ..] => is_in(sorts, between(rest, 0, names::find_byte(rest, 0, b':'))),
        _ => true,
    }
}

// A name that is declared is new, one that is used is known.
#[tactic(auto, using(text_words::specs::Laws::Parts::parts_count), unfolding(text_definition::specs::Decls::known_in))]
fn known(d: &Declared, k: Kind, w: &[u8]) -> bool
    requires { Room d.now }
    ensures { result ≡ known_by d.now k w.now }
{
    match k {
        Kind::NewSort => !is_in(d.sorts, w),
        Kind::NewFunction => !has_function(d.signatures, d.heads.count, d.heads.find(w)),
        Kind::NewGlobal => !is_in(d.globals, w),
        Kind::KnownSort => is_in(d.sorts, w),
        Kind::MaybeSort => names::is_absent(w) || is_in(d.sorts, w),
        Kind::Term => known_term(d.sorts, d.globals, w),
        Kind::Keyword
        | Kind::SimpleWord
        | Kind::EqualWord
        | Kind::MaybeLength
        | Kind::Mask
        | Kind::Number
        | Kind::Head
        | Kind::Variable
        | Kind::Extra => true,
    }
}

// Every name of a line of this form is known, or new where the line declares it.
pub fn all_known(line: Parts, f: Form, declared: Declared) -> bool
    requires line { Whole line }
    requires room { Room declared }
    ensures { result ≡ pass_from (known_by declared.entry) (pattern_of f) 0 (all_of line.entry) }
{
    let pattern = forms::pattern_of(f);
    (0..line.count).all(|i| known(&declared, forms::kind_at(pattern, i), line.at(i)))
}

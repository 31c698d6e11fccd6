// Which form a line has: refusal 50.
ghost use Rattle.std.specs.Prelude.{◌≡◌};
ghost use Rattle.text_words.specs.Bytes.{same as same_bytes};
ghost use Rattle.text_words.specs.Parts.{Whole, all_of};
ghost use Rattle.text_grammar.specs.Grammar.{keyword_of, pattern as pattern_of_three, pattern_of, kind_at, spelt as spelt_as, fits as fits_form, form_of};

use crate::{Form, Kind, Pattern};
use text_words::names;
use text_words::parts::Parts;

// The forms in the order in which they are tried.
const FORMS: [Form; 16] = [
    Form::Sort,
    Form::Fun,
    Form::Ctor,
    Form::Simple,
    Form::Equal,
    Form::Global,
    Form::Context,
    Form::Atom,
    Form::Set,
    Form::Change,
    Form::Eq,
    Form::Union,
    Form::Let,
    Form::Bind,
    Form::Panic,
    Form::Local,
];

// A mask, a context's number and an exact length lie below these.
pub const MASK_BOUND: usize = 256;

pub const CONTEXT_BOUND: usize = 8;

pub const LENGTH_BOUND: usize = 10000;

// The word is the keyword of the form's lines.
// Stays: no table of keywords, since its pointers would be memory of the C library that can be written (bindings/c/tests/archive).
#[tactic(auto, unfolding(crate::specs::Grammar::keyword_of))]
fn is_keyword(f: Form, w: &[u8]) -> bool
    ensures { result ≡ same_bytes w.now (keyword_of f) }
{
    match f {
        Form::Sort => names::same(w, b"sort"),
        Form::Fun => names::same(w, b"fun"),
        Form::Ctor => names::same(w, b"ctor"),
        Form::Simple | Form::Equal => names::same(w, b"prim"),
        Form::Global => names::same(w, b"global"),
        Form::Context => names::same(w, b"ctx"),
        Form::Atom => names::same(w, b"atom"),
        Form::Set => names::same(w, b"set"),
        Form::Change => names::same(w, b"change"),
        Form::Eq => names::same(w, b"eq"),
        Form::Union => names::same(w, b"union"),
        Form::Let => names::same(w, b"let"),
        Form::Bind => names::same(w, b"bind"),
        Form::Panic => names::same(w, b"panic"),
        Form::Local => names::same(w, b"local"),
        Form::Malformed => names::same(w, b""),
    }
}

// A pattern whose words behind the second are all of one kind.
fn pattern(fewest: usize, first: Kind, second: Kind, further: Kind) -> Pattern
    ensures { result ≡ pattern_of_three fewest first second further }
{
    Pattern {
        fewest,
        first,
        second,
        third: further,
        fourth: further,
        fifth: further,
        sixth: further,
        further,
    }
}

// The table of the grammar.
#[tactic(auto, unfolding(crate::specs::Grammar::pattern_of))]
pub fn pattern_of(f: Form) -> Pattern
    ensures { result ≡ pattern_of f }
{
    match f {
        Form::Sort => pattern(2, Kind::NewSort, Kind::Extra, Kind::Extra),
        Form::Fun | Form::Ctor => pattern(3, Kind::NewFunction, Kind::KnownSort, Kind::KnownSort),
        Form::Simple => Pattern {
            third: Kind::SimpleWord,
            ..pattern(4, Kind::Head, Kind::Mask, Kind::KnownSort)
        },
        Form::Equal => Pattern {
            third: Kind::EqualWord,
            fourth: Kind::MaybeSort,
            fifth: Kind::MaybeLength,
            sixth: Kind::MaybeSort,
            ..pattern(7, Kind::Head, Kind::Mask, Kind::Extra)
        },
        Form::Global => pattern(3, Kind::NewGlobal, Kind::KnownSort, Kind::Extra),
        Form::Context => pattern(2, Kind::Number, Kind::Extra, Kind::Extra),
        Form::Atom | Form::Change => pattern(2, Kind::Head, Kind::Term, Kind::Term),
        Form::Set => pattern(3, Kind::Head, Kind::Term, Kind::Term),
        Form::Eq | Form::Union => pattern(3, Kind::Term, Kind::Term, Kind::Extra),
        Form::Let => pattern(3, Kind::Variable, Kind::Head, Kind::Term),
        Form::Bind => pattern(3, Kind::Variable, Kind::Term, Kind::Extra),
        Form::Panic => pattern(1, Kind::Extra, Kind::Extra, Kind::Extra),
        Form::Local => pattern(3, Kind::Variable, Kind::KnownSort, Kind::Extra),
        Form::Malformed => pattern(0, Kind::Extra, Kind::Extra, Kind::Extra),
    }
}

// The kind of word i.
#[tactic(auto, using(crate::specs::Laws::kind_further), unfolding(crate::specs::Grammar::kind_at))]
pub fn kind_at(r: Pattern, i: usize) -> Kind
    ensures { result ≡ kind_at r i }
{
    match i {
        0 => Kind::Keyword,
        1 => r.first,
        2 => r.second,
        3 => r.third,
        4 => r.fourth,
        5 => r.fifth,
        6 => r.sixth,
        _ => r.further,
    }
}

// The word is spelt as its kind asks.
#[tactic(auto, unfolding(crate::specs::Grammar::spelt))]
fn spelt(f: Form, k: Kind, w: &[u8]) -> bool
    ensures { result ≡ spelt_as f k w.now }
{
    match k {
        Kind::Keyword => is_keyword(f, w),
        Kind::SimpleWord => names::same(w, b"simple"),
        Kind::EqualWord => names::same(w, b"equal"),
        Kind::NewSort | Kind::NewFunction | Kind::NewGlobal | Kind::KnownSort | Kind::Head =>
            names::is_name(w),
        Kind::MaybeSort => names::is_absent(w) || names::is_name(w),
        Kind::MaybeLength => names::is_absent(w) || names::number_below(w, LENGTH_BOUND).is_some(),
        Kind::Mask => names::number_below(w, MASK_BOUND).is_some(),
        Kind::Number => names::number_below(w, CONTEXT_BOUND).is_some(),
        Kind::Variable => names::is_variable(w),
        Kind::Term => names::is_term(w),
        Kind::Extra => false,
    }
}

// No word is missing, and every word is spelt as it should be.
fn fits(line: Parts, f: Form) -> bool
    requires { Whole line }
    ensures { result ≡ fits_form f (all_of line.entry) }
{
    let pattern = pattern_of(f);
    pattern.fewest <= line.count
        && (0..line.count).all(|i| spelt(f, kind_at(pattern, i), line.at(i)))
}

// The form of a line whose words the table has; Malformed where it has none.
pub fn form_of(line: Parts) -> Form
    requires { Whole line }
    ensures { result ≡ form_of (all_of line.entry) }
{
    FORMS
        .iter()
        .find(|f| fits(line, **f))
        .copied()
        .unwrap_or(Form::Malformed)
}

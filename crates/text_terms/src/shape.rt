// Where the words of a line of terms stand, by its form.
ghost use Rattle.std.specs.Prelude.{◌-◌, ◌≡◌};
ghost use Rattle.text_terms.specs.Shape.{is_silent, is_local, sort_word, shape_of, silent as silent_shape, applied as applied_shape, plain as plain_shape, binding as binding_shape};

use text_grammar::Form;

// What a line of a form calls: nothing, a query's atom, an action, a typed local.
#[derive(Clone, Copy, Debug, PartialEq, Eq)]
pub enum Way {
    Silent,
    Query,
    Action,
    Local,
}

impl Way {
    pub fn is_silent(self) -> bool
        ensures { result ≡ is_silent self }
    {
        matches!(self, Way::Silent)
    }

    pub fn is_local(self) -> bool
        ensures { result ≡ is_local self }
    {
        matches!(self, Way::Local)
    }

    // The word of a typed local's sort.
    pub fn sort_word(self) -> Option<usize>
        ensures { result ≡ sort_word self }
    {
        match self {
            Way::Local => Some(2),
            Way::Silent | Way::Query | Way::Action => None,
        }
    }
}

// Words of a line, from word `start` up to word `end`.
#[derive(Clone, Copy, Debug, PartialEq, Eq)]
pub struct Words {
    pub start: usize,
    pub end: usize,
}

// The kind of a call as its first cell has it; the word of its head, if it has one. The words that are named first; its
// arguments, where those that are named then begin, which end with the line; its x and y.
#[derive(Clone, Copy, Debug, PartialEq, Eq)]
pub struct Shape {
    pub way: Way,
    // Stays: `call_of` and `hear` promise the call of a shape of any kind.
    pub kind: usize,
    pub head: Option<usize>,
    pub bound: Words,
    pub args: Words,
    pub others: Words,
}

const NONE: Words = Words { start: 0, end: 0 };

// Terms alone.
fn plain(way: Way, kind: usize, end: usize, others: Words) -> Shape
    ensures { result ≡ plain_shape way kind end others }
{
    Shape {
        way,
        kind,
        head: None,
        bound: NONE,
        args: Words { start: 1, end },
        others,
    }
}

// A line of n words that says nothing.
fn silent(n: usize) -> Shape
    ensures { result ≡ silent_shape n }
{
    Shape {
        args: Words { start: n, end: n },
        ..plain(Way::Silent, 0, n, NONE)
    }
}

// A head, then terms.
fn applied(way: Way, kind: usize, end: usize, others: Words) -> Shape
    ensures { result ≡ applied_shape way kind end others }
{
    Shape {
        head: Some(1),
        args: Words { start: 2, end },
        ..plain(way, kind, end, others)
    }
}

// A variable, which is word 1, then what it is bound to.
fn binding(way: Way, head: Option<usize>, args: Words) -> Shape
    ensures { result ≡ binding_shape way head args }
{
    let variable = Words { start: 1, end: 2 };
    Shape {
        way,
        kind: 0,
        head,
        bound: variable,
        args,
        others: variable,
    }
}

// The shape of a line of n words.
#[tactic(auto, unfolding(crate::specs::Shape::shape_of))]
pub fn shape_of(f: Form, n: usize) -> Shape
    ensures { result ≡ shape_of f n }
{
    let last = Words {
        start: n.saturating_sub(1),
        end: n,
    };
    match f {
        Form::Atom => applied(Way::Query, 0, n, NONE),
        Form::Eq => plain(Way::Query, 1, n, NONE),
        Form::Let => binding(Way::Action, Some(2), Words { start: 3, end: n }),
        Form::Set => applied(Way::Action, 1, last.start, last),
        Form::Change => applied(Way::Action, 2, n, NONE),
        Form::Union => plain(Way::Action, 3, 1, Words { start: 1, end: n }),
        Form::Bind => plain(Way::Action, 4, 1, Words { start: 1, end: n }),
        Form::Panic => plain(Way::Action, 5, 1, NONE),
        Form::Local => binding(Way::Local, None, Words { start: n, end: n }),
        Form::Sort
        | Form::Fun
        | Form::Ctor
        | Form::Simple
        | Form::Equal
        | Form::Global
        | Form::Context
        | Form::Malformed => silent(n),
    }
}

// The signatures of functions and primitives, and the terms of literals and globals: what each gives for arguments.
#![tactic(auto)]

ghost use Rattle.std.specs.Prelude.{◌≡◌};
ghost use Rattle.rule_signatures.specs.Shapes.{simple, bare, with_common, with_length, with_output};
ghost use Rattle.rule_signatures.specs.Tables.{signature_kind, is_function_kind, kind_of_term};

use rule_cells::Origin;

pub mod given;
pub mod table;

// A term is 2 cells: kind, value.
pub const TERM_CELLS: usize = 2;

// The kinds of signatures. A number past the table's four is read as the last.
#[derive(Clone, Copy, Debug, PartialEq, Eq)]
pub enum SignatureKind {
    Function,
    Constructor,
    SimplePrimitive,
    AllEqualPrimitive,
}

impl From<usize> for SignatureKind {
    ghost from_gives = { λ number kind. kind ≡ signature_kind number };

    fn from(number: usize) -> SignatureKind {
        match number {
            0 => SignatureKind::Function,
            1 => SignatureKind::Constructor,
            2 => SignatureKind::SimplePrimitive,
            _ => SignatureKind::AllEqualPrimitive,
        }
    }
}

impl SignatureKind {
    // A constructor is a function too.
    pub fn is_function(self) -> bool
        ensures { result ≡ is_function_kind self }
    {
        matches!(self, SignatureKind::Function | SignatureKind::Constructor)
    }
}

// The kinds of terms. A number past the three is read as the last.
#[derive(Clone, Copy, Debug, PartialEq, Eq)]
pub enum TermKind {
    Variable,
    Global,
    Literal,
}

impl From<usize> for TermKind {
    ghost from_gives = { λ number kind. kind ≡ kind_of_term number };

    fn from(number: usize) -> TermKind {
        match number {
            0 => TermKind::Variable,
            1 => TermKind::Global,
            _ => TermKind::Literal,
        }
    }
}

// The terms lent with a rule, and what is lent of the globals among them.
#[derive(Clone, Copy)]
pub struct Scope<'a> {
    pub terms: &'a [usize],
    pub globals: &'a [usize],
}

// An atom or an action: its arguments, and what all its records share.
#[derive(Clone, Copy)]
pub struct Statement<'a> {
    pub args: &'a [usize],
    pub origin: Origin,
}

// One sort for each argument: a part of the list of signature sorts.
#[derive(Clone, Copy)]
pub struct SimpleTypeConstraint {
    pub head: usize,
    pub start: usize,
    pub count: usize,
}

// All arguments alike; or of one sort, of an exact number, with an output of its own.
#[derive(Clone, Copy)]
pub struct AllEqualTypeConstraint {
    pub head: usize,
    pub common: Option<usize>,
    pub length: Option<usize>,
    pub output: Option<usize>,
}

#[derive(Clone, Copy)]
pub enum Signature {
    Simple(SimpleTypeConstraint),
    AllEqual(AllEqualTypeConstraint),
}

impl SimpleTypeConstraint {
    // A signature is 10 cells: kind, head, mask, start, count, common, length, output, two that are not read.
    pub const CELLS: usize = 10;

    // The most sorts that all signatures have between them.
    pub const MAX_SORTS: usize = 2048;

    pub fn new(head: usize, start: usize, count: usize) -> Self
        ensures { result ≡ simple head start count }
    {
        Self { head, start, count }
    }
}

impl AllEqualTypeConstraint {
    // The largest exact length.
    pub const MAX_LENGTH: usize = 9999;

    // Nothing is asked but that all are alike.
    pub fn new(head: usize) -> Self
        ensures { result ≡ bare head }
    {
        Self {
            head,
            common: None,
            length: None,
            output: None,
        }
    }

    // All arguments have this sort; the output too, if it has no sort of its own.
    pub fn with_all_arguments_sort(mut self, sort: usize) -> Self
        ensures { result ≡ with_common self sort }
    {
        self.common = Some(sort);
        self
    }

    // There are this many arguments, the output among them.
    pub fn with_exact_length(mut self, exact_length: usize) -> Self
        ensures { result ≡ with_length self exact_length }
    {
        self.length = Some(exact_length);
        self
    }

    // The last argument has this sort.
    pub fn with_output_sort(mut self, output_sort: usize) -> Self
        ensures { result ≡ with_output self output_sort }
    {
        self.output = Some(output_sort);
        self
    }
}

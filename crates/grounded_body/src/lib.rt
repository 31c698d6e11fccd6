// A rule's body: its refusals, and the problem that the groundedness check makes of it.
#![tactic(auto)]

ghost use Rattle.std.specs.Prelude.{◌≡◌};
ghost use Rattle.grounded_body.specs.Body.{kind_at, arguments_at, term_kind, is_variable};
ghost use Rattle.grounded_body.specs.Kinds.{atom_of_number, term_of_number, atom_kind};
ghost use Rattle.grounded_body.specs.Parts.{seen};

use definition::Refusal;
use rule_cells::field;

pub mod build;
pub mod fit;
mod lay;
mod range;

// How many atoms, arguments and terms are lent.
#[repr(C)]
#[derive(Clone, Copy)]
pub struct BodyCounts {
    pub atoms: usize,
    pub arguments: usize,
    pub terms: usize,
}

// A body as it is lent: counts, the rule's place, and lists that have at least as much.
#[derive(Clone, Copy)]
pub struct Body<'a> {
    pub counts: BodyCounts,
    pub place: usize,
    pub atoms: &'a [usize],
    pub arguments: &'a [usize],
    pub terms: &'a [usize],
}

// an atom is 8 cells, of which three are read: its kind, the start and the count of its arguments; a term is 2: kind, value
const ATOM_CELLS: usize = 8;

const TERM_CELLS: usize = 2;

const KIND_CELL: usize = 0;

const START_CELL: usize = 2;

const COUNT_CELL: usize = 3;

const MAX_RECORDS: usize = 512;

const MAX_SIDE: usize = 2048;

const MAX_TERMS: usize = 256;

// The kinds of an atom, each with its number.
#[derive(Clone, Copy, Debug, PartialEq, Eq)]
enum AtomKind {
    Function = 0,
    Primitive = 1,
    Equality = 2,
}

impl TryFrom<usize> for AtomKind {
    type Error = Refusal;

    ghost try_from_gives = { λ number kind. kind ≡ atom_of_number number };

    fn try_from(number: usize) -> Result<AtomKind, Refusal> {
        match number {
            0 => Ok(AtomKind::Function),
            1 => Ok(AtomKind::Primitive),
            2 => Ok(AtomKind::Equality),
            _ => Err(Refusal::OutOfRange),
        }
    }
}

// The kinds of a term, each with its number.
// Stays: rule_signatures, which this crate doesn't stand on, has such an enum, but reads a number past the three as a literal.
#[derive(Clone, Copy, Debug, PartialEq, Eq)]
enum TermKind {
    Variable = 0,
    Global = 1,
    Literal = 2,
}

impl TryFrom<usize> for TermKind {
    type Error = Refusal;

    ghost try_from_gives = { λ number kind. kind ≡ term_of_number number };

    fn try_from(number: usize) -> Result<TermKind, Refusal> {
        match number {
            0 => Ok(TermKind::Variable),
            1 => Ok(TermKind::Global),
            2 => Ok(TermKind::Literal),
            _ => Err(Refusal::OutOfRange),
        }
    }
}

// An atom as it is read: its kind and its arguments.
#[derive(Clone, Copy)]
struct Atom<'a> {
    kind: AtomKind,
    arguments: &'a [usize],
}

impl<'a> Body<'a> {
    fn atom_kind(self, atom: usize) -> Result<AtomKind, Refusal>
        ensures { result ≡ atom_of_number (kind_at (seen self.entry) atom) }
    {
        AtomKind::try_from(field(self.atoms, atom, ATOM_CELLS, KIND_CELL))
    }

    fn arguments_of(self, atom: usize) -> &'a [usize]
        ensures { result.now ≡ arguments_at (seen self.entry) atom }
    {
        let start = field(self.atoms, atom, ATOM_CELLS, START_CELL);
        let count = field(self.atoms, atom, ATOM_CELLS, COUNT_CELL);
        rule_cells::part(self.arguments, start, count)
    }

    // An atom past the refusals. No kind's number above 2 is left there; the definitions take one for an equality's.
    fn atom(self, atom: usize) -> Atom<'a>
        ensures kind { result.kind ≡ atom_kind (kind_at (seen self.entry) atom) }
        ensures arguments { result.arguments.now ≡ arguments_at (seen self.entry) atom }
    {
        Atom {
            kind: self.atom_kind(atom).unwrap_or(AtomKind::Equality),
            arguments: self.arguments_of(atom),
        }
    }

    fn term_kind(self, term: usize) -> Result<TermKind, Refusal>
        ensures { result ≡ term_of_number (term_kind self.entry.terms.now term) }
    {
        TermKind::try_from(field(self.terms, term, TERM_CELLS, KIND_CELL))
    }

    fn is_variable(self, term: usize) -> bool
        ensures { result ≡ is_variable self.entry.terms.now term }
    {
        matches!(self.term_kind(term), Ok(TermKind::Variable))
    }
}

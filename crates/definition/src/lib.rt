// What is lent to `solve` and what it answers. The definitions of solving stand in specs/.
#![tactic(auto)]

ghost use Rattle.std.specs.Prelude.{◌≡◌};
ghost use Rattle.definition.specs.Numbers.{number_of, kind_number, kind_of_number, refused_by};

// How many of each thing are lent: records, side-list cells, top-level entries, range entries, terms, sorts.
#[repr(C)]
#[derive(Clone, Copy)]
pub struct Counts {
    pub records: usize,
    pub side: usize,
    pub tops: usize,
    pub range: usize,
    pub terms: usize,
    pub sorts: usize,
}

// The answer: its number (0 answered, 1 to 6 refused, 30 to 33 failed), the passes begun, and for 31 the term
// and the place of the first range entry without a sort. What has no meaning is 0.
#[repr(C)]
#[derive(Clone, Copy)]
pub struct Outcome {
    pub number: usize,
    pub passes: usize,
    pub term: usize,
    pub place: usize,
}

// Why something is refused, each with its number of document 01.
#[derive(Clone, Copy, Debug, PartialEq, Eq)]
pub enum Refusal {
    TooMany = 1,
    OutOfRange = 2,
    NotTrees = 3,
    TooDeep = 4,
    SmallWork = 5,
    ShortList = 6,
    Miscounted = 7,
    Empty = 8,
    Unbound = 9,
    NoRoom = 10,
    UnboundFunction = 20,
    SetConstructorDisallowed = 21,
    Malformed = 50,
    Unknown = 51,
    TooLong = 52,
}

impl Refusal {
    pub fn number(self) -> usize
        ensures { result ≡ number_of self }
    {
        self as usize
    }
}

// The kinds of a record, each with its number in the flat list.
#[derive(Clone, Copy, Debug, PartialEq, Eq)]
pub enum Kind {
    Eq = 0,
    Assign = 1,
    And = 2,
    Xor = 3,
    Impossible = 4,
    Implies = 5,
}

impl Kind {
    pub fn number(self) -> usize
        ensures { result ≡ kind_number self }
    {
        self as usize
    }
}

impl TryFrom<usize> for Kind {
    type Error = Refusal;

    ghost try_from_gives = { λ number kind. kind ≡ kind_of_number number };

    fn try_from(number: usize) -> Result<Kind, Refusal> {
        match number {
            0 => Ok(Kind::Eq),
            1 => Ok(Kind::Assign),
            2 => Ok(Kind::And),
            3 => Ok(Kind::Xor),
            4 => Ok(Kind::Impossible),
            5 => Ok(Kind::Implies),
            _ => Err(Refusal::OutOfRange),
        }
    }
}

// A problem as it is lent: counts, and lists that have at least as much.
#[derive(Clone, Copy)]
pub struct Problem<'a> {
    pub counts: Counts,
    pub records: &'a [usize],
    pub side: &'a [usize],
    pub tops: &'a [usize],
    pub range: &'a [usize],
}

impl Outcome {
    // A refusal: what has no meaning is 0.
    pub fn refused_by(refusal: Refusal) -> Outcome
        ensures { result ≡ refused_by (number_of refusal) }
    {
        Outcome {
            number: refusal.number(),
            passes: 0,
            term: 0,
            place: 0,
        }
    }
}

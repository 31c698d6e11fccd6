// Reading a record's cells, and the test of the records: the part of `solve` that refuses by 1 to 4.
#![tactic(auto)]

ghost use Rattle.std.specs.Prelude.{◌+◌, ◌*◌, ◌≤◌, ◌≡◌, ◌||◌, eqb, length};
ghost use Rattle.definition.specs.Sizes.{record_cells};
ghost use Rattle.definition.specs.Numbers.{refused, kind_of_number};
ghost use Rattle.definition.specs.Refusal.{records_refusal};
ghost use Rattle.solve_records.specs.Read.{HasCells};
ghost use Rattle.solve_records.specs.Lent.{seen, cells_refusal};

use definition::{Kind, Problem, Refusal};

pub mod cells;
mod deep;
pub mod room;
mod trees;

// A record is 8 cells: its kind, five values of which three are read, its place, and its rule, which is not read.
const RECORD_CELLS: usize = 8;

const FIRST_CELL: usize = 1;

const SECOND_CELL: usize = 2;

const THIRD_CELL: usize = 3;

const PLACE_CELL: usize = 6;

// What is read of a record.
#[derive(Clone, Copy)]
pub struct Rec {
    pub kind: usize,
    pub first: usize,
    pub second: usize,
    pub third: usize,
    pub place: usize,
}

impl Rec {
    // Its kind, if its number is one.
    pub fn kind(self) -> Result<Kind, Refusal>
        ensures { result ≡ kind_of_number self.kind }
    {
        Kind::try_from(self.kind)
    }

    // Stays a number, here and below: tried with `kind()`, which takes 20 more instructions for each record of a problem.
    fn is_implies(self) -> bool
        ensures { result ≡ eqb self.kind 5 }
    {
        self.kind == Kind::Implies.number()
    }

    // Whether its children are a part of the side list.
    fn lists_children(self) -> bool
        ensures { result ≡ (eqb self.kind 2 || eqb self.kind 3) }
    {
        self.kind == Kind::And.number() || self.kind == Kind::Xor.number()
    }
}

// The one function that knows where a record's cells are.
pub fn read_record(records: &[usize], number: usize) -> Rec
    requires { number * record_cells + record_cells ≤ length records.now }
    ensures { HasCells records.now number result }
{
    let at = number * RECORD_CELLS;
    Rec {
        kind: records[at],
        first: records[at + FIRST_CELL],
        second: records[at + SECOND_CELL],
        third: records[at + THIRD_CELL],
        place: records[at + PLACE_CELL],
    }
}

// Refusal 1 or 2, where one is given.
pub fn cells_refusal(problem: Problem) -> Result<(), Refusal>
    ensures { refused result ≡ cells_refusal (seen problem.entry) }
{
    if !cells::counts_fit(problem) {
        return Err(Refusal::TooMany);
    }
    if !(cells::records_fit(problem.counts, problem.records, problem.side)
        && cells::range_fits(problem.counts, problem.range))
    {
        return Err(Refusal::OutOfRange);
    }
    Ok(())
}

// The first of the refusals 1 to 4 that is given. Any numbers may be lent.
pub fn records_refusal(problem: Problem) -> Result<(), Refusal>
    ensures { refused result ≡ records_refusal (seen problem.entry) }
{
    cells_refusal(problem)?;
    if !trees::trees_fit(problem) {
        return Err(Refusal::NotTrees);
    }
    if !deep::depth_fits(problem) {
        return Err(Refusal::TooDeep);
    }
    Ok(())
}

// Constraint records as structs: a lent list of them, each with a kind.
#![tactic(auto)]

ghost use Rattle.std.specs.Prelude.{◌*◌, ◌≤◌, ◌≡◌, length, get_or, take};
ghost use Rattle.definition.specs.Numbers.{refused};
ghost use Rattle.definition.specs.Sizes.{record_cells};
ghost use Rattle.rule_cells.specs.Put.{most_number, puts};
ghost use Rattle.form_records.specs.Cells.{cells_of, none, kind_at, place_at, laid, counted};
ghost use Rattle.form_records.specs.Left.{Left, Checked};

use definition::{Counts, Problem, Refusal};
use rule_cells::{RECORD_CELLS, cell, part, put_all};
use solve_records::cells::within;
use solve_records::records_refusal;

// A record: its kind, five values, its place and its rule, as in the flat list.
#[derive(Clone, Copy, Debug, PartialEq, Eq)]
pub struct Record {
    pub kind: usize,
    pub first: usize,
    pub second: usize,
    pub third: usize,
    pub fourth: usize,
    pub fifth: usize,
    pub place: usize,
    pub rule: usize,
}

// The largest count of records, and its cells.
const MAX_RECORDS: usize = 512;

const MAX_CELLS: usize = MAX_RECORDS * RECORD_CELLS;

// Where the kind and the place stand among a record's cells.
const KIND_CELL: usize = 0;

const PLACE_CELL: usize = 6;

// A record's cells, in the order of the flat list.
impl From<Record> for [usize; RECORD_CELLS] {
    ghost from_gives = { λ rec cells. cells ≡ cells_of rec };

    fn from(rec: Record) -> [usize; RECORD_CELLS] {
        [
            rec.kind, rec.first, rec.second, rec.third, rec.fourth, rec.fifth, rec.place, rec.rule,
        ]
    }
}

// One cell of a record, 0 past the list's end.
fn cell_of(records: &[Record], number: usize, at: usize) -> usize
    ensures { result ≡ get_or (cells_of (get_or records.now number none)) at 0 }
{
    match records.get(number) {
        Some(rec) => cell(&<[usize; RECORD_CELLS]>::from(*rec), at),
        None => 0,
    }
}

// A record's cells, where the flat list has them.
fn put_record(list: &mut [usize], number: usize, rec: Record)
    requires { number ≤ most_number }
    ensures { list.new ≡ puts list.old (number * record_cells) (cells_of rec) }
{
    put_all(
        list,
        number * RECORD_CELLS,
        &<[usize; RECORD_CELLS]>::from(rec),
    );
}

// The records that are looked at: those that are counted, none where that is too many.
fn to_lay(records: &[Record], count: usize) -> &[Record]
    ensures { result.now ≡ take (counted count (length records.now)) records.now }
{
    if count <= MAX_RECORDS {
        records.get(..count).unwrap_or_default()
    } else {
        &[]
    }
}

// The cells of all records of a list.
fn lay_cells(records: &[Record], list: &mut [usize])
    requires { length records.now ≤ most_number }
    ensures { list.new ≡ laid records.now (length records.now) list.old }
{
    for (number, rec) in records.iter().enumerate() {
        put_record(list, number, *rec);
    }
}

// The test of the cells, and the flat list where it passes.
fn leave_cells(problem: Problem, lent: usize, flat: &mut [usize]) -> Result<(), Refusal>
    ensures { Left problem.entry.counts lent problem.entry.records.now problem.entry.side.now problem.entry.tops.now problem.entry.range.now flat.old (refused result) flat.new }
{
    let count = problem.counts.records;
    if !within(count, lent, flat.len() / RECORD_CELLS) {
        return Err(Refusal::TooMany);
    }
    let tested = records_refusal(problem);
    if tested.is_ok() {
        put_all(flat, 0, part(problem.records, 0, count * RECORD_CELLS));
    }
    tested
}

// The record check over a list of records: the first of the refusals 1 to 4 that is given. Where none is, and only then,
// the flat list that `solve` takes is left.
pub fn check_records(
    counts: Counts,
    records: &[Record],
    side: &[usize],
    tops: &[usize],
    range: &[usize],
    flat: &mut [usize],
) -> Result<(), Refusal>
    ensures { Checked counts records.now side.now tops.now range.now flat.old (refused result) flat.new }
{
    let mut cells = [0; MAX_CELLS];
    lay_cells(to_lay(records, counts.records), &mut cells);
    let problem = Problem {
        counts,
        records: &cells,
        side,
        tops,
        range,
    };
    leave_cells(problem, records.len(), flat)
}

// The kind of a record, 0 past the list's end.
pub fn kind_at(records: &[Record], number: usize) -> usize
    ensures { result ≡ kind_at records.now number }
{
    cell_of(records, number, KIND_CELL)
}

// The place of a record, 0 past the list's end.
pub fn place_at(records: &[Record], number: usize) -> usize
    ensures { result ≡ place_at records.now number }
{
    cell_of(records, number, PLACE_CELL)
}

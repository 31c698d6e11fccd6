// Refusals 1 and 2: the counts, and what single cells hold.
ghost use Rattle.std.specs.Prelude.{◌+◌, ◌*◌, ◌≤◌, ◌≡◌, ◌&&◌, [], leb, ltb, length};
ghost use Rattle.definition.specs.Sizes.{record_cells, range_cells};
ghost use Rattle.definition.specs.Lists.{all, from};
ghost use Rattle.definition.specs.Problem.{part};
ghost use Rattle.definition.specs.Refusal.{counts_fit, expected_fits, values_fit, record_fits, range_fits};
ghost use Rattle.solve_records.specs.Lent.{lent, seen};

use crate::{RECORD_CELLS, Rec, read_record};
use definition::{Counts, Kind, Problem};

// The largest counts.
const MAX_RECORDS: usize = 512;

const MAX_SIDE: usize = 2048;

const MAX_TOPS: usize = 512;

const MAX_RANGE: usize = 256;

const MAX_TERMS: usize = 256;

const MAX_SORTS: usize = 256;

// An Impossible's expected count is from 1 to this.
const MAX_EXPECTED: usize = 9999;

// A range entry is 2 cells: term, place.
const RANGE_CELLS: usize = 2;

// A count exceeds neither its largest size nor what its list has room for.
pub fn within(count: usize, most: usize, room: usize) -> bool
    ensures { result ≡ (leb count most && leb count room) }
{
    count <= most && count <= room
}

// No count exceeds its largest size or its list. Lists are divided, since a count times 8 may not fit.
pub fn counts_fit(problem: Problem) -> bool
    ensures { result ≡ counts_fit (seen problem.entry) }
{
    let counts = problem.counts;
    within(
        counts.records,
        MAX_RECORDS,
        problem.records.len() / RECORD_CELLS,
    ) && within(counts.side, MAX_SIDE, problem.side.len())
        && within(counts.tops, MAX_TOPS, problem.tops.len())
        && within(counts.range, MAX_RANGE, problem.range.len() / RANGE_CELLS)
        && counts.terms <= MAX_TERMS
        && counts.sorts <= MAX_SORTS
}

// Two numbers are below their bounds.
pub fn both_below(a: usize, b: usize, bound: usize, limit: usize) -> bool
    ensures { result ≡ (ltb a bound && ltb b limit) }
{
    a < bound && b < limit
}

// A part of the side list ends within its first cells. The sum is not formed: it may not fit.
pub fn part_fits(start: usize, count: usize, cells: usize) -> bool
    ensures { result ≡ leb (start + count) cells }
{
    start <= cells && count <= cells - start
}

fn expected_fits(expected: usize) -> bool
    ensures { result ≡ expected_fits expected }
{
    1 <= expected && expected <= MAX_EXPECTED
}

// Every number of the list is below the bound.
pub fn all_below(numbers: &[usize], bound: usize) -> bool
    ensures { result ≡ all (λ x. ltb x bound) numbers.now }
{
    numbers.iter().all(|x| *x < bound)
}

// A part of the side list lies in its first cells, and every number there is a term.
fn watched_fit(side: &[usize], start: usize, count: usize, cells: usize, terms: usize) -> bool
    requires { cells ≤ length side.now }
    ensures { result ≡ (leb (start + count) cells && all (λ t. ltb t terms) (part side.now start count)) }
{
    part_fits(start, count, cells) && all_below(&side[start..start + count], terms)
}

// The kind of a record is below 6 and its values are in range.
fn values_fit(counts: Counts, side: &[usize], rec: Rec) -> bool
    requires { counts.side ≤ length side.now }
    ensures { result ≡ values_fit (lent counts [] side.now [] []) rec.kind rec.first rec.second }
{
    match rec.kind() {
        Ok(Kind::Eq) => both_below(rec.first, rec.second, counts.terms, counts.terms),
        Ok(Kind::Assign) => both_below(rec.first, rec.second, counts.terms, counts.sorts),
        Ok(Kind::And) => part_fits(rec.first, rec.second, counts.side),
        Ok(Kind::Xor) => part_fits(rec.first, rec.second, counts.side),
        Ok(Kind::Impossible) => expected_fits(rec.second),
        Ok(Kind::Implies) => watched_fit(side, rec.first, rec.second, counts.side, counts.terms),
        Err(_) => false,
    }
}

fn record_fits(counts: Counts, records: &[usize], side: &[usize], number: usize) -> bool
    requires cells_lent { number * record_cells + record_cells ≤ length records.now }
    requires side_lent { counts.side ≤ length side.now }
    ensures { result ≡ record_fits (lent counts records.now side.now [] []) number }
{
    values_fit(counts, side, read_record(records, number))
}

// Every record's kind and values are in range.
pub fn records_fit(counts: Counts, records: &[usize], side: &[usize]) -> bool
    requires { (counts.records * record_cells ≤ length records.now) × (counts.side ≤ length side.now) }
    ensures { result ≡ all (record_fits (lent counts records.now side.now [] [])) (from 0 counts.records) }
{
    (0..counts.records).all(|number| record_fits(counts, records, side, number))
}

// Every range entry's term is in range.
pub fn range_fits(counts: Counts, range: &[usize]) -> bool
    requires { counts.range * range_cells ≤ length range.now }
    ensures { result ≡ all (range_fits (lent counts [] [] [] range.now)) (from 0 counts.range) }
{
    (0..counts.range).all(|entry| range[entry * RANGE_CELLS] < counts.terms)
}

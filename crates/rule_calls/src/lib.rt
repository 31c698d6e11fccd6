// The generators: a query's atoms, a list of actions, a typed local.
#![tactic(auto)]

ghost use Rattle.std.specs.Prelude.{◌-◌, ◌*◌, ◌≤◌, ◌≡◌, ◌∷◌, [], length, replicate};
ghost use Rattle.solve_records.specs.Lent.{lent as problem_of, seen};
ghost use Rattle.rule_cells.specs.Put.{puts};
ghost use Rattle.rule_signatures.specs.Tables.{term_cells};
ghost use Rattle.rule_ranges.specs.Enter.{new};
ghost use Rattle.rule_lent.specs.Lend.{lends};
ghost use Rattle.rule_calls.specs.Exit.{lengths_of, local_verdict, call_verdict};
ghost use Rattle.rule_calls.specs.Left.{LocalLeft, CallLeft, ActionsLeft, headless, told};

use definition::{Counts, Kind, Problem, Refusal};
use rule_cells::{Origin, cell, put, put_all, put_record};
use rule_lent::calls::Listed;
use rule_lent::{Tables, local_refusal};
use rule_ranges::{MARKS, enter, mark_range};
use rule_signatures::TERM_CELLS;
use rule_steps::{Lengths, room_for};

mod call;
mod run;

use call::add;

// The cells of as many terms as there may be.
const MOST_TERM_CELLS: usize = 512;

// The answer: its number, for 20 and 21 the head and the place, and the counts after the call.
#[repr(C)]
#[derive(Clone, Copy)]
pub struct Added {
    pub number: usize,
    pub head: usize,
    pub place: usize,
    pub counts: Counts,
}

impl Added {
    // The answer of a call that reached these counts, or was refused: the counts are then those before it.
    fn told(done: Result<Counts, Refused>, before: Counts) -> Added
        ensures { result ≡ told before done }
    {
        match done {
            Ok(counts) => Added {
                number: 0,
                head: 0,
                place: 0,
                counts,
            },
            Err(refused) => Added {
                number: refused.refusal.number(),
                head: refused.head,
                place: refused.place,
                counts: before,
            },
        }
    }
}

// A call's refusal, for 20 and 21 with the head and the place.
#[derive(Clone, Copy, Debug, PartialEq, Eq)]
struct Refused {
    refusal: Refusal,
    head: usize,
    place: usize,
}

impl From<Refusal> for Refused {
    ghost from_gives = { λ refusal refused. refused ≡ headless refusal };

    fn from(refusal: Refusal) -> Refused {
        Refused {
            refusal,
            head: 0,
            place: 0,
        }
    }
}

// How long the lists are that a call adds to.
fn lengths_of(problem: Problem, terms: &[usize]) -> Lengths
    ensures { result ≡ lengths_of (seen problem.entry) terms.now }
{
    Lengths {
        records: problem.records.len(),
        side: problem.side.len(),
        tops: problem.tops.len(),
        range: problem.range.len(),
        terms: terms.len(),
    }
}

// 1 if the term is not in the range yet.
fn entering(marks: &[usize], term: usize) -> usize
    ensures { result ≡ length (new marks.now (term ∷ [])) }
{
    usize::from(cell(marks, term) == 0)
}

// A typed local: an Assign, and its variable enters the range.
// Still apart: the lists that are written. A struct of them is to be tried (docs/DESIGN-PASS.md).
pub fn assign_local_var_type(
    counts: Counts,
    term: usize,
    sort: usize,
    place: usize,
    terms: &[usize],
    side: &[usize],
    records: &mut [usize],
    tops: &mut [usize],
    range: &mut [usize],
) -> Added
    ensures { LocalLeft (problem_of counts records.old side.now tops.old range.old) (local_verdict (problem_of counts records.old side.now tops.old range.old) terms.now term sort place) records.new tops.new range.new result }
{
    let problem = Problem {
        counts,
        records,
        side,
        tops,
        range,
    };
    if let Err(refusal) = local_refusal(terms, term, sort, problem) {
        return Added::told(Err(Refused::from(refusal)), counts);
    }
    let mut marks = [0usize; MARKS];
    mark_range(range, counts.range, &mut marks);
    let lengths = lengths_of(problem, terms);
    let after = Counts {
        records: counts.records + 1,
        tops: counts.tops + 1,
        range: counts.range + entering(&marks, term),
        ..counts
    };
    if !room_for(lengths, after) {
        return Added::told(Err(Refused::from(Refusal::NoRoom)), counts);
    }
    put_record(
        records,
        counts.records,
        Kind::Assign.number(),
        term,
        sort,
        Origin { place },
    );
    put(tops, counts.tops, counts.records);
    enter(&[term], place, counts.range, range, &mut marks);
    Added::told(Ok(after), counts)
}

// The fresh terms are variables: zeroes in their cells.
fn clear_terms(terms: &mut [usize], first: usize, end: usize)
    requires { (first ≤ end) × (end ≤ 256) }
    ensures { terms.new ≡ puts terms.old (first * term_cells) (replicate ((end - first) * term_cells) 0) }
{
    let zeroes = [0usize; MOST_TERM_CELLS];
    let cells = (end - first) * TERM_CELLS;
    put_all(terms, first * TERM_CELLS, &zeroes[..cells]);
}

// A query's atoms. All their argument terms enter the range.
// Still apart: the lists that are written. A struct of them is to be tried (docs/DESIGN-PASS.md).
pub fn add_query(
    tables: Tables,
    counts: Counts,
    terms: &[usize],
    records: &mut [usize],
    side: &mut [usize],
    tops: &mut [usize],
    range: &mut [usize],
) -> Added
    ensures { CallLeft (problem_of counts records.old side.old tops.old range.old) (call_verdict (lends Listed.Atoms tables.entry terms.now (problem_of counts records.old side.old tops.old range.old))) records.new side.new tops.new range.new result }
{
    let done = add(
        Listed::Atoms,
        tables,
        counts,
        terms,
        records,
        side,
        tops,
        range,
    );
    Added::told(done, counts)
}

// A list of actions. Let and LetAtomTerm put their variable into the range, Change makes a fresh term.
// Still apart: the lists that are written. A struct of them is to be tried (docs/DESIGN-PASS.md).
pub fn add_actions(
    tables: Tables,
    counts: Counts,
    terms: &mut [usize],
    records: &mut [usize],
    side: &mut [usize],
    tops: &mut [usize],
    range: &mut [usize],
) -> Added
    ensures { ActionsLeft (problem_of counts records.old side.old tops.old range.old) (call_verdict (lends Listed.Actions tables.entry terms.old (problem_of counts records.old side.old tops.old range.old))) terms.old terms.new records.new side.new tops.new range.new result }
{
    let done = add(
        Listed::Actions,
        tables,
        counts,
        terms,
        records,
        side,
        tops,
        range,
    );
    if let Ok(after) = done {
        clear_terms(terms, counts.terms, after.terms);
    }
    Added::told(done, counts)
}

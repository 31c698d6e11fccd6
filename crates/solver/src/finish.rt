// What solve leaves once the passes have ended: the sort list, the error list, and a work room of zeroes.
ghost use Rattle.std.specs.Prelude.{◌*◌, ◌≤◌, ◌<◌, length};
ghost use Rattle.definition.specs.Sizes.{entry_cells, range_cells};
ghost use Rattle.solver.specs.Finish.{OpenIs, RangeBelow, CanFinish, FailureLeft, Finished};

use definition::{Counts, Outcome};
use rule_cells::{clear, put_all};
use solve_leaves::frame::ENTRY_CELLS;

// a range entry is 2 cells: term, place
const RANGE_CELLS: usize = 2;
// UnconstrainedVar. Stays: a number, since Outcome crosses to C as one.
const UNCONSTRAINED_VAR: usize = 31;

// How the passes failed: the passes begun, and how many entries stand at the front of the error list.
#[derive(Clone, Copy, Debug, PartialEq, Eq)]
pub struct Failed {
    pub passes: usize,
    pub entries: usize,
}

// The first range entry whose term has no sort: its term and its place.
fn first_open(entries: usize, range: &[usize], sorts: &[usize]) -> Option<(usize, usize)>
    requires range_cells_in_bounds { entries * range_cells ≤ length range.now }
    requires range_below { RangeBelow entries range.now (length sorts.now) }
    ensures { OpenIs entries range.now sorts.now result }
{
    for i in 0..entries {
        let term = range[i * RANGE_CELLS];
        if sorts[term] == 0 {
            return Some((term, range[i * RANGE_CELLS + 1]));
        }
    }
    None
}

// An answer fills the sort list; a range entry without a sort is 31 and leaves it. Either way the error list is zeroes.
fn finish_settled(
    passes: usize,
    counts: Counts,
    range: &[usize],
    work: &mut [usize],
    sort_list: &mut [usize],
    errors: &mut [usize],
) -> Outcome
    requires { CanFinish (Ok passes) counts range.now work.old sort_list.old errors.old }
    ensures { Finished (Ok passes) counts range.now work.old sort_list.old errors.old result work.new sort_list.new errors.new }
{
    clear(errors);
    match first_open(counts.range, range, &work[..counts.terms]) {
        None => {
            put_all(sort_list, 0, &work[..counts.terms]);
            clear(work);
            Outcome {
                number: 0,
                passes,
                term: 0,
                place: 0,
            }
        }
        Some((term, place)) => {
            clear(work);
            Outcome {
                number: UNCONSTRAINED_VAR,
                passes,
                term,
                place,
            }
        }
    }
}

// The error's number is its first entry's; behind its entries come zeroes. The sort list stays as it was.
fn finish_failed(failed: Failed, work: &mut [usize], errors: &mut [usize]) -> Outcome
    requires { (0 < failed.entries) × (failed.entries * entry_cells ≤ length errors.old) }
    ensures { FailureLeft failed.passes failed.entries work.old errors.old result work.new errors.new }
{
    let number = errors[0];
    clear(&mut errors[failed.entries * ENTRY_CELLS..]);
    clear(work);
    Outcome {
        number,
        passes: failed.passes,
        term: 0,
        place: 0,
    }
}

// Fills the lists and zeroes the room.
pub fn finish(
    ended: Result<usize, Failed>,
    counts: Counts,
    range: &[usize],
    work: &mut [usize],
    sort_list: &mut [usize],
    errors: &mut [usize],
) -> Outcome
    requires { CanFinish ended counts range.now work.old sort_list.old errors.old }
    ensures { Finished ended counts range.now work.old sort_list.old errors.old result work.new sort_list.new errors.new }
{
    match ended {
        Ok(passes) => finish_settled(passes, counts, range, work, sort_list, errors),
        Err(failed) => finish_failed(failed, work, errors),
    }
}

// How a text ends.
ghost use Rattle.std.specs.Prelude.{◌≡◌};
ghost use Rattle.text_lines.specs.Ending.{counts_of as counts_are, refused_by as refused_as, Finished};

use crate::run::{Refused, none};
use crate::{Lists, Printed};
use definition::{Counts, Outcome, Problem};
use solver::solve;
use text_definition::{Ended, Numbers};

// The text is refused.
pub fn refused_by(refused: Refused) -> Ended
    ensures { result ≡ refused_as refused }
{
    Ended {
        refused: refused.number,
        place: refused.place,
        outcome: Outcome {
            number: 0,
            passes: 0,
            term: 0,
            place: 0,
        },
        numbers: none(),
    }
}

// The problem's counts, with those of the terms and sorts that have names.
fn counts_of(n: Numbers) -> Counts
    ensures { result ≡ counts_are n }
{
    Counts {
        terms: n.terms,
        sorts: n.sorts,
        ..n.problem
    }
}

// Solves, if no line was refused.
pub fn finish(lines: Result<Numbers, Refused>, printed: &mut Printed, lists: &mut Lists) -> Ended
    ensures { Finished lines printed.old lists.old result printed.new lists.new }
{
    lists.work.fill(0);
    printed.sort_list.fill(0);
    printed.errors.fill(0);
    match lines {
        Ok(numbers) => {
            let problem = Problem {
                counts: counts_of(numbers),
                records: &lists.records,
                side: &lists.side,
                tops: &lists.tops,
                range: &lists.range,
            };
            let outcome = solve(
                problem,
                &mut lists.work,
                &mut printed.sort_list,
                &mut printed.errors,
            );
            Ended {
                refused: 0,
                place: 0,
                outcome,
                numbers,
            }
        }
        Err(refused) => refused_by(refused),
    }
}

// Solving: the record check, the passes over the top-level constraints, and what they leave.
#![tactic(auto)]

mod finish;
mod run;

ghost use Rattle.solve_records.specs.Lent.{seen};
ghost use Rattle.solver.specs.Entry.{Solved};

use definition::{Outcome, Problem};
use solve_leaves::frame::ENTRY_CELLS;
use solve_records::records_refusal;
use solve_records::room::room_refusal;

// Refuses by 1 to 6 and then changes nothing; else passes until nothing changes, and fills the lists.
pub fn solve(
    problem: Problem,
    work: &mut [usize],
    sort_list: &mut [usize],
    errors: &mut [usize],
) -> Outcome
    ensures { Solved (seen problem.entry) work.old sort_list.old errors.old result work.new sort_list.new errors.new }
{
    if let Err(refusal) = records_refusal(problem) {
        return Outcome::refused_by(refusal);
    }
    if let Err(refusal) = room_refusal(
        problem.counts.terms,
        problem.counts.records,
        work.len(),
        sort_list.len(),
        errors.len(),
    ) {
        return Outcome::refused_by(refusal);
    }
    let entries = &mut errors[..problem.counts.records * ENTRY_CELLS];
    let ended = run::run(
        problem.counts,
        problem.records,
        problem.side,
        problem.tops,
        work,
        entries,
    );
    finish::finish(
        ended,
        problem.counts,
        problem.range,
        work,
        sort_list,
        entries,
    )
}

// The groundedness check of a rule's body.
#![tactic(auto)]

ghost use Rattle.std.specs.Prelude.{◌≡◌};
ghost use Rattle.grounded_body.specs.Check.{named};
ghost use Rattle.grounded_body.specs.Layout.{grounded_problem};
ghost use Rattle.grounded_body.specs.Parts.{seen, Accepted};
ghost use Rattle.solver.specs.Entry.{Solved};
ghost use Rattle.grounded.specs.Entry.{Checked};

use definition::{Outcome, Problem};
use grounded_body::{Body, build, fit};
use rule_cells::{RECORD_CELLS, part};
use rule_ranges::RANGE_CELLS;

// the cells of a problem's lists at their largest sizes
const MOST_RECORD_CELLS: usize = 4096;

const MOST_SIDE_CELLS: usize = 2048;

const MOST_TOP_CELLS: usize = 512;

const MOST_RANGE_CELLS: usize = 512;

// the cells of 512 entries
const MOST_ENTRY_CELLS: usize = 4096;

// Stays: the numbers of an Outcome that is no refusal, since Outcome crosses to C as a number.
const UNCONSTRAINED_VAR: usize = 31;

const UNGROUNDED: usize = 40;

// UnconstrainedVar becomes Ungrounded, of the same variable and place.
#[tactic(auto, unfolding(grounded_body::specs::Check::named))]
fn named(outcome: Outcome) -> Outcome
    ensures { result ≡ named outcome }
{
    if outcome.number == UNCONSTRAINED_VAR {
        Outcome {
            number: UNGROUNDED,
            ..outcome
        }
    } else {
        outcome
    }
}

// The problem of a body that is not refused, built and solved.
fn solve_body(
    body: Body,
    work: &mut [usize],
    sort_list: &mut [usize],
    errors: &mut [usize],
) -> Outcome
    requires { Accepted (seen body) }
    ensures { Solved (grounded_problem (seen body.entry)) work.old sort_list.old errors.old result work.new sort_list.new errors.new }
{
    let mut records = [0; MOST_RECORD_CELLS];
    let mut side = [0; MOST_SIDE_CELLS];
    let mut tops = [0; MOST_TOP_CELLS];
    let mut range = [0; MOST_RANGE_CELLS];
    let counts = build::build(body, &mut records, &mut side, &mut tops, &mut range);
    let problem = Problem {
        counts,
        records: part(&records, 0, counts.records * RECORD_CELLS),
        side: part(&side, 0, counts.side),
        tops: part(&tops, 0, counts.tops),
        range: part(&range, 0, counts.range * RANGE_CELLS),
    };
    solver::solve(problem, work, sort_list, errors)
}

// Whether every variable of a rule's body is grounded. It refuses by 1, 2, 5, 6, 7 and 10 and then changes nothing.
pub fn grounded_check(
    body: Body,
    work: &mut [usize],
    sort_list: &mut [usize],
    errors: &mut [usize],
) -> Outcome
    ensures { Checked (seen body.entry) work.old sort_list.old errors.old result work.new sort_list.new errors.new }
{
    if let Err(refusal) = fit::refusal(body, work.len(), sort_list.len(), errors.len()) {
        return Outcome::refused_by(refusal);
    }
    let outcome = solve_body(body, work, sort_list, errors);
    errors[..MOST_ENTRY_CELLS].fill(0);
    named(outcome)
}

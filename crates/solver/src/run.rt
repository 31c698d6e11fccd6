// Passes over the top-level constraints until one changes nothing, or an error.
ghost use Rattle.std.specs.Prelude.{◌≤◌, length, take};
ghost use Rattle.definition.specs.Sizes.{max_depth};
ghost use Rattle.definition.specs.Update.{upd, each};
ghost use Rattle.solve_leaves.specs.Room.{frame_of, bare};
ghost use Rattle.solve_leaves.specs.Says.{Says, Ready};
ghost use Rattle.solver.specs.Run.{CanRun, Ran};

use super::finish::Failed;
use definition::Counts;
use rule_cells::clear;
use solve_leaves::answer::Answer;
use solve_updates::update_and;

// a top-level record has depth 1
const MAX_DEPTH: usize = 8;

// One pass: every top-level constraint in order, each once, as an And goes over its children.
fn pass(
    counts: Counts,
    records: &[usize],
    side: &[usize],
    tops: &[usize],
    work: &mut [usize],
    errors: &mut [usize],
) -> Answer
    requires { (counts.tops ≤ length tops.now) × Ready (bare counts records.now side.now) max_depth (take counts.tops tops.now) work.old errors.old }
    ensures { Says result (each (upd (bare counts records.now side.now) max_depth) (take counts.tops tops.now) (frame_of counts work.old)) counts work.new errors.new }
{
    update_and(
        counts,
        records,
        side,
        &tops[..counts.tops],
        MAX_DEPTH,
        work,
        errors,
    )
}

// From a frame with nothing sorted, narrowed or fired. The last frame is left at the front of the room.
pub fn run(
    counts: Counts,
    records: &[usize],
    side: &[usize],
    tops: &[usize],
    work: &mut [usize],
    errors: &mut [usize],
) -> Result<usize, Failed>
    requires { CanRun counts records.now side.now tops.now work.old errors.old }
    ensures { Ran counts records.now side.now tops.now result work.new errors.new }
{
    let cells = counts.terms + counts.records;
    clear(&mut work[..cells]);
    let mut passes = 1;
    loop {
        match pass(counts, records, side, tops, work, errors) {
            Ok(true) => passes += 1,
            Ok(false) => break Ok(passes),
            Err(error) => {
                break Err(Failed {
                    passes,
                    entries: error.entries,
                });
            }
        }
    }
}

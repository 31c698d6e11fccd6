// An Xor's trials: what is known after each, where the next child is tried, and what they end in.
ghost use Rattle.std.specs.Prelude.{◌+◌, ◌<◌, ◌≤◌, ◌≡◌, length};
ghost use Rattle.definition.specs.Sizes.{entry_cells};
ghost use Rattle.solve_leaves.specs.Room.{most_in_cell};
ghost use Rattle.solve_leaves.specs.Trial.{seen_by, successes_of, trial_frame, entries_of, entries_in, OneMore, Settled};

use super::answer::{Answer, ConstraintError, Tried};
use super::frame::{Entry, put_entry};

// Stays: the number of an entry, since the error list crosses to C as numbers.
const NO_CONSTRAINT_SATISFIED: usize = 32;

// What is known once a child has answered too.
pub fn seen(tried: Tried, child: usize, answer: Answer) -> Tried
    requires { entries_of tried + entries_in answer ≤ most_in_cell }
    ensures { result ≡ seen_by tried child answer }
{
    match (tried, answer) {
        (Tried::Nothing(_), Ok(changed)) => Tried::Single(child, changed),
        (Tried::Nothing(entries), Err(error)) => Tried::Nothing(entries + error.entries),
        (Tried::Single(_, _), Ok(_)) => Tried::Several,
        (Tried::Single(kept, changed), Err(_)) => Tried::Single(kept, changed),
        (Tried::Several, _) => Tried::Several,
    }
}

// How many children have succeeded; two stands for more.
pub fn successes_of(tried: Tried) -> usize
    ensures { result ≡ successes_of tried }
{
    match tried {
        Tried::Nothing(_) => 0,
        Tried::Single(_, _) => 1,
        Tried::Several => 2,
    }
}

// The frame for the next trial: that behind the frame at entry until a child succeeds, whose frame then stays there, and
// after that the one behind.
pub fn trial_frame(tried: Tried, cells: usize) -> usize
    requires { cells + cells ≤ most_in_cell }
    ensures { result ≡ trial_frame tried cells }
{
    match tried {
        Tried::Nothing(_) => cells,
        Tried::Single(_, _) | Tried::Several => cells + cells,
    }
}

// The entries that are still needed: none once a child has succeeded.
pub fn entries_of(tried: Tried) -> usize
    ensures { result ≡ entries_of tried }
{
    match tried {
        Tried::Nothing(entries) => entries,
        Tried::Single(_, _) | Tried::Several => 0,
    }
}

// The end of an Xor: one success stands and the other children drop out; more leave all as it was; none fails.
pub fn settle(
    tried: Tried,
    terms: usize,
    number: usize,
    place: usize,
    children: usize,
    work: &mut [usize],
    errors: &mut [usize],
) -> Answer
    requires { (OneMore tried work.old errors.old) × (entry_cells ≤ length errors.old) × (terms + number < length work.old) }
    ensures { Settled result tried terms number place children work.old errors.old work.new errors.new }
{
    match tried {
        Tried::Nothing(entries) => {
            put_entry(
                errors,
                Entry {
                    number: NO_CONSTRAINT_SATISFIED,
                    source: number,
                    place,
                    first: children,
                    second: 0,
                    third: 0,
                },
            );
            Err(ConstraintError {
                entries: entries + 1,
            })
        }
        Tried::Single(child, changed) => {
            work[terms + number] = child + 1;
            Ok(changed)
        }
        Tried::Several => Ok(false),
    }
}

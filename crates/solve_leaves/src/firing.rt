// An Implies, but for the update of its child.
ghost use Rattle.std.specs.Prelude.{ℕ, ◌<◌, ◌≡◌, length};
ghost use Rattle.definition.specs.Lists.{Among};
ghost use Rattle.solve_leaves.specs.Firing.{FiringSays, is_waiting, after_firing};

use super::answer::{Answer, Firing};
use super::frame::all_sorted;

// Once every watched term has a sort it fires for good: its cell is no longer 0.
pub fn fire(watched: &[usize], cell: usize, work: &mut [usize]) -> Firing
    requires { (cell < length work.old) × ((t : ℕ) → Among t watched.now → t < length work.old) }
    ensures { FiringSays result watched.now cell work.old work.new }
{
    if work[cell] != 0 {
        return Firing::Fired;
    }
    if !all_sorted(watched, work) {
        return Firing::Waits;
    }
    work[cell] = 1;
    Firing::Fires
}

pub fn waits(firing: Firing) -> bool
    ensures { result ≡ is_waiting firing }
{
    matches!(firing, Firing::Waits)
}

// The answer, from the child's: to fire is a change.
pub fn fired(firing: Firing, answer: Answer) -> Answer
    ensures { result ≡ after_firing firing answer }
{
    match firing {
        Firing::Fires => answer.map(|_| true),
        Firing::Waits | Firing::Fired => answer,
    }
}

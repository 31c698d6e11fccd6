// Refusal 4: how deep the records are.
ghost use Rattle.std.specs.Prelude.{ℕ, ◌≤◌, ◌<◌, max, ◌≡◌, true, [], length};
ghost use Rattle.definition.specs.Refusal.{depth_fits, trees_fit};
ghost use Rattle.definition.specs.Refusal.{depth as depth_of};
ghost use Rattle.solve_records.specs.Lent.{seen, lists, Readable, Tree};

use crate::{read_record, trees};
use definition::Problem;

// A top-level record has depth 1, a child is one deeper.
const MAX_DEPTH: usize = 8;

// One more than the depth of the deepest child. Children come first, so their numbers are smaller.
fn depth(records: &[usize], side: &[usize], number: usize) -> usize
    requires { (r : ℕ) → r ≤ number → Tree records.now side.now r }
    ensures { result ≡ depth_of (lists records.now side.now) number }
{
    let rec = read_record(records, number);
    if rec.is_implies() {
        return depth(records, side, rec.third) + 1;
    }
    let mut deepest = 0;
    for child in trees::listed(side, rec) {
        deepest = deepest.max(depth(records, side, *child));
    }
    deepest + 1
}

// No top-level record is too deep.
pub fn depth_fits(problem: Problem) -> bool
    requires by_index { (r : ℕ) → r < problem.counts.records → Readable problem.records.now problem.side.now r }
    requires tops_in_bounds { problem.counts.tops ≤ length problem.tops.now }
    requires tops_value { trees_fit (seen problem) ≡ true }
    ensures { result ≡ depth_fits (seen problem.entry) }
{
    for top in &problem.tops[..problem.counts.tops] {
        if depth(problem.records, problem.side, *top) > MAX_DEPTH {
            return false;
        }
    }
    true
}

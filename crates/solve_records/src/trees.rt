// Refusal 3: every child's number is below its parent's, and every record is named exactly once.
ghost use Rattle.std.specs.Prelude.{ℕ, ◌≤◌, ◌<◌, ◌≡◌, [], ◌∷◌, eqb, length, get_or};
ghost use Rattle.definition.specs.Sizes.{max_records};
ghost use Rattle.definition.specs.Lists.{all, from};
ghost use Rattle.definition.specs.Refusal.{trees_fit};
ghost use Rattle.solve_records.specs.Lent.{seen, PartInside, Readable};
ghost use Rattle.solve_records.specs.Read.{children_read};
ghost use Rattle.solve_records.specs.Marks.{MarkingBelow, MarkingChildren};

use crate::{Rec, read_record};
use definition::Problem;

// A mark for each record: 0, or 1 once it is named.
const MARKS: usize = 512;

// The children that a record lists in the side list: those of an And or an Xor.
pub fn listed(side: &[usize], rec: Rec) -> &[usize]
    requires part_inside { PartInside side.now rec.kind rec.first rec.second }
    requires fact { rec.kind ≡ 5 → ⊥ }
    ensures { result.now ≡ children_read side.now rec }
{
    if !rec.lists_children() {
        return &side[..0];
    }
    &side[rec.first..rec.first + rec.second]
}

// Marks a number that is below the bound and not marked yet. Answers whether it is.
fn mark(number: usize, bound: usize, marks: &mut [usize]) -> bool
    requires { bound ≤ length marks.old }
    ensures { MarkingBelow bound (number ∷ []) marks.old marks.new result }
{
    if bound <= number || marks[number] != 0 {
        return false;
    }
    marks[number] = 1;
    true
}

// The same for each number of a list.
fn mark_list(numbers: &[usize], bound: usize, marks: &mut [usize]) -> bool
    requires { bound ≤ length marks.old }
    ensures { MarkingBelow bound numbers.now marks.old marks.new result }
{
    for number in numbers {
        if !mark(*number, bound, marks) {
            return false;
        }
    }
    true
}

// The children of a record, each below the record.
fn mark_children(side: &[usize], rec: Rec, number: usize, marks: &mut [usize]) -> bool
    requires part_inside { PartInside side.now rec.kind rec.first rec.second }
    requires number_in_bounds { number ≤ length marks.old }
    ensures { MarkingBelow number (children_read side.now rec) marks.old marks.new result }
{
    if rec.is_implies() {
        return mark(rec.third, number, marks);
    }
    mark_list(listed(side, rec), number, marks)
}

// The children of every record.
fn mark_records(records: &[usize], side: &[usize], count: usize, marks: &mut [usize]) -> bool
    requires by_index { (r : ℕ) → r < count → Readable records.now side.now r }
    requires count_in_bounds { count ≤ length marks.old }
    ensures { MarkingChildren records.now side.now count marks.old marks.new result }
{
    for i in 0..count {
        if !mark_children(side, read_record(records, i), i, marks) {
            return false;
        }
    }
    true
}

// The first marks are all 1.
fn all_marked(marks: &[usize], count: usize) -> bool
    requires { count ≤ length marks.now }
    ensures { result ≡ all (λ k. eqb (get_or marks.now k 0) 1) (from 0 count) }
{
    (0..count).all(|k| marks[k] == 1)
}

// Children come before their parents, and each record is named once, by a record or at the top level.
pub fn trees_fit(problem: Problem) -> bool
    requires by_index { (r : ℕ) → r < problem.counts.records → Readable problem.records.now problem.side.now r }
    requires records_le_max_records { (problem.counts.records ≤ max_records) × (problem.counts.tops ≤ length problem.tops.now) }
    ensures { result ≡ trees_fit (seen problem.entry) }
{
    let count = problem.counts.records;
    let mut marks = [0; MARKS];
    mark_records(problem.records, problem.side, count, &mut marks)
        && mark_list(&problem.tops[..problem.counts.tops], count, &mut marks)
        && all_marked(&marks, count)
}

// The range: a term enters it once, with its first place.
#![tactic(auto)]

ghost use Rattle.std.specs.Prelude.{◌+◌, ◌*◌, ◌≤◌, ◌≡◌, eqb, length, get_or, set};
ghost use Rattle.definition.specs.Sizes.{range_cells};
ghost use Rattle.definition.specs.Lists.{from};
ghost use Rattle.rule_cells.specs.Put.{most_number, puts};
ghost use Rattle.rule_ranges.specs.Enter.{new, marked, entries, terms_in};

use rule_cells::{cell, put, put_all};

// A range entry is 2 cells: term, place.
pub const RANGE_CELLS: usize = 2;

// The cells of the marks, one for each term: 1 once the term is in the range.
pub const MARKS: usize = 256;

// Marks a term. Answers whether it had no mark, which a term past the marks never has.
fn mark(term: usize, marks: &mut [usize]) -> bool
    ensures { (result ≡ eqb (get_or marks.old term 0) 0) × (marks.new ≡ set marks.old term 1) }
{
    let before = cell(marks, term);
    put(marks, term, 1);
    before == 0
}

// Marks the terms of the first `count` entries.
pub fn mark_range(range: &[usize], count: usize, marks: &mut [usize])
    requires { count * range_cells ≤ length range.now }
    ensures { marks.new ≡ marked marks.old (terms_in range.now (from 0 count)) }
{
    for i in 0..count {
        mark(range[i * RANGE_CELLS], marks);
    }
}

// Adds an entry for each term that is new, behind the first `count` entries; past the list's end nothing is written.
// Answers how many entries there are then.
pub fn enter(
    bound: &[usize],
    place: usize,
    count: usize,
    range: &mut [usize],
    marks: &mut [usize],
) -> usize
    requires { count ≤ most_number }
    ensures value { result ≡ count + length (new marks.old bound.now) }
    ensures range_after { range.new ≡ puts range.old (count * range_cells) (entries place (new marks.old bound.now)) }
    ensures marks_after { marks.new ≡ marked marks.old bound.now }
{
    let mut n = count;
    for term in bound {
        if mark(*term, marks) {
            put_all(range, n * RANGE_CELLS, &[*term, place]);
            n += 1;
        }
    }
    n
}

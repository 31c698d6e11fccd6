// The range of a body: its variables, each where it first appears.
ghost use Rattle.std.specs.Prelude.{◌≤◌, length};
ghost use Rattle.definition.specs.Lists.{from};
ghost use Rattle.rule_ranges.specs.Enter.{new};
ghost use Rattle.rule_cells.specs.Put.{most_number};
ghost use Rattle.grounded_body.specs.Body.{mentioned};
ghost use Rattle.grounded_body.specs.Parts.{seen, Enters, Filled, KindMarks, Accepted};

use crate::{Body, KIND_CELL, MAX_TERMS, TERM_CELLS};
use rule_cells::field;

// Marks each term with its kind: what is no variable has a mark before it is met.
fn mark_constants(terms: &[usize], marks: &mut [usize])
    ensures { KindMarks terms.now marks.new }
{
    for (term, mark) in marks.iter_mut().enumerate() {
        *mark = field(terms, term, TERM_CELLS, KIND_CELL);
    }
}

// The arguments of all atoms that have no mark, and how many there are.
fn enter_all(body: Body, range: &mut [usize], marks: &mut [usize]) -> usize
    requires { length (new marks.old (mentioned (seen body) (from 0 body.counts.atoms))) ≤ most_number }
    ensures { Enters body.entry.place (mentioned (seen body.entry) (from 0 body.entry.counts.atoms)) 0 range.old marks.old result range.new marks.new }
{
    let mut n = 0;
    for atom in 0..body.counts.atoms {
        n = rule_ranges::enter(body.arguments_of(atom), body.place, n, range, marks);
    }
    n
}

// The entries of the range, and how many there are.
pub fn fill(body: Body, range: &mut [usize]) -> usize
    requires { Accepted (seen body) }
    ensures { Filled (seen body.entry) range.old result range.new }
{
    let mut marks = [0; MAX_TERMS];
    mark_constants(body.terms, &mut marks);
    enter_all(body, range, &mut marks)
}

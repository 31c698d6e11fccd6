// The text's definitions stand in specs/. Here is what the code counts, and what it reads a line by.
#![tactic(auto)]

use definition::{Counts, Outcome};

// How many sorts, globals, heads and terms have names, how many sorts the signatures use, the context, and the counts of the
// problem as the last call left them.
#[derive(Clone, Copy)]
pub struct Numbers {
    pub sorts: usize,
    pub globals: usize,
    pub heads: usize,
    pub terms: usize,
    pub used: usize,
    pub context: usize,
    pub problem: Counts,
}

// How a text ends: the number of its refusal and the line, or 0 and what solve answered.
#[derive(Clone, Copy)]
pub struct Ended {
    pub refused: usize,
    pub place: usize,
    pub outcome: Outcome,
    pub numbers: Numbers,
}

// What the lines so far have declared, as a line is read by it: how much there is of each, the tables of names, and what a
// call is lent.
#[derive(Clone, Copy)]
pub struct Declared<'a> {
    pub numbers: Numbers,
    pub sort_names: &'a [usize],
    pub global_names: &'a [usize],
    pub head_names: &'a [usize],
    pub signatures: &'a [usize],
    pub signature_sorts: &'a [usize],
    pub globals: &'a [usize],
}

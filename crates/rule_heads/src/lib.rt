// The alternatives of a head, and the constraints that they give.
#![tactic(auto)]

mod alternatives;
mod choice;

pub use alternatives::{find, head_refusal, is_constructor};
pub use choice::{write_application, write_equality, write_nothing};

// The most alternatives: a function and 256 primitives.
pub const MAX_FOUND: usize = 257;

// How far the records, the side list and the top-level entries are written.
#[derive(Clone, Copy)]
pub struct Cursor {
    pub records: usize,
    pub side: usize,
    pub tops: usize,
}

// The alternatives found of a head: numbers of signatures, and the tables that they are of.
#[derive(Clone, Copy)]
pub struct Found<'a> {
    pub signatures: &'a [usize],
    pub signature_sorts: &'a [usize],
    pub numbers: &'a [usize],
}

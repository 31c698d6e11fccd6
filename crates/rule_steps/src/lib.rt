// One atom or action: what it asks, and the lists with it.
#![tactic(auto)]

mod adding;
mod ask;
mod room;

pub use adding::step;
pub use ask::{head_of, place_of};
pub use room::room_for;

// The lengths of the lists that a call adds to.
#[derive(Clone, Copy)]
pub struct Lengths {
    pub records: usize,
    pub side: usize,
    pub tops: usize,
    pub range: usize,
    pub terms: usize,
}

// What an atom or an action says of its arguments.
#[derive(Clone, Copy, Debug, Default, PartialEq, Eq)]
pub enum Form {
    #[default]
    Nothing,
    Equality(usize, usize),
    Application(usize),
}

// What is asked, with the numbers of arguments and of terms that enter the range, whose lists stand in buffers.
#[derive(Clone, Copy, Debug, Default, PartialEq, Eq)]
pub struct Work {
    pub form: Form,
    pub args: usize,
    pub bound: usize,
    pub fresh: usize,
    pub forbidden: bool,
    pub miscounted: bool,
}

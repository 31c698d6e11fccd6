// What an update answers, the cells of frames and errors, the updates that have no children, and of an Xor's and an
// Implies's what updates nothing below them.
#![tactic(auto)]

pub mod answer;
pub mod firing;
pub mod frame;
pub mod leaf;
pub mod trial;

// The terms of a line: where its words stand, the naming of its terms, its refusal where they are too many, and its call by
// their numbers.
#![tactic(auto)]

pub mod call;
mod full;
pub mod hearing;
pub mod shape;
pub mod terms;

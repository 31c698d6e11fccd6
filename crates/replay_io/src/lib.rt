// What the replays of fixed lists share: reading lines of numbers, and writing answer lines.
#![tactic(auto)]

pub mod input;
pub mod line;
pub mod output;

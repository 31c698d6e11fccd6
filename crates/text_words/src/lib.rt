// Bytes and words: what a name, a term and a number are, parts of a text and tables of them, and putting bytes into a
// buffer. The definitions stand in specs/.
#![tactic(auto)]

pub mod names;
pub mod parts;
pub mod put;

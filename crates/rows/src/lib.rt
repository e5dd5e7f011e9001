// Units and objects as rows of words, and the operations on words that units have.
#![tactic(auto)]

pub mod bodies;
pub mod objects;
pub mod operations;
pub mod signs;
pub mod units;
pub mod words;

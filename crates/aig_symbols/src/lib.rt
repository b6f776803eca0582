//! Reads the names and the comment that end a file in the AIGER format.
#![tactic(auto)]

mod names;

pub use names::read_names;

//! Clauses in DIMACS form, written to any sink.
#![tactic(auto)]

mod circuit;
mod gate;
mod laws;
mod writing;

pub use circuit::{write_circuit, write_circuit_with};
pub use laws::{formulas_are_read, texts_tell_formulas};
pub use writing::write_dimacs;

//! Circuits with further steps.
#![tactic(auto)]

mod entries;
mod laws;
mod nodes;
mod steps;

pub use laws::{adds_exactly, steps_unroll, unrolls_by_none};
pub use steps::{is_size_within, step_table, unroll, unroll_to};

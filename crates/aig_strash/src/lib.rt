//! Structural hashing of circuits.
#![tactic(auto)]

mod hashing;
mod laws;
mod narrow;
mod numbers;
mod seeded;

pub use hashing::strash;
pub use laws::{
    strashing_is_circuit, strashing_keeps_representatives, strashing_keeps_runs,
    strashing_merges_trees, strashing_numbers_representatives, strashing_twice,
};

//! Changes of circuits: one after another, and changes of properties and initial edges.
#![tactic(auto)]

mod append;
mod changes;
mod inits;
mod joining;
mod laws;

pub use changes::{aig_move, compress_property, gate_init_to_constraint, merge};
pub use laws::{merging_is_circuit, merging_pairs_runs, merging_with_false};

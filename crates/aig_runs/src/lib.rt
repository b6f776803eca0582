//! What the clauses of an unrolled circuit say of runs, query clauses and what they ask for, and answers about a file's machine that rest on
//! proofs which are checked.
#![tactic(auto)]

mod circuits;
mod clauses;
mod laws;
mod safety;
mod unrolled;
mod window;

pub use circuits::{refuted_circuit_queries_have_no_witness, safe_circuits_are_safe_machines};
pub use clauses::{push_any, push_starts, push_units, query_clauses};
pub use laws::{
    circuit_queries_ask, circuit_witnesses_are_file_witnesses, clauses_are_circuit_runs,
    clauses_are_file_runs, encodings_are_one, queries_ask, refuted_queries_are_safe,
    windows_are_one,
};
pub use safety::{
    certificates_are_safe, distinct_windows_are_complete, extended_files_have_runs,
    inductive_invariants_are_safe, inductive_windows_are_safe, invariants_are_windows,
    refutations_are_safe, refuted_queries_have_no_witness, refuted_windows_are_inductive,
    safe_steps_are_safe,
};
pub use unrolled::Unrolled;
pub use window::Window;

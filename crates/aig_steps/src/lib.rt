//! Unrolling step by step, for incremental solvers, which get the clauses of one step after the
//! other.
#![tactic(auto)]

mod error;
mod frames;
mod laws;
mod unrolling;

pub use error::StepError;
pub use laws::{
    inductive_circuits_are_safe, steps_ask_for_runs, steps_contain_encodings, steps_go_on,
    stepwise_queries_ask, stepwise_windows_are_inductive,
};
pub use unrolling::Unrolling;

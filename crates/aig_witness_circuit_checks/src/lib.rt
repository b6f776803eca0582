//! Answers about a circuit of an AIGER file that a witness circuit simulates: from the bytes of both, and of a proof for each condition of
//! a certificate.
//!
//! The proofs are of the clauses of the conditions' questions, as `aig_witness_circuits::question` makes them.
#![tactic(auto)]

mod checking;
mod claim;
mod error;
mod laws;
mod obligation;

pub use aig_witness_circuits::Condition;
pub use checking::check_simulated;
pub use claim::{Claim, read_simulation};
pub use error::{ConditionError, SimulationError};
pub use laws::condition_questions_are_one;
pub use obligation::{Obligation, obligation_of};

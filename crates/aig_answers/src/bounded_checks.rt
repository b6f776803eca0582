//! Bounded checks of the machines of AIGER files, from bytes: the clauses of one question, and proofs and
//! solutions of them.

mod clauses;
mod error;
mod laws;
mod naming;
mod simulating;
mod solving;
mod values;

pub use clauses::BoundedClauses;
pub(crate) use clauses::ask_circuit;
pub use error::BoundedAnswerError;
pub use laws::{
    bounded_clauses_are_one, circuit_questions_are_one, refuted_circuit_questions_are_safe,
    refuted_questions_are_safe,
};
pub use naming::Named;
pub use solving::bounded_witness;

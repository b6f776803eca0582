//! Answers about the machines of AIGER files, from the bytes of files and of proofs that are checked: about a step, all steps up to one,
//! every step, two machines, and justice properties.
#![tactic(auto)]

mod asks;
mod bounded_checks;
mod circuits;
mod clause_parts;
mod clauses;
mod distinct;
mod error;
mod goals;
mod laws;
mod plans;
mod step;
mod unrolled;
mod windows;

pub use aig_runs::Window;
pub use bounded_checks::{
    BoundedAnswerError, BoundedClauses, Named, bounded_clauses_are_one, bounded_witness,
    circuit_questions_are_one, refuted_circuit_questions_are_safe, refuted_questions_are_safe,
};
pub use circuits::CircuitQuery;
pub use clause_parts::{ClauseParts, query_parts, window_parts};
pub use error::AnswerError;
pub use goals::{Goal, GoalError, GoalFault, asked_with, check_goal};
pub use laws::{circuit_clauses_are_one, windows_are_asked};
pub use plans::{
    Ask, PlanError, Question, Refused, Why, check_circuit, check_question, check_room, clauses_of,
    command_plans_cover, covering_plans_are_safe, first_question, plans_have_room,
    question_clauses_are_one, refuted_asks_hold,
};
pub use step::read_query;
pub use unrolled::unrolled_query;
pub use windows::{UnrolledWindow, WindowClauses, unroll_window};

//! A bounded check as one small question.
#![tactic(auto)]

mod depths;
mod error;
mod frames;
mod gates;
mod laws;
mod place;
mod question;
mod seeded;
mod steps;

pub use error::BoundedError;
pub use laws::{questions_are_one, questions_ask_for_witnesses};
pub use place::Place;
pub use question::{BoundedCircuit, bounded_question};

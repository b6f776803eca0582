//! Plans: questions of a circuit as data, and proofs that are checked of their clauses, one for each.

mod asking;
mod checking;
mod clauses;
mod errors;
mod laws;
mod room;

pub use asking::{Ask, Question};
pub use checking::{check_circuit, check_question};
pub use clauses::{clauses_of, first_question};
pub use errors::{PlanError, Refused, Why};
pub use laws::{
    command_plans_cover, covering_plans_are_safe, plans_have_room, question_clauses_are_one,
    refuted_asks_hold,
};
pub use room::check_room;

//! What proofs are to show of a subject, and checking them: from the bytes of the files that are read, and of a proof for each question
//! of the goal's plan.

mod checking;
mod error;
mod goal;

pub use checking::check_goal;
pub use error::{GoalError, GoalFault};
pub use goal::{Goal, asked_with};

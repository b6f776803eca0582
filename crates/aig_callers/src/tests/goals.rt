//! What is told of goals that are checked.

use aig_answers::{GoalError, GoalFault, PlanError, Refused, Why};
use aig_refutation::RefutationError;

/// Why a goal isn't shown, if it isn't.
pub(crate) fn fault_of(done: Result<(), GoalError>) -> Option<GoalFault> {
    match done {
        Ok(()) => None,
        Err(error) => Some(error.fault),
    }
}

/// That the proof at this place is refused for this reason.
pub(crate) fn refused(index: usize, error: RefutationError) -> Option<GoalFault> {
    let why = Why::Refutation(error);
    Some(GoalFault::Plan(PlanError::Refused(Refused { index, why })))
}

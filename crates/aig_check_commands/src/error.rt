//! Why the program doesn't do what was asked.

ghost use Rattle.std.specs.Prelude.{◌≡◌};
ghost use Rattle.aig_check_commands.specs.Running.{error_of_claim};
ghost use Rattle.aig_check_commands.specs.declared.error.CheckError.TheVariants as errors;

use aig_answers::{AnswerError, BoundedAnswerError, GoalError};
use aig_base::{MemoryError, StreamFault};
use aig_edits::EditError;
use aig_witness::{ClaimError, LassoFault, ShowError, SolutionError};
use aig_witness_circuit_checks::SimulationError;
use thiserror::Error;

/// Why the program doesn't do what was asked.
#[derive(Clone, Copy, Debug, PartialEq, Eq, Error)]
pub enum CheckError {
    /// A path couldn't be opened.
    #[error("cannot open")]
    Open,
    /// Memory ran out outside reading and checking.
    #[error("out of memory")]
    Memory,
    /// There is no answer.
    #[error(transparent)]
    Answer(AnswerError),
    /// The solver's answer gives no witness of a bad state.
    #[error(transparent)]
    Solution(SolutionError),
    /// The witness is refused, or shows no bad state.
    #[error(transparent)]
    Show(ShowError),
    /// The answer wasn't written.
    #[error("write failed")]
    Write,
    /// There is no answer about the steps up to one.
    #[error(transparent)]
    Bounded(BoundedAnswerError),
    /// What proofs are to show isn't shown.
    #[error("{0}")]
    Goal(GoalError),
    /// The witness shows no fair lasso.
    #[error(transparent)]
    Lasso(LassoFault),
    /// The file is refused, or nothing is made of it to ask about a justice property.
    #[error(transparent)]
    Unmade(EditError),
    /// A witness circuit doesn't show that no bad state is reached at any step.
    #[error(transparent)]
    Simulation(SimulationError),
}

impl From<AnswerError> for CheckError {
    ghost from_gives = { λ e r. r ≡ errors.Answer e };

    fn from(error: AnswerError) -> CheckError {
        CheckError::Answer(error)
    }
}

impl From<MemoryError> for CheckError {
    ghost from_gives = { λ _ r. r ≡ errors.Memory };

    fn from(_error: MemoryError) -> CheckError {
        CheckError::Memory
    }
}

impl From<SolutionError> for CheckError {
    ghost from_gives = { λ e r. r ≡ errors.Solution e };

    fn from(error: SolutionError) -> CheckError {
        CheckError::Solution(error)
    }
}

impl From<ClaimError> for CheckError {
    ghost from_gives = { λ e r. r ≡ error_of_claim e };

    fn from(error: ClaimError) -> CheckError {
        match error {
            ClaimError::Show(error) => CheckError::Show(error),
            ClaimError::Lasso(fault) => CheckError::Lasso(fault),
        }
    }
}

impl From<BoundedAnswerError> for CheckError {
    ghost from_gives = { λ e r. r ≡ errors.Bounded e };

    fn from(error: BoundedAnswerError) -> CheckError {
        CheckError::Bounded(error)
    }
}

impl From<GoalError> for CheckError {
    ghost from_gives = { λ e r. r ≡ errors.Goal e };

    fn from(error: GoalError) -> CheckError {
        CheckError::Goal(error)
    }
}

impl From<EditError> for CheckError {
    ghost from_gives = { λ e r. r ≡ errors.Unmade e };

    fn from(error: EditError) -> CheckError {
        CheckError::Unmade(error)
    }
}

impl From<SimulationError> for CheckError {
    ghost from_gives = { λ e r. r ≡ errors.Simulation e };

    fn from(error: SimulationError) -> CheckError {
        CheckError::Simulation(error)
    }
}

impl From<StreamFault> for CheckError {
    ghost from_gives = { λ _ r. r ≡ errors.Write };

    fn from(_fault: StreamFault) -> CheckError {
        CheckError::Write
    }
}

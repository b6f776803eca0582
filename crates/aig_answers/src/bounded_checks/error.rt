//! Why there is no answer.

ghost use Rattle.std.specs.Prelude.{◌≡◌};
ghost use Rattle.aig_bounded.specs.declared.error.BoundedError.TheVariants as bounded;
ghost use Rattle.aig_answers.specs.declared.bounded_checks.error.BoundedAnswerError.TheVariants as errors;

use aig_base::MemoryError;
use aig_bounded::BoundedError;
use aig_reader::ReadError;
use aig_witness::SolutionError;
use thiserror::Error;

/// Why there is no answer.
#[derive(Clone, Copy, Debug, PartialEq, Eq, Error)]
pub enum BoundedAnswerError {
    /// The file is refused.
    #[error(transparent)]
    Read(ReadError),
    /// The file has no bad state property, so that nothing is asked.
    #[error("no bad state property (aigedit bads makes outputs such)")]
    NoBads,
    /// There is no question, or there are no clauses of it.
    #[error(transparent)]
    Question(BoundedError),
    /// The solver's answer gives no witness of a bad state.
    #[error(transparent)]
    Solution(SolutionError),
}

impl From<ReadError> for BoundedAnswerError {
    ghost from_gives = { λ e r. r ≡ errors.Read e };

    fn from(error: ReadError) -> BoundedAnswerError {
        BoundedAnswerError::Read(error)
    }
}

impl From<BoundedError> for BoundedAnswerError {
    ghost from_gives = { λ e r. r ≡ errors.Question e };

    fn from(error: BoundedError) -> BoundedAnswerError {
        BoundedAnswerError::Question(error)
    }
}

impl From<SolutionError> for BoundedAnswerError {
    ghost from_gives = { λ e r. r ≡ errors.Solution e };

    fn from(error: SolutionError) -> BoundedAnswerError {
        BoundedAnswerError::Solution(error)
    }
}

impl From<MemoryError> for BoundedAnswerError {
    ghost from_gives = { λ _ r. r ≡ errors.Question bounded.Memory };

    fn from(_error: MemoryError) -> BoundedAnswerError {
        BoundedAnswerError::Question(BoundedError::Memory)
    }
}

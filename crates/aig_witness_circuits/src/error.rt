//! Why there is no question.

ghost use Rattle.std.specs.Prelude.{◌≡◌};
ghost use Rattle.aig_witness_circuits.specs.declared.error.QuestionError.TheVariants as errors;

use aig_base::MemoryError;
use std::alloc::AllocError;
use thiserror::Error;

/// Why there is no question for a condition.
#[derive(Clone, Copy, Debug, PartialEq, Eq, Error)]
pub enum QuestionError {
    /// Memory was refused.
    #[error("out of memory")]
    Memory,
    /// The question has more nodes than the limit.
    #[error("question passes the limit")]
    TooLarge,
}

impl From<MemoryError> for QuestionError {
    ghost from_gives = { λ _ r. r ≡ errors.Memory };

    fn from(_error: MemoryError) -> QuestionError {
        QuestionError::Memory
    }
}

impl From<AllocError> for QuestionError {
    ghost from_gives = { λ _ r. r ≡ errors.Memory };

    fn from(_error: AllocError) -> QuestionError {
        QuestionError::Memory
    }
}

//! Why there is no answer.

ghost use Rattle.std.specs.Prelude.{◌≡◌};
ghost use Rattle.aig_answers.specs.declared.error.AnswerError.TheVariants as errors;
ghost use Rattle.aig_encode.specs.declared.error.EncodeError.TheVariants as encode;

use aig::ReadError;
use aig_base::MemoryError;
use aig_encode::EncodeError;
use thiserror::Error;

/// Why there is no answer.
#[derive(Clone, Copy, Debug, PartialEq, Eq, Error)]
pub enum AnswerError {
    /// The file is refused, or there are no clauses of it.
    #[error(transparent)]
    Encode(EncodeError),
    /// The file has no bad state property, so that nothing is asked.
    #[error("no bad state property (aigedit bads makes outputs such)")]
    NoBads,
}

impl From<ReadError> for AnswerError {
    ghost from_gives = { λ e r. r ≡ errors.Encode (encode.Read e) };

    fn from(error: ReadError) -> AnswerError {
        AnswerError::Encode(EncodeError::Read(error))
    }
}

impl From<EncodeError> for AnswerError {
    ghost from_gives = { λ e r. r ≡ errors.Encode e };

    fn from(error: EncodeError) -> AnswerError {
        AnswerError::Encode(error)
    }
}

impl From<MemoryError> for AnswerError {
    ghost from_gives = { λ _ r. r ≡ errors.Encode encode.Memory };

    fn from(_error: MemoryError) -> AnswerError {
        AnswerError::Encode(EncodeError::Memory)
    }
}

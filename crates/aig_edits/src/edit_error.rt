//! Why nothing is made of a file.

ghost use Rattle.std.specs.Prelude.{◌≡◌};
ghost use Rattle.aig_edits.specs.declared.edit_error.EditError.TheVariants as errors;
ghost use Rattle.aig_edits.specs.QuestionFaults.{question_fault};

use aig_base::{MemoryError, StreamFault};
use aig_bounded::BoundedError;
use aig_reader::ReadError;
use thiserror::Error;

/// Why nothing is made of a file.
#[derive(Clone, Copy, Debug, PartialEq, Eq, Error)]
pub enum EditError {
    /// The file is refused.
    #[error("{0}")]
    Read(ReadError),
    /// The file has constraints and more than one bad literal, where the constraints would be joined to the first one alone.
    #[error("constraints and several bad state properties (aigedit compress makes these one)")]
    ManyBads,
    /// The file has bad literals, where its outputs would become them.
    #[error("has a bad state property already")]
    HasBads,
    /// The file has no output of the number that is asked for.
    #[error("no such output")]
    NoOutput,
    /// The file has no bad literal of the number that is asked for.
    #[error("no such bad state property")]
    NoBad,
    /// The file has no justice property of the number that is asked for.
    #[error("no such justice property")]
    NoJustice,
    /// The file has no bad literal, so that its question asks for nothing.
    #[error("no bad state property (aigedit bads makes outputs such)")]
    NoBads,
    /// The question has more nodes than the limit while it is made.
    #[error("question may pass the limit")]
    QuestionTooLarge,
    /// The circuit with its further steps may have more nodes than the limit.
    #[error("unrolled circuit may pass the limit")]
    PassesLimit,
    /// The circuit that was made is too large for the format.
    #[error("too large for the format")]
    TooLarge,
    /// Memory was refused after the reading.
    #[error("out of memory")]
    Memory,
    /// The writer failed in this call.
    #[error("write failed")]
    Write,
}

impl From<ReadError> for EditError {
    ghost from_gives = { λ e r. r ≡ errors.Read e };

    fn from(error: ReadError) -> EditError {
        EditError::Read(error)
    }
}

impl From<MemoryError> for EditError {
    ghost from_gives = { λ _ r. r ≡ errors.Memory };

    fn from(_error: MemoryError) -> EditError {
        EditError::Memory
    }
}

impl From<BoundedError> for EditError {
    ghost from_gives = { λ e r. r ≡ question_fault e };

    fn from(error: BoundedError) -> EditError {
        match error {
            BoundedError::TooLarge => EditError::QuestionTooLarge,
            BoundedError::Memory => EditError::Memory,
        }
    }
}

impl From<StreamFault> for EditError {
    ghost from_gives = { λ _ r. r ≡ errors.Write };

    fn from(_fault: StreamFault) -> EditError {
        EditError::Write
    }
}

//! Why there is no answer.

ghost use Rattle.std.specs.Prelude.{◌≡◌};
ghost use Rattle.aig_witness_circuit_checks.specs.declared.error.ConditionError.TheVariants as conditions;
ghost use Rattle.aig_witness_circuit_checks.specs.declared.error.SimulationError.TheVariants as errors;
ghost use Rattle.aig_witness_circuits.specs.declared.error.QuestionError.TheVariants as questions;
ghost use Rattle.aig_witness_circuits.specs.declared.sharing.error.SharingError.TheVariants as sharing;

use aig_base::MemoryError;
use aig_edits::EditError;
use aig_reader::ReadError;
use aig_refutation::RefutationError;
use aig_witness_circuits::{Condition, QuestionError, SharingError};
use thiserror::Error;

/// Why a condition isn't shown.
#[derive(Clone, Copy, Debug, PartialEq, Eq, Error)]
pub enum ConditionError {
    /// There are no clauses of its question.
    #[error("{0}")]
    Question(QuestionError),
    /// Its proof is refused.
    #[error("{0}")]
    Refutation(RefutationError),
}

impl From<QuestionError> for ConditionError {
    ghost from_gives = { λ e r. r ≡ conditions.Question e };

    fn from(error: QuestionError) -> ConditionError {
        ConditionError::Question(error)
    }
}

impl From<MemoryError> for ConditionError {
    ghost from_gives = { λ _ r. r ≡ conditions.Question questions.Memory };

    fn from(_error: MemoryError) -> ConditionError {
        ConditionError::Question(QuestionError::Memory)
    }
}

impl From<RefutationError> for ConditionError {
    ghost from_gives = { λ e r. r ≡ conditions.Refutation e };

    fn from(error: RefutationError) -> ConditionError {
        ConditionError::Refutation(error)
    }
}

/// Why there is no answer about a file and a witness circuit.
#[derive(Clone, Copy, Debug, PartialEq, Eq, Error)]
pub enum SimulationError {
    /// The file is refused, or has no circuit that is asked about. The witness circuit wasn't read.
    #[error(transparent)]
    File(EditError),
    /// The witness circuit is refused.
    #[error("witness circuit: {0}")]
    Witness(ReadError),
    /// The circuit of the file has no bad edge, so that nothing is asked.
    #[error("no bad state property (aigedit bads makes outputs such)")]
    NoBads,
    /// It isn't told which leaves are shared.
    #[error("{0}")]
    Sharing(SharingError),
    /// The resets of the witness circuit's own latches go round in a circle, so that these may have no values to start with.
    #[error("resets of the witness circuit go round in a circle")]
    Circular,
    /// The condition isn't shown.
    #[error("{0}: {1}")]
    Condition(Condition, ConditionError),
}

impl From<EditError> for SimulationError {
    ghost from_gives = { λ e r. r ≡ errors.File e };

    /// A fault of the file.
    fn from(error: EditError) -> SimulationError {
        SimulationError::File(error)
    }
}

impl From<SharingError> for SimulationError {
    ghost from_gives = { λ e r. r ≡ errors.Sharing e };

    fn from(error: SharingError) -> SimulationError {
        SimulationError::Sharing(error)
    }
}

impl From<MemoryError> for SimulationError {
    ghost from_gives = { λ _ r. r ≡ errors.Sharing sharing.Memory };

    fn from(_error: MemoryError) -> SimulationError {
        SimulationError::Sharing(SharingError::Memory)
    }
}

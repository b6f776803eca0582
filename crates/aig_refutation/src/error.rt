//! Why a proof doesn't show that clauses can't be satisfied.

ghost use Rattle.std.specs.Prelude.{◌≡◌};
ghost use Rattle.aig_refutation.specs.declared.error.RefutationError.TheVariants as errors;

use aig_base::{MemoryError, StreamFault};
use thiserror::Error;

/// Why a proof doesn't show that clauses can't be satisfied.
#[derive(Clone, Copy, Debug, PartialEq, Eq, Error)]
pub enum RefutationError {
    /// Memory ran out.
    #[error("out of memory")]
    Memory,
    /// A read failed.
    #[error("read failed")]
    Stream,
    /// A literal of the clauses has no variable.
    #[error("literal of no variable in clauses")]
    Variable,
    /// A line is no step, or is one of the other form than the first line.
    #[error("bad proof line")]
    Line,
    /// A literal of the proof has no variable that its step may name.
    #[error("literal of no variable in proof")]
    Literal,
    /// A hint, or a number that is to be deleted, names no clause.
    #[error("number of no clause in proof")]
    Unnamed,
    /// A number was used before, for a clause that is still there or was deleted.
    #[error("number used twice in proof")]
    Twice,
    /// A number is far above how many clauses there are.
    #[error("number too large in proof")]
    Large,
    /// A clause doesn't follow: by unit propagation along its hints, or at all where it has none. Nor
    /// has it the RAT property, or hints for that are not found where it has none.
    #[error("proof step does not follow")]
    Step,
    /// The same of a clause that has hints for other clauses: it neither follows nor has the RAT
    /// property (resolution asymmetry) on its first literal.
    #[error("proof step has not the RAT property")]
    Asymmetry,
    /// The proof is neither a text nor a binary one, or a binary one is cut or malformed in a step.
    #[error("bad binary proof; behind the word lrat it is read as LRAT")]
    Binary,
    /// The bytes end before the empty clause.
    #[error("proof ends before the empty clause")]
    Unfinished,
}

impl From<StreamFault> for RefutationError {
    ghost from_gives = { λ _ r. r ≡ errors.Stream };

    fn from(_fault: StreamFault) -> RefutationError {
        RefutationError::Stream
    }
}

impl From<MemoryError> for RefutationError {
    ghost from_gives = { λ _ r. r ≡ errors.Memory };

    fn from(_error: MemoryError) -> RefutationError {
        RefutationError::Memory
    }
}

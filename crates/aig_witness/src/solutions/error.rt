//! Why there is no witness.

ghost use Rattle.std.specs.Prelude.{◌≡◌};
ghost use Rattle.aig_witness.specs.declared.solutions.error.SolutionError.TheVariants as errors;

use crate::WitnessFault;
use aig_base::{MemoryError, StreamFault};
use thiserror::Error;

/// Why a solver's answer gives no values, or these no witness of a bad state.
#[derive(Clone, Copy, Debug, PartialEq, Eq, Error)]
pub enum SolutionError {
    /// Memory ran out.
    #[error("out of memory")]
    Memory,
    /// A read failed.
    #[error("read failed")]
    Stream,
    /// The solver answered that there is no solution.
    #[error("the solver answered UNSATISFIABLE")]
    Unsatisfiable,
    /// The solver answered that it doesn't know.
    #[error("the solver answered UNKNOWN")]
    Unknown,
    /// Before the solver's answer comes a line that is neither one of values nor a comment, or the end.
    #[error("no answer of a solver: lines `s SATISFIABLE` and `v ..` are wanted")]
    Answer,
    /// After the answer comes a line that is neither one of values nor a comment, or a `v` is no word.
    #[error("bad line of a solution")]
    Line,
    /// A line of values has another word than a literal or 0.
    #[error("bad literal in a solution")]
    Literal,
    /// A literal is of no variable of the clauses.
    #[error("literal of no variable in a solution")]
    Variable,
    /// A literal stands in the solution, and its inverse too.
    #[error("literal and its inverse in a solution")]
    Clash,
    /// The stream ended before the 0.
    #[error("solution ends before its 0")]
    Unfinished,
    /// No bad state property is true at the last step.
    #[error("the solution shows no bad state")]
    NoBad,
    /// The witness that the values say shows no bad state.
    #[error("{0}")]
    Check(WitnessFault),
}

impl From<MemoryError> for SolutionError {
    ghost from_gives = { λ _ r. r ≡ errors.Memory };

    fn from(_error: MemoryError) -> SolutionError {
        SolutionError::Memory
    }
}

impl From<StreamFault> for SolutionError {
    ghost from_gives = { λ _ r. r ≡ errors.Stream };

    fn from(_fault: StreamFault) -> SolutionError {
        SolutionError::Stream
    }
}

impl From<WitnessFault> for SolutionError {
    ghost from_gives = { λ e r. r ≡ errors.Check e };

    fn from(fault: WitnessFault) -> SolutionError {
        SolutionError::Check(fault)
    }
}

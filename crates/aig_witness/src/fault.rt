//! Why a witness doesn't show a bad state.

ghost use Rattle.std.specs.Prelude.{◌≡◌};
ghost use Rattle.aig_witness.specs.declared.fault.WitnessFault.TheVariants as errors;

use aig_base::MemoryError;
use thiserror::Error;

/// Why a witness doesn't show a bad state of a circuit.
#[derive(Clone, Copy, Debug, PartialEq, Eq, Error)]
pub enum WitnessFault {
    /// Memory ran out.
    #[error("out of memory")]
    Memory,
    /// The state has another number of values than there are latches.
    #[error("the state has another number of values than there are latches")]
    Latches,
    /// The inputs of this step have another number of values than there are inputs.
    #[error("step {0} has another number of values than there are inputs")]
    Inputs(usize),
    /// There is no step.
    #[error("no step")]
    NoStep,
    /// There is no bad state property of this number.
    #[error("no such bad state property")]
    NoBad,
    /// Some latch has not the value that it starts with, or it is not known.
    #[error("the state isn't known to be initial")]
    Start,
    /// Some constraint doesn't hold at this step, or it is not known whether it does.
    #[error("a constraint is not known to hold at step {0}")]
    Constraint(usize),
    /// The bad literal doesn't hold at the last step, or it is not known whether it does.
    #[error("the bad literal is not known to hold")]
    Bad,
}

impl From<MemoryError> for WitnessFault {
    ghost from_gives = { λ _ r. r ≡ errors.Memory };

    fn from(_error: MemoryError) -> WitnessFault {
        WitnessFault::Memory
    }
}

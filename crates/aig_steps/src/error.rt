//! The errors of unrolling a circuit further.

ghost use Rattle.std.specs.Prelude.{◌≡◌};
ghost use Rattle.aig_steps.specs.declared.error.StepError.TheVariants as errors;

use aig_base::MemoryError;
use thiserror::Error;

/// The errors of unrolling a circuit further.
#[derive(Clone, Copy, Debug, PartialEq, Eq, Error)]
pub enum StepError {
    /// Memory was refused.
    #[error("out of memory")]
    Memory,
    /// After the step there could be 2^31 nodes or more.
    #[error("unrolled circuit may pass the limit")]
    TooLarge,
}

impl From<MemoryError> for StepError {
    ghost from_gives = { λ _ r. r ≡ errors.Memory };

    fn from(_error: MemoryError) -> StepError {
        StepError::Memory
    }
}

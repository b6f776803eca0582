//! Why there is no question.

ghost use Rattle.std.specs.Prelude.{◌≡◌};
ghost use Rattle.aig_bounded.specs.declared.error.BoundedError.TheVariants as errors;

use aig_base::MemoryError;
use thiserror::Error;

/// Why there is no question.
#[derive(Clone, Copy, Debug, PartialEq, Eq, Error)]
pub enum BoundedError {
    /// The question has more nodes than the limit while it is made.
    #[error("question may pass the limit")]
    TooLarge,
    /// Memory was refused.
    #[error("out of memory")]
    Memory,
}

impl From<MemoryError> for BoundedError {
    ghost from_gives = { λ _ r. r ≡ errors.Memory };

    fn from(_error: MemoryError) -> BoundedError {
        BoundedError::Memory
    }
}

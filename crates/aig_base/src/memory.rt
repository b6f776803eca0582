//! The fault of memory.

ghost use Rattle.std.specs.Prelude.{◌≡◌};
ghost use Rattle.aig_base.specs.declared.memory.MemoryError.TheVariants.{Memory};

use std::alloc::{AllocError, AllocFailed};
use thiserror::Error;

/// Memory was refused.
#[derive(Clone, Copy, Debug, PartialEq, Eq, Error)]
pub enum MemoryError {
    /// Memory was refused.
    #[error("out of memory")]
    Memory = 1,
}

impl From<AllocError> for MemoryError {
    ghost from_gives = { λ _ r. r ≡ Memory };

    fn from(_error: AllocError) -> MemoryError {
        MemoryError::Memory
    }
}

impl<T: Drop> From<AllocFailed<T>> for MemoryError {
    ghost from_gives = { λ _ r. r ≡ Memory };

    fn from(_error: AllocFailed<T>) -> MemoryError {
        MemoryError::Memory
    }
}

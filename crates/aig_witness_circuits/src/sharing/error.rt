//! Why it isn't told which leaves are shared.

ghost use Rattle.std.specs.Prelude.{◌≡◌};
ghost use Rattle.aig_witness_circuits.specs.declared.sharing.error.SharingError.TheVariants as errors;

use aig_base::MemoryError;
use std::alloc::{AllocError, AllocFailed};
use thiserror::Error;

/// Why it isn't told which leaves are shared.
#[derive(Clone, Copy, Debug, PartialEq, Eq, Error)]
pub enum SharingError {
    /// Memory was refused.
    #[error("out of memory")]
    Memory,
    /// The name of this leaf of the witness circuit begins as one that says for which leaf of the model it stands, but what follows is no
    /// literal that an input of the model has in its file, or a latch where the leaf is a latch's.
    #[error("node {0}: its name has no literal of such a leaf of the model")]
    Unknown(usize),
    /// This leaf of the witness circuit has the literal of one for which another stands already.
    #[error("node {0}: its name has the literal of another")]
    Twice(usize),
}

impl From<MemoryError> for SharingError {
    ghost from_gives = { λ _ r. r ≡ errors.Memory };

    fn from(_error: MemoryError) -> SharingError {
        SharingError::Memory
    }
}

impl From<AllocError> for SharingError {
    ghost from_gives = { λ _ r. r ≡ errors.Memory };

    fn from(_error: AllocError) -> SharingError {
        SharingError::Memory
    }
}

impl<T: Drop> From<AllocFailed<T>> for SharingError {
    ghost from_gives = { λ _ r. r ≡ errors.Memory };

    fn from(_error: AllocFailed<T>) -> SharingError {
        SharingError::Memory
    }
}

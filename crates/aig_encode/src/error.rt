//! Why there are no clauses.

ghost use Rattle.std.specs.Prelude.{◌≡◌};
ghost use Rattle.aig_encode.specs.declared.error.EncodeError.TheVariants as errors;

use aig::ReadError;
use aig_base::MemoryError;
use thiserror::Error;

/// Why there are no clauses.
#[derive(Clone, Copy, Debug, PartialEq, Eq, Error)]
pub enum EncodeError {
    /// The bytes are refused, by this error of `Aig::from_aiger`.
    #[error("{0}")]
    Read(ReadError),
    /// Memory was refused after the reading.
    #[error("out of memory")]
    Memory,
    /// The circuit with its further steps may pass the limit.
    #[error("unrolled circuit may pass the limit")]
    TooLarge,
}

impl From<ReadError> for EncodeError {
    ghost from_gives = { λ e r. r ≡ errors.Read e };

    fn from(error: ReadError) -> EncodeError {
        EncodeError::Read(error)
    }
}

impl From<MemoryError> for EncodeError {
    ghost from_gives = { λ _ r. r ≡ errors.Memory };

    fn from(_error: MemoryError) -> EncodeError {
        EncodeError::Memory
    }
}

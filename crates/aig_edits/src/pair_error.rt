//! Why nothing is made of two files.

ghost use Rattle.std.specs.Prelude.{◌≡◌};
ghost use Rattle.aig_edits.specs.declared.pair_error.PairError.TheVariants as errors;

use crate::misfit::Misfit;
use aig_base::{MemoryError, StreamFault};
use aig_reader::ReadError;
use thiserror::Error;

/// Why nothing is made of two files.
#[derive(Clone, Copy, Debug, PartialEq, Eq, Error)]
pub enum PairError {
    /// The first file is refused. The second one wasn't read.
    #[error("{0}")]
    Read(ReadError),
    /// The second file is refused.
    #[error("other file: {0}")]
    Other(ReadError),
    /// The counts of the files' inputs, latches, outputs or bad literals don't fit.
    #[error("files do not fit: {0}")]
    Misfit(Misfit),
    /// The joint circuit is too large for the format.
    #[error("too large for the format")]
    TooLarge,
    /// Memory was refused after the reading.
    #[error("out of memory")]
    Memory,
    /// The writer failed in this call.
    #[error("write failed")]
    Write,
}

impl From<ReadError> for PairError {
    ghost from_gives = { λ e r. r ≡ errors.Read e };

    /// A fault of the first file.
    fn from(error: ReadError) -> PairError {
        PairError::Read(error)
    }
}

impl From<MemoryError> for PairError {
    ghost from_gives = { λ _ r. r ≡ errors.Memory };

    fn from(_error: MemoryError) -> PairError {
        PairError::Memory
    }
}

impl From<StreamFault> for PairError {
    ghost from_gives = { λ _ r. r ≡ errors.Write };

    fn from(_fault: StreamFault) -> PairError {
        PairError::Write
    }
}

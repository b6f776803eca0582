//! Why a witness is not read.

ghost use Rattle.std.specs.Prelude.{◌≡◌};
ghost use Rattle.aig_witness.specs.declared.error.WitnessError.TheVariants as errors;

use aig_base::StreamFault;
use std::alloc::AllocError;
use thiserror::Error;

/// Why a witness is not read.
#[derive(Clone, Copy, Debug, PartialEq, Eq, Error)]
pub enum WitnessError {
    /// Memory ran out.
    #[error("out of memory")]
    Memory,
    /// A read failed.
    #[error("read failed")]
    Stream,
    /// The first line is not the status `1`.
    #[error("no status line 1")]
    Status,
    /// The second line is not the letter of a kind of property, `b` or where they are taken `j`, and a number.
    #[error("bad property line")]
    Property,
    /// A line of values has another letter than `0`, `1` and `x`, or the stream ended before the line of a point.
    #[error("bad line of values")]
    Values,
}

impl From<AllocError> for WitnessError {
    ghost from_gives = { λ _ r. r ≡ errors.Memory };

    fn from(_error: AllocError) -> WitnessError {
        WitnessError::Memory
    }
}

impl From<StreamFault> for WitnessError {
    ghost from_gives = { λ _ r. r ≡ errors.Stream };

    fn from(_fault: StreamFault) -> WitnessError {
        WitnessError::Stream
    }
}

//! Why there is no circuit to ask about.

ghost use Rattle.std.specs.Prelude.{◌≡◌};
ghost use Rattle.aig_subjects.specs.declared.error.SubjectError.TheVariants as errors;

use aig_edits::{EditError, PairError};
use thiserror::Error;

/// Why there is no circuit to ask about.
#[derive(Clone, Copy, Debug, PartialEq, Eq, Error)]
pub enum SubjectError {
    /// FILE is refused, or nothing is made of it. No file behind it was read.
    #[error(transparent)]
    File(EditError),
    /// FILE or OTHER is refused, or there is no miter of them. No certificate was read.
    #[error(transparent)]
    Pair(PairError),
    /// The certificate is refused, or it doesn't fit what it stands beside.
    #[error(transparent)]
    Certificate(PairError),
}

impl From<EditError> for SubjectError {
    ghost from_gives = { λ e r. r ≡ errors.File e };

    fn from(error: EditError) -> SubjectError {
        SubjectError::File(error)
    }
}

impl From<PairError> for SubjectError {
    ghost from_gives = { λ e r. r ≡ errors.Pair e };

    fn from(error: PairError) -> SubjectError {
        SubjectError::Pair(error)
    }
}

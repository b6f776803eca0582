//! Which leaves of a witness circuit stand for leaves of a model.

mod error;
mod laws;
mod marks;
mod named;
mod naming;
mod shared;

pub use error::SharingError;
pub use laws::shared_leaves_are_one;
pub use shared::shared_leaves;

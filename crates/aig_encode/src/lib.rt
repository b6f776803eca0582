//! From the bytes of an AIGER file to clauses, for bounded model checkers.
#![tactic(auto)]

mod encoding;
mod error;
mod queries;
mod query_clauses;

pub use encoding::{Encoded, encode};
pub use error::EncodeError;
pub use queries::query;
pub use query_clauses::Query;

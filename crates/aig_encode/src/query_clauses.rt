//! A query: an encoded circuit and its query clauses.

use crate::encoding::Encoded;
use aig_base::LitVvec;

/// What `query` returns: an encoded circuit, and the query clauses.
#[derive(Drop)]
pub struct Query {
    /// The circuits and their clauses.
    pub encoded: Encoded,
    /// The query clauses, of variables of `encoded.clauses`.
    pub extra: LitVvec,
}

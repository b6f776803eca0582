//! What is told of a refusal, and beside an answer.

pub(crate) mod advising;
pub(crate) mod explaining;
pub(crate) mod noticing;
pub(crate) mod places;
pub(crate) mod subjects;

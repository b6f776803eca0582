//! Finds hints: the clauses along which unit propagation shows that a further clause follows.
//!
//! Nothing is claimed of what is found, and whoever takes hints checks them. So the functions of
//! this module have no clauses beyond those that a caller's memory and time rest on: each is safe
//! and ends. A place or a literal that isn't there is read as one that says nothing.

mod clauses;
mod index;
mod longs;
mod marked;
mod needed;
mod search;
mod shorts;
mod trail;
mod watches;

pub use search::Search;

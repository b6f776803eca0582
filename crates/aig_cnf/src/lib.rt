//! Clauses that say of a circuit's gates what their values are, by the Tseitin encoding.
#![tactic(auto)]

mod cnf;
mod form;
mod laws;
mod marks;
mod needed;

pub use cnf::encode;
pub use form::{Form, find_form};
pub use laws::{clauses_are_one, clauses_fix_roots, literals_have_edge_values};
pub use needed::{NeededGates, find_needed};

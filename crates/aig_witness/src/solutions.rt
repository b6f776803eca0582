//! From a solver's answer to a query to a witness of a bad state.

mod answer;
mod checked;
mod error;
mod laws;
mod places;
mod reading;
mod values;
mod witness;
mod words;

pub use checked::checked_witness;
pub use error::SolutionError;
pub use laws::{solutions_are_read, solutions_show};
pub use places::{HasLeaves, Places};
pub use reading::read_solution;
pub use witness::witness_of;

//! Witnesses of justice properties, in the form of AIGER 1.9: whether they show fair lassos of circuits and of the machines of AIGER
//! files; and witnesses of properties of either kind.

mod circuit;
mod fault;
mod file;
mod laws;
mod loops;

pub use circuit::check_lasso;
pub use fault::LassoFault;
pub use file::{ClaimError, ShownLasso, ShownProperty, check_claim};
pub use laws::{known_lassos_show, shown_lassos_are_fair, wrong_lassos_show_nothing};

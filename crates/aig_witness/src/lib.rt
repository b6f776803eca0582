//! Witnesses of bad states and of justice properties, in the form of AIGER 1.9: their text, which is read from any source and written to
//! any sink, and whether they show bad states or fair lassos of circuits and of the machines of AIGER files. From a solver's answer to a
//! query to a witness.
#![tactic(auto)]

mod circuit;
mod error;
mod fair;
mod fault;
mod file;
mod laws;
mod reading;
mod showing;
mod solutions;
mod witness;
mod writing;

pub use circuit::{all_true, check_circuit, check_steps, starts};
pub use error::WitnessError;
pub use fair::{
    ClaimError, LassoFault, ShownLasso, ShownProperty, check_claim, check_lasso, known_lassos_show,
    shown_lassos_are_fair, wrong_lassos_show_nothing,
};
pub use fault::WitnessFault;
pub use file::{ShowError, Shown, check_witness};
pub use laws::{claims_are_spelled, witnesses_are_read, witnesses_are_spelled};
pub use reading::{read_claim, read_witness};
pub use showing::{
    given_witnesses_are_known, known_witnesses_show, witnesses_are_unsafe,
    wrong_witnesses_show_nothing,
};
pub use solutions::{
    HasLeaves, Places, SolutionError, checked_witness, read_solution, solutions_are_read,
    solutions_show, witness_of,
};
pub use witness::{Claim, PropertyKind, Witness};
pub use writing::write_witness;

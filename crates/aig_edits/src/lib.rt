//! What is made of AIGER files and printed as AIGER text again: from the bytes of the files to those of the text.
#![tactic(auto)]

mod edit_error;
mod editing;
mod format;
mod info;
mod joining;
mod living;
mod misfit;
mod pair_error;
mod pairing;
mod printing_edits;
mod printing_joints;
mod printing_question;
mod printing_reduction;
mod reading_beside;
mod reading_pairs;
mod reducing;
mod rounding;
mod words;

pub use aig_edit_laws::Fairness;
pub use aig_join::{Comparison, Constraints, Matching, Starts};
pub use edit_error::EditError;
pub use editing::Edit;
pub use info::{Counts, print_info, write_info};
pub use joining::read_joint;
pub use living::{print_live, read_live, write_live};
pub use misfit::Misfit;
pub use pair_error::PairError;
pub use pairing::Pairing;
pub use printing_edits::{print_edit, read_edit, write_edit};
pub use printing_joints::{print_joint, write_joint};
pub use printing_question::{print_question, write_question};
pub use printing_reduction::{print_reduction, write_reduction};
pub use reading_beside::read_beside;
pub use rounding::{print_rounds, read_rounds, write_rounds};
pub use words::constraints_first;

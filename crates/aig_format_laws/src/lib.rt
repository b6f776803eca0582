//! Laws of AIGER files: how variables are numbered, what a file's circuit is, and that what is written is read again.
#![tactic(auto)]

mod numbering;
mod reading;
mod writing;

pub use numbering::{levels_follow_operands, numbers_follow_levels, text_files_are_well_founded};
pub use reading::{files_are_circuits, inputs_determine_runs, joins_runs};
pub use writing::{binary_is_read, written_is_read};

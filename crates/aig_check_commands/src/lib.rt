//! The commands of `aigcheck`: which words give them, what they do with the bytes of files, and the title of what they print.
#![tactic(auto)]

mod acting;
mod checks;
mod command;
mod error;
mod file_subjects;
mod inputs;
mod laws;
mod lines;
mod refusals;

pub use acting::act;
pub use checks::bounded::print_witness_to;
pub use checks::checked::print_checked;
pub use checks::pairs::print_obligations;
pub use checks::printing::print_witness;
pub use checks::questions::print_question;
pub use checks::run::print_run;
pub use checks::simulated::{print_obligation, print_simulated};
pub use command::{Asked, Command, FileCommand, USAGE, parse};
pub use error::CheckError;
pub use laws::printed_clauses_are_checked;
pub use refusals::advising::advise;
pub use refusals::explaining::explain;
pub use refusals::noticing::notice;

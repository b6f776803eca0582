//! The commands of `aigedit`: their arguments, and their effect on the bytes of files.
#![tactic(auto)]

mod acting;
mod command;
mod explaining;
mod noticing;
mod subjects;

pub use acting::{CommandError, VERSION, act};
pub use command::{Action, Call, Command, FileCommand, USAGE, call_of};
pub use explaining::explain;
pub use noticing::notice;

//! The commands of `aigtool`: which words give them, and what they do with the bytes of files.
#![tactic(auto)]

mod acting;
mod clauses;
mod command;
mod tool;

pub use acting::{Commit, Outs, act};
pub use command::{Command, parse};
pub use tool::{LIMIT, ToolError, run};

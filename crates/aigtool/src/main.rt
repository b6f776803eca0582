//! `aigtool` prints and converts AIGER files, and prints the clauses of their circuits.
#![tactic(auto)]

mod output;
mod outs;
mod part;
mod place;
mod system;
mod target;

use crate::outs::SystemOuts;
use aig_command_line::{FlushedWriter, StandardError, SystemFiles, end, words};
use aig_tool_commands::act;
pub use aig_tool_commands::{Command, ToolError, parse, run};
use std::io;
use std::process::ExitCode;

const USAGE: &str =
    "usage: aigtool text FILE, binary FILE OUT, strash FILE, cnf FILE K [raw], query FILE K [raw]";

fn main(rt: HostRuntime) -> ExitCode {
    let ending = act(
        rt.alloc(),
        &words(&rt),
        &SystemFiles::new(&rt),
        &SystemOuts::new(&rt),
        &mut FlushedWriter::new(io::writer(&rt)),
    );
    ExitCode::from(end("aigtool", USAGE, &ending, &mut StandardError::new(&rt)))
}

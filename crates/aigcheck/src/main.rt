//! `aigcheck` checks proofs and witnesses about the machines of AIGER files, and prints the clauses that such proofs are of.
#![tactic(auto)]

use aig_check_commands::{USAGE, act, advise, explain, notice};
pub use aig_check_commands::{
    CheckError, Command, FileCommand, parse, print_checked, print_obligations, print_question,
    print_run, print_witness, print_witness_to,
};
use aig_command_line::{
    FlushedWriter, StandardError, SystemFiles, Watch, WatchedFiles, end, words,
};
use std::io;
use std::process::ExitCode;

fn main(rt: HostRuntime) -> ExitCode {
    let words = words(&rt);
    let watch = Watch::new();
    let files = WatchedFiles::new(SystemFiles::new(&rt), &watch);
    let mut out = FlushedWriter::new(io::writer(&rt));
    let mut errors = StandardError::new(&rt);
    let ending = act(rt.alloc(), &words, &files, &mut out);
    let told = explain(rt.alloc(), &words, &files, ending);
    let status = end("aigcheck", USAGE, &told, &mut errors);
    notice(&words, watch.headers(), ending, &mut errors);
    advise(ending, &mut errors);
    ExitCode::from(status)
}

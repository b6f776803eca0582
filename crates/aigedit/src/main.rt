//! `aigedit` prints what it makes of AIGER files: of one file a changed circuit, of two their joint circuit.
#![tactic(auto)]

use aig_command_line::{
    FlushedWriter, StandardError, SystemFiles, Watch, WatchedFiles, end, words,
};
use aig_edit_commands::{USAGE, act, explain, notice};
use std::io;
use std::process::ExitCode;

fn main(rt: HostRuntime) -> ExitCode {
    let words = words(&rt);
    let watch = Watch::new();
    let files = WatchedFiles::new(SystemFiles::new(&rt), &watch);
    let mut out = FlushedWriter::new(io::writer(&rt));
    let mut errors = StandardError::new(&rt);
    let ending = act(rt.alloc(), &words, &files, &mut out);
    let told = explain(&words, ending);
    let status = end("aigedit", USAGE, &told, &mut errors);
    notice(&words, watch.headers(), ending, &mut errors);
    ExitCode::from(status)
}

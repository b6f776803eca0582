//! What the program does with its words.

ghost use Rattle.std.specs.Prelude.{◌≡◌, ◌≤◌, Bool, IfOk, IfSome, IsErr, IsNone, IsTrue, List, OnOk, Option, Result, ℕ, length, map, string_bytes};
ghost use Rattle.aig_command_line.specs.declared.status.Ending.TheVariants as endings;
ghost use Rattle.aig_tool_commands.specs.Acting.{Acts, Converts, Obeys, PrintsOn, RunsOn, WritesTo, unopened};
ghost use Rattle.aig_tool_commands.specs.declared.command.Command.{Command};
ghost use Rattle.aig_tool_commands.specs.declared.tool.ToolError.{ToolError};

use crate::command::{Command, call};
use crate::tool::{ToolError, run};
use aig::{ReadError, WriteError};
use aig_base::{MemoryError, Sink};
use aig_command_line::{Ending, Flush, OpenError, Opens};
use std::alloc::Global;

/// A sink whose bytes get to their place only when it is committed.
pub trait Commit: Sink {
    /// Whether they are in their place.
    ghost committed: { Self → Bool };

    /// Whether there was nothing to write to.
    ghost refused: { Self → Bool };

    /// Lets what was written whole take its place.
    fn commit(self) -> Result<(), WriteError>
        ensures { OnOk result (IsTrue (committed self)) };

    /// Takes away what was written, and says whether there was nothing to write to.
    fn discard(self) -> bool
        ensures { result ≡ refused self };
}

/// Where OUT leads.
pub trait Outs<'a> {
    /// What is written to it.
    type Out: Commit;

    /// Where a path leads.
    ghost leads: { Self → List ℕ → Result (Option Self.Out) ToolError → Type 0 };

    /// Finds where a path leads: to a sink, or, where it gives none, to standard output.
    fn find(&self, path: &'a str) -> Result<Option<Self::Out>, ToolError>
        ensures { leads self.now path.now result };
}

/// What a file that isn't opened is refused for.
impl From<OpenError> for ToolError {
    ghost from_gives = { λ error e. e ≡ unopened error };

    fn from(error: OpenError) -> ToolError {
        match error {
            OpenError::Refused => ToolError::Read(ReadError::Open),
        }
    }
}

/// Runs a command on the file at a path.
fn run_on<F: Opens, W: Sink>(
    alloc: Global,
    files: &F,
    command: Command,
    path: &str,
    w: &mut W,
) -> Result<(), ToolError>
    ensures { RunsOn (F.opens files.now) F.File.left F.File.failed W.held W.failed command path.now
        w.old result w.new }
{
    let mut file = files.open(path)?;
    run(alloc, command, &mut file, w)
}

/// Runs a command on the file at a path, and flushes what it prints.
fn print<F: Opens, W: Flush>(
    alloc: Global,
    files: &F,
    command: Command,
    path: &str,
    w: &mut W,
) -> Result<(), ToolError>
    ensures { PrintsOn (F.opens files.now) F.File.left F.File.failed W.held W.failed W.flushed
        command path.now w.old result w.new }
{
    run_on(alloc, files, command, path, w)?;
    Ok(w.flush()?)
}

/// Writes the binary form of the file at a path to a sink, and commits it.
fn write_to<F: Opens, O: Commit>(
    alloc: Global,
    files: &F,
    path: &str,
    mut out: O,
) -> Result<(), ToolError>
    ensures { WritesTo (F.opens files.now) F.File.left F.File.failed O.held O.failed O.committed
        O.refused path.now out result }
{
    match run_on(alloc, files, Command::Binary, path, &mut out) {
        Ok(()) => Ok(out.commit()?),
        Err(fault) => match out.discard() {
            true => Err(ToolError::Write(WriteError::Open)),
            false => Err(fault),
        },
    }
}

/// Puts the binary form of the file at a path where OUT leads.
fn convert<'a, F: Opens, O: Outs<'a>, W: Flush>(
    alloc: Global,
    files: &F,
    outs: &O,
    path: &str,
    out: &'a str,
    w: &mut W,
) -> Result<(), ToolError>
    ensures { Converts (F.opens files.now) F.File.left F.File.failed W.held W.failed W.flushed
        O.Out.held O.Out.failed O.Out.committed O.Out.refused (O.leads outs.now) path.now out.now
        w.old result w.new }
{
    match outs.find(out)? {
        None => print(alloc, files, Command::Binary, path, w),
        Some(sink) => write_to(alloc, files, path, sink),
    }
}

/// Runs a command on its paths.
fn perform<'a, F: Opens, O: Outs<'a>, W: Flush>(
    alloc: Global,
    files: &F,
    outs: &O,
    command: Command,
    paths: &'a [String],
    w: &mut W,
) -> Result<(), ToolError>
    requires file { 1 ≤ length paths.now }
    requires out { command ≡ Command.Binary → 2 ≤ length paths.now }
    ensures { Acts (F.opens files.now) F.File.left F.File.failed W.held W.failed W.flushed
        O.Out.held O.Out.failed O.Out.committed O.Out.refused (O.leads outs.now)
        command (map string_bytes paths.now) w.old result w.new }
{
    let file = paths[0].as_str();
    match command {
        Command::Binary => convert(alloc, files, outs, file, paths[1].as_str(), w),
        _ => print(alloc, files, command, file, w),
    }
}

/// Does what the words after the program's name ask for: opens FILE, runs the command on it, and flushes `w`, or commits OUT.
fn obey<'a, F: Opens, O: Outs<'a>, W: Flush>(
    alloc: Global,
    words: &'a [String],
    files: &F,
    outs: &O,
    w: &mut W,
) -> Ending<ToolError>
    ensures { Obeys (F.opens files.now) F.File.left F.File.failed W.held W.failed W.flushed
        O.Out.held O.Out.failed O.Out.committed O.Out.refused (O.leads outs.now)
        (map string_bytes words.now) w.old result w.new }
{
    match call(words) {
        Some((command, paths)) => Ending::of(perform(alloc, files, outs, command, paths, w)),
        None => Ending::NoCommand,
    }
}

/// Does what the words after the program's name ask for, as they were read: opens FILE, runs the command on it, and flushes `w`,
/// or commits OUT.
pub fn act<'a, F: Opens, O: Outs<'a>, W: Flush>(
    alloc: Global,
    words: &'a Result<Option<Vec<String>>, MemoryError>,
    files: &F,
    outs: &O,
    w: &mut W,
) -> Ending<ToolError>
    ensures words { IfOk words.now (λ read. IfSome read (λ given.
        Obeys (F.opens files.now) F.File.left F.File.failed W.held W.failed W.flushed
        O.Out.held O.Out.failed O.Out.committed O.Out.refused (O.leads outs.now)
        (map string_bytes given.items) w.old result w.new)) }
    // Words that aren't UTF-8 give no command.
    ensures other { IfOk words.now (λ read. IsNone read
        → (result ≡ endings.NoCommand) × (w.new ≡ w.old)) }
    ensures memory { IsErr words.now
        → (result ≡ endings.Refused ToolError.Memory) × (w.new ≡ w.old) }
{
    match words {
        Ok(Some(words)) => obey(alloc, words.as_slice(), files, outs, w),
        Ok(None) => Ending::NoCommand,
        Err(_) => Ending::Refused(ToolError::Memory),
    }
}

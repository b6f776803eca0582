//! What the commands do with the bytes of a file.

ghost use Rattle.std.specs.Prelude.{◌≡◌, None};
ghost use Rattle.aig_format.specs.Writable.{IsWritable};
ghost use Rattle.aig.specs.declared.aiger.WriteError.TheVariants as write;
ghost use Rattle.aig_tool_commands.specs.declared.tool.ToolError.TheVariants as errors;
ghost use Rattle.aig_tool_commands.specs.Printing.{PrintsBytes, bytes_of};
ghost use Rattle.aig_tool_commands.specs.Running.{Runs, steps_of};

use crate::clauses::{print_clauses, query_clauses, read_unrolled};
use crate::command::Command;
use aig::{Aig, ReadError, WriteError};
use aig_base::{LitVvec, MemoryError, Sink, Source, StreamFault};
use aig_encode::EncodeError;
use std::alloc::Global;
use thiserror::Error;

/// The limit on the nodes of a circuit that the program reads, and of one that it unrolls.
pub const LIMIT: usize = 1 << 24;

const _: () = prove!(LIMIT == 16_777_216);

/// Why the program ends with status 1.
#[derive(Clone, Copy, Debug, PartialEq, Eq, Error)]
pub enum ToolError {
    /// FILE was refused.
    #[error(transparent)]
    Read(ReadError),
    /// FILE was refused, or there are no clauses of it.
    #[error(transparent)]
    Encode(EncodeError),
    /// Memory ran out outside reading, encoding and writing.
    #[error("out of memory")]
    Memory,
    /// The answer wasn't written.
    #[error(transparent)]
    Write(WriteError),
}

impl From<ReadError> for ToolError {
    ghost from_gives = { λ e r. r ≡ errors.Read e };

    fn from(error: ReadError) -> ToolError {
        ToolError::Read(error)
    }
}

impl From<EncodeError> for ToolError {
    ghost from_gives = { λ e r. r ≡ errors.Encode e };

    fn from(error: EncodeError) -> ToolError {
        ToolError::Encode(error)
    }
}

impl From<WriteError> for ToolError {
    ghost from_gives = { λ e r. r ≡ errors.Write e };

    fn from(error: WriteError) -> ToolError {
        ToolError::Write(error)
    }
}

impl From<MemoryError> for ToolError {
    ghost from_gives = { λ _ r. r ≡ errors.Memory };

    fn from(_error: MemoryError) -> ToolError {
        ToolError::Memory
    }
}

impl From<StreamFault> for ToolError {
    ghost from_gives = { λ _ r. r ≡ errors.Write write.Stream };

    fn from(_fault: StreamFault) -> ToolError {
        ToolError::Write(WriteError::Stream)
    }
}

/// Prints a circuit: its binary form for `Binary`, after structural hashing for `Strash`, and else as it is.
fn print_circuit<W: Sink>(circuit: &Aig, c: Command, w: &mut W) -> Result<(), ToolError>
    requires { IsWritable circuit.now }
    ensures { PrintsBytes W.held W.failed c (bytes_of c circuit.now) w.old result w.new }
{
    match c {
        Command::Binary => Ok(circuit.write_binary(w)?),
        Command::Strash => Ok(circuit.strash()?.write_text(w)?),
        _ => Ok(circuit.write_text(w)?),
    }
}

/// Prints a file's circuit as a command does that makes no clauses.
fn print_file<R: Source, W: Sink>(
    alloc: Global,
    c: Command,
    r: &mut R,
    w: &mut W,
) -> Result<(), ToolError>
    requires { steps_of c ≡ None }
    ensures { Runs R.left R.failed W.held W.failed c LIMIT r.old w.old result r.new w.new }
{
    let circuit = Aig::from_aiger(alloc, r, LIMIT)?;
    print_circuit(&circuit, c, w)
}

/// Prints the clauses of a file's circuit that is unrolled by `k` steps.
fn print_cnf<R: Source, W: Sink>(
    alloc: Global,
    k: usize,
    optimize: bool,
    r: &mut R,
    w: &mut W,
) -> Result<(), ToolError>
    ensures { let command = Command.Cnf k optimize in
        Runs R.left R.failed W.held W.failed command LIMIT r.old w.old result r.new w.new }
{
    let read = read_unrolled(alloc, r, LIMIT, k)?;
    let extra = LitVvec::new(alloc);
    print_clauses(alloc, w, &read.unrolled(), optimize, &extra)
}

/// Prints clauses that ask for a run to a bad state after `k` steps.
fn print_query<R: Source, W: Sink>(
    alloc: Global,
    k: usize,
    optimize: bool,
    r: &mut R,
    w: &mut W,
) -> Result<(), ToolError>
    ensures { let command = Command.Query k optimize in
        Runs R.left R.failed W.held W.failed command LIMIT r.old w.old result r.new w.new }
{
    let read = read_unrolled(alloc, r, LIMIT, k)?;
    let extra = query_clauses(alloc, &read)?;
    print_clauses(alloc, w, &read.unrolled(), optimize, &extra)
}

/// Reads FILE's bytes from `r`, and writes to `w` what the command prints, or for `Binary` what it puts into OUT.
///
/// After `Ok` the writer holds what it held and the command's answer to the file that was read, and after a failed write a
/// beginning of that. Every other refusal leaves it as it was.
pub fn run<R: Source, W: Sink>(
    alloc: Global,
    c: Command,
    r: &mut R,
    w: &mut W,
) -> Result<(), ToolError>
    ensures { Runs R.left R.failed W.held W.failed c LIMIT r.old w.old result r.new w.new }
{
    match c {
        Command::Text | Command::Binary | Command::Strash => print_file(alloc, c, r, w),
        Command::Cnf { k, optimize } => print_cnf(alloc, k, optimize, r, w),
        Command::Query { k, optimize } => print_query(alloc, k, optimize, r, w),
    }
}

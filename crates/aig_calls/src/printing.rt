//! Calls that give what a command of `aigtool` prints of a file.

ghost use Rattle.aig_tool_commands.specs.declared.command.Command.TheVariants as commands;
ghost use Rattle.aig_calls.specs.Calls.{GivesResult, GivesAt, Prints, RunsTool};
ghost use Rattle.aig_calls.specs.Statuses.{tool_status};

use crate::buffer::put;
use crate::steps::step_of;
use aig_base::{FromRead, ToWrite};
use aig_tool_commands::{Command, LIMIT, run};
use std::alloc::Global;

/// Gives what a command of `aigtool` puts into its writer.
fn print(alloc: Global, c: Command, file: &[u8], out: &mut [u8], needed: &mut usize) -> u32
    ensures { GivesResult tool_status (Prints (RunsTool LIMIT c file.now)) result out.old out.new
        needed.old needed.new }
{
    let mut source = FromRead::new(file);
    let mut sink = ToWrite::new(Vec::new(alloc));
    let done = run(alloc, c, &mut source, &mut sink);
    put(done, sink, out, needed)
}

/// The text form of a file's circuit.
#[unsafe(no_mangle)]
pub extern "C" fn aig_text(alloc: Global, file: &[u8], out: &mut [u8], needed: &mut usize) -> u32
    ensures { GivesResult tool_status (Prints (RunsTool LIMIT commands.Text file.now)) result
        out.old
        out.new needed.old needed.new }
{
    print(alloc, Command::Text, file, out, needed)
}

/// The binary form of a file's circuit.
#[unsafe(no_mangle)]
pub extern "C" fn aig_binary(alloc: Global, file: &[u8], out: &mut [u8], needed: &mut usize) -> u32
    ensures { GivesResult tool_status (Prints (RunsTool LIMIT commands.Binary file.now)) result
        out.old
        out.new needed.old needed.new }
{
    print(alloc, Command::Binary, file, out, needed)
}

/// The text form of a file's circuit after structural hashing.
#[unsafe(no_mangle)]
pub extern "C" fn aig_strash(alloc: Global, file: &[u8], out: &mut [u8], needed: &mut usize) -> u32
    ensures { GivesResult tool_status (Prints (RunsTool LIMIT commands.Strash file.now)) result
        out.old
        out.new needed.old needed.new }
{
    print(alloc, Command::Strash, file, out, needed)
}

/// The clauses, in DIMACS form, of a file's circuit that is unrolled by `k` steps.
#[unsafe(no_mangle)]
pub extern "C" fn aig_cnf(
    alloc: Global,
    file: &[u8],
    k: u64,
    optimize: bool,
    out: &mut [u8],
    needed: &mut usize,
) -> u32
    ensures { GivesAt k tool_status (Prints (RunsTool LIMIT (commands.Cnf k optimize) file.now))
        result out.old out.new needed.old needed.new }
{
    match step_of(k) {
        Ok(k) => print(alloc, Command::Cnf { k, optimize }, file, out, needed),
        Err(status) => status,
    }
}

/// The clauses, in DIMACS form, that ask for a run of a file's machine to a bad state at step `k`. A file without bad state
/// properties has the query that can't be satisfied.
#[unsafe(no_mangle)]
pub extern "C" fn aig_query(
    alloc: Global,
    file: &[u8],
    k: u64,
    optimize: bool,
    out: &mut [u8],
    needed: &mut usize,
) -> u32
    ensures { GivesAt k tool_status (Prints (RunsTool LIMIT (commands.Query k optimize) file.now))
        result out.old out.new needed.old needed.new }
{
    match step_of(k) {
        Ok(k) => print(alloc, Command::Query { k, optimize }, file, out, needed),
        Err(status) => status,
    }
}

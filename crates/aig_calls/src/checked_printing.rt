//! Calls that give what a command of `aigcheck` prints of a file.

ghost use Rattle.std.specs.Prelude.{◌<◌, ◌^◌};
ghost use Rattle.aig_answers.specs.Plans.{asked_with};
ghost use Rattle.aig_answers.specs.declared.plans.asking.Ask.TheVariants as asks;
ghost use Rattle.aig_answers.specs.Goals.{goal_of, last_step};
ghost use Rattle.aig_check_commands.specs.declared.command.FileCommand.TheVariants as commands;
ghost use Rattle.aig_calls.specs.Calls.{GivesAt, GivesResult, Prints, RunsClauses, RunsOn, form_of};
ghost use Rattle.aig_calls.specs.Statuses.{check_status};

use crate::buffer::put;
use crate::steps::{step_of, window_form};
use aig_answers::{Ask, Question};
use aig_base::{FromRead, ToWrite};
use aig_check_commands::{print_question, print_witness, print_witness_to};
use aig_subjects::FileSubject;
use aig_tool_commands::LIMIT;
use std::alloc::Global;

/// Gives the clauses of a question of a file's circuit, in DIMACS form and behind their title.
fn print(
    alloc: Global,
    file: &[u8],
    ask: Ask,
    optimize: bool,
    out: &mut [u8],
    needed: &mut usize,
) -> u32
    requires { last_step (goal_of ask) < 2 ^ 32 }
    ensures { GivesResult check_status (Prints (RunsClauses LIMIT (asked_with optimize ask)
        file.now)) result out.old out.new needed.old needed.new }
{
    let question = Question { ask, optimize };
    let source = FromRead::new(file);
    let mut sink = ToWrite::new(Vec::new(alloc));
    let done = print_question(alloc, LIMIT, FileSubject::Own, question, source, &mut sink);
    put(done, sink, out, needed)
}

/// The clauses of the query of a file for step `k`, in DIMACS form. Before them stand their title, with the SHA-256 sum of the file, and
/// comments that say which literals stand for its inputs, latches and bad state properties.
#[unsafe(no_mangle)]
pub extern "C" fn aig_clauses(
    alloc: Global,
    file: &[u8],
    k: u64,
    optimize: bool,
    out: &mut [u8],
    needed: &mut usize,
) -> u32
    ensures { GivesAt k check_status (Prints (RunsClauses LIMIT (asked_with optimize (asks.Step k))
        file.now)) result out.old out.new needed.old needed.new }
{
    match step_of(k) {
        Ok(k) => print(alloc, file, Ask::Step(k), optimize, out, needed),
        Err(status) => status,
    }
}

/// The clauses, in DIMACS form and behind their title, that ask for a window of `k + 2` steps of a file's machine with a bad state first at
/// its end; where `distinct`, for one on which no state comes twice.
#[unsafe(no_mangle)]
pub extern "C" fn aig_window(
    alloc: Global,
    file: &[u8],
    k: u64,
    distinct: bool,
    optimize: bool,
    out: &mut [u8],
    needed: &mut usize,
) -> u32
    ensures { GivesAt k check_status (Prints (RunsClauses LIMIT
        (asked_with optimize (asks.Window k (form_of distinct))) file.now)) result out.old out.new
        needed.old needed.new }
{
    match step_of(k) {
        Ok(k) => {
            let ask = Ask::Window(k, window_form(distinct));
            print(alloc, file, ask, optimize, out, needed)
        }
        Err(status) => status,
    }
}

/// The clauses, in DIMACS form, that ask for a bad state of a file's machine at a step up to `k`, and before them comments that say
/// what each input of the question is.
#[unsafe(no_mangle)]
pub extern "C" fn aig_bounded(
    alloc: Global,
    file: &[u8],
    k: u64,
    optimize: bool,
    out: &mut [u8],
    needed: &mut usize,
) -> u32
    ensures { GivesAt k check_status (Prints (RunsClauses LIMIT (asked_with optimize (asks.UpTo k))
        file.now)) result out.old out.new needed.old needed.new }
{
    match step_of(k) {
        Ok(k) => print(alloc, file, Ask::UpTo(k), optimize, out, needed),
        Err(status) => status,
    }
}

/// The witness that a solver's answer to the query of a file for step `k` says. It was checked: nothing of the answer is trusted, and
/// a status of an answer that is refused says why.
#[unsafe(no_mangle)]
pub extern "C" fn aig_witness(
    alloc: Global,
    file: &[u8],
    k: u64,
    optimize: bool,
    solution: &[u8],
    out: &mut [u8],
    needed: &mut usize,
) -> u32
    ensures { GivesAt k check_status (Prints (RunsOn LIMIT (commands.Witness k optimize) file.now
        solution.now)) result out.old out.new needed.old needed.new }
{
    match step_of(k) {
        Ok(k) => {
            let mut source = FromRead::new(file);
            let mut answer = FromRead::new(solution);
            let mut sink = ToWrite::new(Vec::new(alloc));
            let done = print_witness(
                alloc,
                LIMIT,
                k,
                optimize,
                &mut source,
                &mut answer,
                &mut sink,
            );
            put(done, sink, out, needed)
        }
        Err(status) => status,
    }
}

/// The witness that a solver's answer to the clauses of a file's question up to step `k` says, up to the first step with a bad state.
/// It was checked: nothing of the answer is trusted, and a status of an answer that is refused says why.
#[unsafe(no_mangle)]
pub extern "C" fn aig_witness_to(
    alloc: Global,
    file: &[u8],
    k: u64,
    optimize: bool,
    solution: &[u8],
    out: &mut [u8],
    needed: &mut usize,
) -> u32
    ensures { GivesAt k check_status (Prints (RunsOn LIMIT (commands.WitnessTo k optimize) file.now
        solution.now)) result out.old out.new needed.old needed.new }
{
    match step_of(k) {
        Ok(k) => {
            let mut source = FromRead::new(file);
            let mut answer = FromRead::new(solution);
            let mut sink = ToWrite::new(Vec::new(alloc));
            let done = print_witness_to(
                alloc,
                LIMIT,
                k,
                optimize,
                &mut source,
                &mut answer,
                &mut sink,
            );
            put(done, sink, out, needed)
        }
        Err(status) => status,
    }
}

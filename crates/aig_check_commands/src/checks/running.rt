//! What a command does with the files that were opened for it.

ghost use Rattle.std.specs.Prelude.{◌≡◌, ◌∷◌, ◌<◌, ◌^◌, [], IsTrue, List, length};
ghost use Rattle.std.specs.Borrow.{Array, LendsBoth, sem};
ghost use Rattle.std.specs.List.{IsFirstAndRest};
ghost use Rattle.aig_command_line.specs.Limits.{IsLimit};
ghost use Rattle.aig_subjects.specs.declared.subject.FileSubject.TheVariants.{Own};
ghost use Rattle.aig_check_commands.specs.Acting.{RanAll, RanOn};
ghost use Rattle.aig_check_commands.specs.Fits.{AreFor};
ghost use Rattle.aig_check_commands.specs.FileSubjects.{is_asked};
ghost use Rattle.aig_check_commands.specs.CommandWords.{beside_of, prints, step_of};

use crate::checks::bounded::print_witness_to;
use crate::checks::checked::print_checked;
use crate::checks::pairs::print_obligations;
use crate::checks::printing::print_witness;
use crate::checks::questions::print_question;
use crate::checks::run::print_run;
use crate::checks::simulated::{print_obligation, print_simulated};
use crate::command::{Asked, Command, FileCommand};
use crate::error::CheckError;
use crate::file_subjects::subject_of;
use aig_base::{Sink, Source};
use aig_subjects::FileSubject;
use std::alloc::Global;

/// The first of some inputs, and the others.
fn first_of<S>(inputs: &mut [S]) -> (&mut S, &mut [S])
    requires { 0 < length inputs.old }
    ensures* writes_back { sem 𝓛 (LendsBoth (Array S.row 0) S.row (Array S.row 0) inputs.entry
        result ◌∷◌) }
    ensures first { IsFirstAndRest inputs.old result.0.now result.1.now }
{
    let (first, others) = inputs.split_at_mut(1);
    (&mut first[0], others)
}

/// Runs a command on a file and on what is given beside it.
fn check_file<S: Source, W: Sink>(
    alloc: Global,
    limit: usize,
    command: FileCommand,
    file: &mut S,
    inputs: &mut [S],
    w: &mut W,
) -> Result<(), CheckError>
    requires limit { IsLimit limit }
    requires one { length inputs.old ≡ 1 }
    requires small { step_of (Command.File command) < 2 ^ 32 }
    ensures { RanAll S.left S.failed W.held W.failed limit Own (Command.File command)
        (file.old ∷ inputs.old) w.old result (file.new ∷ inputs.new) w.new }
{
    let (given, _) = first_of(inputs);
    match command {
        FileCommand::Witness { k, optimize } => print_witness(
            alloc, limit, k, optimize, file, given, w,
        ),
        FileCommand::Run => print_run(alloc, limit, file, given, w),
        FileCommand::WitnessTo { k, optimize } => {
            print_witness_to(alloc, limit, k, optimize, file, given, w)
        }
    }
}

/// Checks proofs for the conditions of a witness circuit, which is the first of the files behind FILE.
fn check_witness<S: Source, W: Sink>(
    alloc: Global,
    limit: usize,
    own: FileSubject,
    optimize: bool,
    file: &mut S,
    inputs: &mut [S],
    w: &mut W,
) -> Result<(), CheckError>
    requires limit { IsLimit limit }
    requires all { length inputs.old ≡ 6 }
    ensures { RanAll S.left S.failed W.held W.failed limit own (Command.Simulated optimize)
        (file.old ∷ inputs.old) w.old result (file.new ∷ inputs.new) w.new }
{
    let (witness, proofs) = first_of(inputs);
    let (reset, proofs) = first_of(proofs);
    let (transition, proofs) = first_of(proofs);
    let (property, proofs) = first_of(proofs);
    let (base, proofs) = first_of(proofs);
    let (step, _) = first_of(proofs);
    print_simulated(
        alloc, limit, own, optimize, file, witness, reset, transition, property, base, step, w,
    )
}

/// Runs what is asked on files, of which the first is FILE, where that checks what is given beside them.
pub(crate) fn check_asked<S: Source, W: Sink>(
    alloc: Global,
    limit: usize,
    asked: Asked,
    files: &mut [S],
    w: &mut W,
) -> Result<(), CheckError>
    requires limit { IsLimit limit }
    requires asked { IsTrue (is_asked asked.subject asked.command) }
    requires checks { 0 < beside_of asked.command }
    requires fits { AreFor asked.command files.old }
    requires small { step_of asked.command < 2 ^ 32 }
    ensures { RanOn S.left S.failed W.held W.failed limit asked files.old w.old result files.new
        w.new }
{
    match asked.command {
        Command::Check {
            subject,
            goal,
            base_optimize,
            step_optimize,
        } => {
            let subject = subject_of(asked.subject, subject);
            let (files, proofs) = files.split_at_mut(subject.file_count());
            print_checked(
                alloc,
                limit,
                subject,
                goal,
                base_optimize,
                step_optimize,
                files,
                proofs,
                w,
            )
        }
        Command::File(command) => {
            let (file, inputs) = first_of(files);
            check_file(alloc, limit, command, file, inputs, w)
        }
        Command::Simulated { optimize } => {
            let (file, inputs) = first_of(files);
            check_witness(alloc, limit, asked.subject, optimize, file, inputs, w)
        }
        _ => unreachable!(),
    }
}

/// Whether a command prints clauses, and takes nothing beside its files.
fn prints(command: Command) -> bool
    ensures { result ≡ prints command }
{
    matches!(
        command,
        Command::Print(_) | Command::Obligations { .. } | Command::Obligation { .. }
    )
}

/// The only one of some files.
fn only<S: Drop>(mut files: Vec<S>) -> S
    requires { length files.items ≡ 1 }
    ensures { files.items ≡ result ∷ [] }
{
    match files.pop() {
        Some(file) => file,
        None => unreachable!(),
    }
}

/// Runs what is asked on files, of which the first is FILE.
pub(crate) fn run<S: Source + Drop, W: Sink>(
    alloc: Global,
    limit: usize,
    asked: Asked,
    mut files: Vec<S>,
    w: &mut W,
) -> Result<(), CheckError>
    requires limit { IsLimit limit }
    requires asked { IsTrue (is_asked asked.subject asked.command) }
    requires fits { AreFor asked.command files.items }
    requires small { step_of asked.command < 2 ^ 32 }
    ensures { (others : List S) × RanOn S.left S.failed W.held W.failed limit asked files.items
        w.old result others w.new }
{
    if !prints(asked.command) {
        return check_asked(alloc, limit, asked, files.as_mut_slice(), w);
    }
    let file = files.remove(0);
    let own = asked.subject;
    match asked.command {
        Command::Print(question) => print_question(alloc, limit, own, question, file, w),
        Command::Obligations { optimize } => {
            let certificate = only(files);
            print_obligations(alloc, limit, own, optimize, file, certificate, w)
        }
        Command::Obligation {
            condition,
            optimize,
        } => {
            let witness = only(files);
            print_obligation(alloc, limit, own, condition, optimize, file, witness, w)
        }
        _ => unreachable!(),
    }
}

//! Proofs that are checked of a goal.

ghost use Rattle.std.specs.Prelude.{◌≡◌, ◌<◌, ◌≤◌, ◌^◌, IfErr, length};
ghost use Rattle.aig_answers.specs.Goals.{ChecksGoal, IsErrorOf, fault_of, last_step, proof_count};
ghost use Rattle.aig_subjects.specs.Subjects.{file_count};

use crate::goals::error::{GoalError, GoalFault};
use crate::goals::goal::{Goal, plan_of};
use crate::plans::{check_circuit, command_plans_cover, covering_plans_are_safe};
use aig_base::Source;
use aig_format_laws::files_are_circuits;
use aig_runs::{inductive_windows_are_safe, safe_circuits_are_safe_machines, safe_steps_are_safe};
use aig_subjects::{Subject, read_subject, safe_subjects_show, subjects_are_of_files};
use std::alloc::Global;

/// Checks proofs of a goal, without its name in an error.
fn check_subject<S: Source, P: Source>(
    alloc: Global,
    limit: usize,
    subject: Subject,
    goal: Goal,
    base_optimize: bool,
    step_optimize: bool,
    files: &mut [S],
    proofs: &mut [P],
) -> Result<(), GoalFault>
    requires some { 1 ≤ limit }
    requires few { limit ≤ 2 ^ 31 }
    requires small { last_step goal < 2 ^ 32 }
    requires files { length files.old ≡ file_count subject }
    requires proofs { length proofs.old ≡ proof_count goal }
    ensures { ChecksGoal S.left S.failed P.left P.failed limit subject goal base_optimize
        step_optimize files.old proofs.old result files.new proofs.new }
{
    command_plans_cover();
    covering_plans_are_safe();
    inductive_windows_are_safe();
    safe_circuits_are_safe_machines();
    safe_steps_are_safe();
    safe_subjects_show();
    subjects_are_of_files();
    let circuit = read_subject(alloc, subject, files, limit)?;
    let plan = plan_of(alloc, goal, base_optimize, step_optimize)?;
    check_circuit(alloc, circuit, limit, plan.as_slice(), proofs)?;
    Ok(())
}

/// Reads the files of a subject in the AIGER format, and checks proofs of a goal, in the LRAT or the DRAT format: one for each question of
/// its plan, in order, of the clauses of the subject's circuit. Questions of steps have the first setting, and those of windows the second.
/// Requires `1 <= limit <= 2^31`, and a step below 2^32.
///
/// A certificate is shown by the steps 0 to 0 and a plain window, each with a proof. It is a witness circuit, as the hardware model
/// checking competition has it, whose resets are constants or open: its first inputs and latches are those of the circuit that it stands
/// beside, in order, and its bad states, and states that don't meet its constraints, are bad beside those of that circuit.
///
/// # Errors
///
/// - `Subject`: a file is refused, or there is no circuit of the subject. No proof is read.
/// - `Memory`: memory was refused for the plan. No proof is read.
/// - `Plan`: nothing is asked of the circuit, or there is no room for it, and no proof is read; or a proof is refused, and none after it is
///   read.
pub fn check_goal<S: Source, P: Source>(
    alloc: Global,
    limit: usize,
    subject: Subject,
    goal: Goal,
    base_optimize: bool,
    step_optimize: bool,
    files: &mut [S],
    proofs: &mut [P],
) -> Result<(), GoalError>
    requires some { 1 ≤ limit }
    requires few { limit ≤ 2 ^ 31 }
    requires small { last_step goal < 2 ^ 32 }
    requires files { length files.old ≡ file_count subject }
    requires proofs { length proofs.old ≡ proof_count goal }
    // The bytes that were read are files, of which the goal is so. Where the proofs are looked at, the answer is what their texts show of
    // the clauses of the plan's questions. A refusal says why.
    ensures checks { ChecksGoal S.left S.failed P.left P.failed limit subject goal base_optimize
        step_optimize files.old proofs.old (fault_of result) files.new proofs.new }
    // An error names the subject and the goal.
    ensures named { IfErr result (IsErrorOf subject goal) }
{
    match check_subject(
        alloc,
        limit,
        subject,
        goal,
        base_optimize,
        step_optimize,
        files,
        proofs,
    ) {
        Ok(()) => Ok(()),
        Err(fault) => Err(GoalError {
            subject,
            goal,
            fault,
        }),
    }
}

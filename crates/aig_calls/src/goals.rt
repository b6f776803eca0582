//! Checking a goal of the caller's files by the caller's proofs.

ghost use Rattle.std.specs.Prelude.{◌≡◌, ◌∷◌, [], length};
ghost use Rattle.aig_answers.specs.Goals.{proof_count};
ghost use Rattle.aig_subjects.specs.Subjects.{file_count};
ghost use Rattle.aig_subjects.specs.declared.subject.Subject.TheVariants as subjects;
ghost use Rattle.aig_calls.specs.Checking.{ChecksBytes};

use crate::status::{MANY_STEPS, status_of};
use aig_answers::{Goal, check_goal};
use aig_command_line::InMemory;
use aig_subjects::{FileSubject, Subject};
use aig_tool_commands::LIMIT;
use std::alloc::Global;

/// Checks proofs of a goal, where its step is below 2^32, and says by a status how that ended.
pub(crate) fn check(
    alloc: Global,
    subject: Subject,
    goal: Goal,
    base_optimize: bool,
    step_optimize: bool,
    files: &mut [InMemory<'_>],
    proofs: &mut [InMemory<'_>],
) -> u32
    requires files { length files.old ≡ file_count subject }
    requires proofs { length proofs.old ≡ proof_count goal }
    ensures { ChecksBytes subject goal base_optimize step_optimize files.old proofs.old result }
{
    if goal.last_step() >= 1 << 32 {
        return MANY_STEPS;
    }
    status_of(check_goal(
        alloc,
        LIMIT,
        subject,
        goal,
        base_optimize,
        step_optimize,
        files,
        proofs,
    ))
}

/// Checks a proof of a goal that has one question, of what is made of one file.
pub(crate) fn check_proof(
    alloc: Global,
    own: FileSubject,
    goal: Goal,
    optimize: bool,
    file: &[u8],
    proof: &[u8],
) -> u32
    requires { proof_count goal ≡ 1 }
    ensures { ChecksBytes (subjects.File own) goal optimize optimize (file.now ∷ [])
        (proof.now ∷ []) result }
{
    check(
        alloc,
        Subject::File(own),
        goal,
        optimize,
        optimize,
        &mut [InMemory::new(file)],
        &mut [InMemory::new(proof)],
    )
}

/// Checks the proofs of a goal that has two questions, each with its setting, of what is made of one file.
pub(crate) fn check_proofs(
    alloc: Global,
    own: FileSubject,
    goal: Goal,
    base_optimize: bool,
    step_optimize: bool,
    file: &[u8],
    base: &[u8],
    step: &[u8],
) -> u32
    requires { proof_count goal ≡ 2 }
    ensures { ChecksBytes (subjects.File own) goal base_optimize step_optimize (file.now ∷ [])
        (base.now ∷ step.now ∷ []) result }
{
    check(
        alloc,
        Subject::File(own),
        goal,
        base_optimize,
        step_optimize,
        &mut [InMemory::new(file)],
        &mut [InMemory::new(base), InMemory::new(step)],
    )
}

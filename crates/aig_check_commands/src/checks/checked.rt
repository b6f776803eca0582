//! Checking proofs of a goal, and printing what they show.

ghost use Rattle.std.specs.Prelude.{◌≡◌, ◌<◌, ◌^◌, IsTrue, length};
ghost use Rattle.aig_answers.specs.Goals.{last_step, proof_count};
ghost use Rattle.aig_command_line.specs.Limits.{IsLimit};
ghost use Rattle.aig_output.specs.Sinks.{WritesOrStops};
ghost use Rattle.aig_subjects.specs.Subjects.{file_count};
ghost use Rattle.aig_check_commands.specs.Checked.{RunsGoal};
ghost use Rattle.aig_check_commands.specs.FileSubjects.{is_asked_of, line_of, pair_line};

use crate::checks::printing::after_writing;
use crate::error::CheckError;
use crate::file_subjects::write_file;
use crate::lines::equal_lines::{write_always, write_equal};
use aig_answers::{Goal, check_goal};
use aig_base::{Sink, Source, StreamFault};
use aig_edits::Comparison;
use aig_subjects::Subject;
use std::alloc::Global;

/// Writes what proofs of a goal show of two files.
fn write_pair<W: Sink>(w: &mut W, comparison: Comparison, goal: Goal) -> Result<(), StreamFault>
    ensures { WritesOrStops W.held W.failed w.old result (pair_line comparison goal) w.new }
{
    match goal {
        Goal::Refuted(k) => write_equal(w, comparison, k),
        _ => write_always(w, comparison),
    }
}

/// Writes what proofs of a goal show of a subject.
fn write_shown<W: Sink>(w: &mut W, subject: Subject, goal: Goal) -> Result<(), StreamFault>
    requires { last_step goal < 2 ^ 32 }
    ensures { WritesOrStops W.held W.failed w.old result (line_of subject goal) w.new }
{
    match subject {
        Subject::File(own) | Subject::Certified(own) => write_file(w, own, goal),
        Subject::Miter(comparison) | Subject::MiterCertified(comparison) => {
            write_pair(w, comparison, goal)
        }
    }
}

/// Checks proofs of a goal that is asked of the subject, as `aig_answers::check_goal` does, and prints what they show. A step is below
/// 2^32.
///
/// # Errors
///
/// - `Goal`: that of `check_goal`.
/// - `Write`: the writer failed.
pub fn print_checked<S: Source, P: Source, W: Sink>(
    alloc: Global,
    limit: usize,
    subject: Subject,
    goal: Goal,
    base_optimize: bool,
    step_optimize: bool,
    files: &mut [S],
    proofs: &mut [P],
    w: &mut W,
) -> Result<(), CheckError>
    requires limit { IsLimit limit }
    requires asked { IsTrue (is_asked_of subject goal) }
    requires small { last_step goal < 2 ^ 32 }
    requires files { length files.old ≡ file_count subject }
    requires proofs { length proofs.old ≡ proof_count goal }
    ensures { RunsGoal S.left S.failed P.left P.failed W.held W.failed limit subject goal
        base_optimize step_optimize files.old proofs.old w.old result files.new proofs.new w.new }
{
    check_goal(
        alloc,
        limit,
        subject,
        goal,
        base_optimize,
        step_optimize,
        files,
        proofs,
    )?;
    after_writing(write_shown(w, subject, goal))
}

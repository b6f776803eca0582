//! What one process does and then another: the first prints the clauses of a question, and the second is given a proof of them. Each
//! reads the same files anew.

ghost use Rattle.std.specs.Prelude.{◌≡◌, ◌<◌, ◌^◌, IfErr, IfOk, Some};
ghost use Rattle.aig_callers.specs.declared.taking.MiterError.TheVariants as errors;
ghost use Rattle.aig_callers.specs.Taking.{IsHindrance, IsOfNoProof, IsProofOf, TakesParts};
ghost use Rattle.aig_callers.specs.Texts.{AreObligationsOf, IsMiterQueryTextOf, IsMiterTextOf, IsQueryTextOf, IsQuestionTextOf};
ghost use Rattle.aig_answers.specs.Goals.{fault_of, goal_of, last_step};

use crate::laws::joint_files_ask_the_same;
use crate::shown::{COMPARISON, LIMIT};
use aig_answers::{Goal, GoalError, Question, Window, check_goal, question_clauses_are_one};
use aig_base::{FromRead, Source};
use aig_check_commands::{
    CheckError, print_checked, print_obligations, print_question, printed_clauses_are_checked,
};
use aig_command_line::{Discarded, FlushedWriter};
use aig_edits::{PairError, Pairing, print_joint};
use aig_format::reads_exactly;
use aig_join::miters_are_one;
use aig_refutation::{
    ordered_rat_refutations_are_taken, written_numbered_proofs_are_taken,
    written_plain_proofs_are_taken, written_proofs_are_taken,
};
use aig_subjects::{FileSubject, Subject};
use aig_tool_commands::{Command, ToolError, run};
use std::alloc::Global;

/// A source of these bytes.
fn source_of<'a>(bytes: &'a [u8]) -> FromRead<&'a [u8]>
    ensures { ⟦<FromRead<&'a [u8]> as Source>⟧.left result ≡ Some bytes.now }
{
    FromRead::new(bytes)
}

/// What `clauses FILE K`, `window FILE K` or `bounded FILE K` prints, where FILE has these bytes.
fn question_text(alloc: Global, file: &[u8], question: Question) -> Result<Vec<u8>, CheckError>
    requires { last_step (goal_of question.ask) < 2 ^ 32 }
    ensures { IfOk result (λ text. IsQuestionTextOf question file.now text.items) }
{
    let mut out = FlushedWriter::new(Vec::new(alloc));
    print_question(
        alloc,
        LIMIT,
        FileSubject::Own,
        question,
        source_of(file),
        &mut out,
    )?;
    Ok(out.into_inner())
}

/// What `clauses FILE K` prints, and the answer of `refuted FILE K PROOF`; of a window, what `window FILE K` prints, and the answer of
/// `inductive FILE K PROOF`; and of the first steps, what `bounded FILE K` prints, and the answer of `refuted FILE to K PROOF`.
///
/// A proof of just the clauses that are printed, of the same setting, is taken, unless memory runs out or a read fails.
pub fn taken_of_question(
    alloc: Global,
    file: &[u8],
    question: Question,
    proof: &[u8],
) -> Result<(Vec<u8>, Result<(), CheckError>), CheckError>
    requires { last_step (goal_of question.ask) < 2 ^ 32 }
    ensures printed { IfOk result (λ made. IsQuestionTextOf question file.now made.0.items) }
    ensures taken { IfOk result
        (λ made. IsProofOf made.0.items proof.now → IfErr made.1 IsHindrance) }
{
    reads_exactly();
    written_proofs_are_taken();
    written_numbered_proofs_are_taken();
    ordered_rat_refutations_are_taken();
    written_plain_proofs_are_taken();
    printed_clauses_are_checked();
    let text = question_text(alloc, file, question)?;
    let (goal, optimize) = (Goal::of(question.ask), question.optimize);
    let mut files = [source_of(file)];
    let mut proofs = [source_of(proof)];
    let answer = print_checked(
        alloc,
        LIMIT,
        Subject::File(FileSubject::Own),
        goal,
        optimize,
        optimize,
        &mut files,
        &mut proofs,
        &mut Discarded,
    );
    Ok((text, answer))
}

/// What `obligations FILE CERT` prints, where the files have these bytes.
fn obligations_text(
    alloc: Global,
    file: &[u8],
    certificate: &[u8],
    optimize: bool,
) -> Result<Vec<u8>, CheckError>
    ensures { IfOk result
        (λ text. AreObligationsOf optimize file.now certificate.now text.items) }
{
    let mut out = FlushedWriter::new(Vec::new(alloc));
    let (file, certificate) = (source_of(file), source_of(certificate));
    let own = FileSubject::Own;
    print_obligations(alloc, LIMIT, own, optimize, file, certificate, &mut out)?;
    Ok(out.into_inner())
}

/// What `obligations FILE CERT` prints, and the answer of `certified FILE CERT BASE STEP`. Where the first part is what BASE refutes, and the
/// second one what STEP does, neither is refused, unless memory runs out or a read fails.
pub fn taken_of_certificate(
    alloc: Global,
    file: &[u8],
    certificate: &[u8],
    optimize: bool,
    base: &[u8],
    step: &[u8],
) -> Result<(Vec<u8>, Result<(), GoalError>), CheckError>
    ensures printed { IfOk result
        (λ made. AreObligationsOf optimize file.now certificate.now made.0.items) }
    ensures taken { IfOk result (λ made. TakesParts made.0.items base.now step.now made.1) }
{
    reads_exactly();
    written_proofs_are_taken();
    written_numbered_proofs_are_taken();
    ordered_rat_refutations_are_taken();
    written_plain_proofs_are_taken();
    question_clauses_are_one();
    let text = obligations_text(alloc, file, certificate, optimize)?;
    let answer = check_goal(
        alloc,
        LIMIT,
        Subject::Certified(FileSubject::Own),
        Goal::SafeBySteps(0, Window::Plain),
        optimize,
        optimize,
        &mut [source_of(file), source_of(certificate)],
        &mut [source_of(base), source_of(step)],
    );
    Ok((text, answer))
}

/// What `aigedit miter FILE OTHER` prints, where the files have these bytes.
fn miter_text(alloc: Global, file: &[u8], other: &[u8]) -> Result<Vec<u8>, PairError>
    ensures { IfOk result (λ text. IsMiterTextOf file.now other.now text.items) }
{
    let mut out = FlushedWriter::new(Vec::new(alloc));
    let (file, other) = (&mut source_of(file), &mut source_of(other));
    print_joint(
        alloc,
        Pairing::Miter(COMPARISON),
        file,
        other,
        LIMIT,
        &mut out,
    )?;
    Ok(out.into_inner())
}

/// What `aigtool query FILE K` prints, where FILE has these bytes.
fn query_text(alloc: Global, file: &[u8], k: usize, optimize: bool) -> Result<Vec<u8>, ToolError>
    ensures { IfOk result (λ text. IsQueryTextOf k optimize file.now text.items) }
{
    let mut out = FlushedWriter::new(Vec::new(alloc));
    run(
        alloc,
        Command::Query { k, optimize },
        &mut source_of(file),
        &mut out,
    )?;
    Ok(out.into_inner())
}

/// Why the clauses of a miter's query aren't printed.
#[derive(Clone, Copy, Debug)]
pub enum MiterError {
    /// There is no miter.
    Pair(PairError),
    /// It has no query.
    Query(ToolError),
}

impl From<PairError> for MiterError {
    ghost from_gives = { λ e r. r ≡ errors.Pair e };

    fn from(error: PairError) -> MiterError {
        MiterError::Pair(error)
    }
}

impl From<ToolError> for MiterError {
    ghost from_gives = { λ e r. r ≡ errors.Query e };

    fn from(error: ToolError) -> MiterError {
        MiterError::Query(error)
    }
}

/// What `aigtool query MITER K` prints of what `aigedit miter FILE OTHER` prints, and the answer of `equal FILE OTHER K PROOF`. A proof of
/// just these clauses isn't refused, as before.
pub fn taken_as_equal(
    alloc: Global,
    file: &[u8],
    other: &[u8],
    k: usize,
    optimize: bool,
    proof: &[u8],
) -> Result<(Vec<u8>, Result<(), GoalError>), MiterError>
    requires { k < 2 ^ 32 }
    ensures printed { IfOk result
        (λ made. IsMiterQueryTextOf k optimize file.now other.now made.0.items) }
    ensures taken { IfOk result
        (λ made. IsProofOf made.0.items proof.now → IfErr (fault_of made.1) IsOfNoProof) }
{
    reads_exactly();
    written_proofs_are_taken();
    written_numbered_proofs_are_taken();
    ordered_rat_refutations_are_taken();
    written_plain_proofs_are_taken();
    miters_are_one();
    joint_files_ask_the_same();
    let miter = miter_text(alloc, file, other)?;
    let text = query_text(alloc, miter.as_slice(), k, optimize)?;
    let answer = check_goal(
        alloc,
        LIMIT,
        Subject::Miter(COMPARISON),
        Goal::Refuted(k),
        optimize,
        optimize,
        &mut [source_of(file), source_of(other)],
        &mut [source_of(proof)],
    );
    Ok((text, answer))
}

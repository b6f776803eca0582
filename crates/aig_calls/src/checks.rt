//! Calls that check proofs about a file.

ghost use Rattle.std.specs.Prelude.{◌≡◌, ◌∷◌, []};
ghost use Rattle.aig_answers.specs.declared.goals.goal.Goal.TheVariants as goals;
ghost use Rattle.aig_edit_laws.specs.declared.fairness.Fairness.TheVariants.{Justice};
ghost use Rattle.aig_subjects.specs.declared.subject.FileSubject.TheVariants.{Live, Own};
ghost use Rattle.aig_subjects.specs.declared.subject.Subject.TheVariants as subjects;
ghost use Rattle.aig_calls.specs.Calls.{form_of};
ghost use Rattle.aig_calls.specs.Checking.{ChecksBytes};

use crate::goals::{check_proof, check_proofs};
use crate::steps::window_form;
use aig_answers::Goal;
use aig_edits::Fairness;
use aig_subjects::FileSubject;
use std::alloc::Global;

/// Checks a proof, in LRAT or DRAT, that the clauses of a file's query for step `k` can't be satisfied: then no run of its machine
/// reaches a bad state at that step.
#[unsafe(no_mangle)]
pub extern "C" fn aig_check_refuted(
    alloc: Global,
    file: &[u8],
    k: u64,
    optimize: bool,
    proof: &[u8],
) -> u32
    ensures { ChecksBytes (subjects.File Own) (goals.Refuted k) optimize optimize (file.now ∷ [])
        (proof.now ∷ []) result }
{
    let goal = Goal::Refuted(k as usize);
    check_proof(alloc, FileSubject::Own, goal, optimize, file, proof)
}

/// Checks a proof, in LRAT or DRAT, that the clauses of a file's question up to step `k` can't be satisfied: then no run of its
/// machine reaches a bad state at a step from 0 to `k`. No proof is read if the question's output is the constant false.
#[unsafe(no_mangle)]
pub extern "C" fn aig_check_refuted_to(
    alloc: Global,
    file: &[u8],
    k: u64,
    optimize: bool,
    proof: &[u8],
) -> u32
    ensures { ChecksBytes (subjects.File Own) (goals.RefutedTo k) optimize optimize (file.now ∷ [])
        (proof.now ∷ []) result }
{
    let goal = Goal::RefutedTo(k as usize);
    check_proof(alloc, FileSubject::Own, goal, optimize, file, proof)
}

/// Checks a proof, in LRAT or DRAT, that the clauses of a window of `k + 2` steps of a file's machine can't be satisfied: then no
/// bad state is ever reached, if none is up to step `k`.
#[unsafe(no_mangle)]
pub extern "C" fn aig_check_inductive(
    alloc: Global,
    file: &[u8],
    k: u64,
    distinct: bool,
    optimize: bool,
    proof: &[u8],
) -> u32
    ensures { ChecksBytes (subjects.File Own) (goals.Inductive k (form_of distinct)) optimize
        optimize (file.now ∷ []) (proof.now ∷ []) result }
{
    let goal = Goal::Inductive(k as usize, window_form(distinct));
    check_proof(alloc, FileSubject::Own, goal, optimize, file, proof)
}

/// Checks proofs, in LRAT or DRAT, that no bad state of a file's machine is ever reached: `base`, that the clauses of its question up
/// to step `k` can't be satisfied, and `step`, that those of its window of `k + 2` steps can't, each with its own setting.
#[unsafe(no_mangle)]
pub extern "C" fn aig_check_safe(
    alloc: Global,
    file: &[u8],
    k: u64,
    distinct: bool,
    base_optimize: bool,
    base: &[u8],
    step_optimize: bool,
    step: &[u8],
) -> u32
    ensures { ChecksBytes (subjects.File Own) (goals.Safe k (form_of distinct)) base_optimize
        step_optimize (file.now ∷ []) (base.now ∷ step.now ∷ []) result }
{
    check_proofs(
        alloc,
        FileSubject::Own,
        Goal::Safe(k as usize, window_form(distinct)),
        base_optimize,
        step_optimize,
        file,
        base,
        step,
    )
}

/// The live circuit of a file's justice property.
fn live_subject(j: usize) -> FileSubject
    ensures { result ≡ Live (Justice j) }
{
    FileSubject::Live {
        fairness: Fairness::Justice(j),
    }
}

/// Checks a proof, in LRAT or DRAT, that the query of the live circuit of a file's justice property `j`, from 0 on, for step `k` can't
/// be satisfied: then the property has no fair lasso of `k + 1` steps.
#[unsafe(no_mangle)]
pub extern "C" fn aig_check_no_lasso(
    alloc: Global,
    file: &[u8],
    j: usize,
    k: u64,
    optimize: bool,
    proof: &[u8],
) -> u32
    ensures { ChecksBytes (subjects.File (Live (Justice j))) (goals.Refuted k) optimize optimize
        (file.now ∷ []) (proof.now ∷ []) result }
{
    let goal = Goal::Refuted(k as usize);
    check_proof(alloc, live_subject(j), goal, optimize, file, proof)
}

/// Checks a proof, in LRAT or DRAT, that the clauses of the question of the live circuit of a file's justice property `j`, from 0 on,
/// up to step `k` can't be satisfied: then the property has no fair lasso of at most `k + 1` steps. No proof is read if the
/// question's output is the constant false.
#[unsafe(no_mangle)]
pub extern "C" fn aig_check_no_lasso_to(
    alloc: Global,
    file: &[u8],
    j: usize,
    k: u64,
    optimize: bool,
    proof: &[u8],
) -> u32
    ensures { ChecksBytes (subjects.File (Live (Justice j))) (goals.RefutedTo k) optimize optimize
        (file.now ∷ []) (proof.now ∷ []) result }
{
    let goal = Goal::RefutedTo(k as usize);
    check_proof(alloc, live_subject(j), goal, optimize, file, proof)
}

/// Checks proofs, in LRAT or DRAT, that a file's justice property `j`, from 0 on, has no fair run: those that `aig_check_safe` takes of
/// the file that the text of its live circuit is.
#[unsafe(no_mangle)]
pub extern "C" fn aig_check_no_fair_run(
    alloc: Global,
    file: &[u8],
    j: usize,
    k: u64,
    distinct: bool,
    base_optimize: bool,
    base: &[u8],
    step_optimize: bool,
    step: &[u8],
) -> u32
    ensures { ChecksBytes (subjects.File (Live (Justice j))) (goals.Safe k (form_of distinct))
        base_optimize step_optimize (file.now ∷ []) (base.now ∷ step.now ∷ []) result }
{
    check_proofs(
        alloc,
        live_subject(j),
        Goal::Safe(k as usize, window_form(distinct)),
        base_optimize,
        step_optimize,
        file,
        base,
        step,
    )
}

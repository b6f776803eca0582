//! Whether a witness circuit shows that a circuit of a file is safe.

ghost use Rattle.std.specs.Prelude.{◌≡◌, ◌^◌, ◌≤◌, IsErrOf, IsTrue, OnOk};
ghost use Rattle.aig_witness_circuit_checks.specs.Conditions.{ChecksClaim, ChecksCondition, HoldsIn, IsUnread};
ghost use Rattle.aig_witness_circuit_checks.specs.Simulated.{Certifies, IsClaim, IsOwn, LeavesProof, TellsOfQuestion, file_error, proof_for, proofs_of, question_in, refusal_of};
ghost use Rattle.aig_witness_circuit_checks.specs.Witnesses.{ReadsWitness};
ghost use Rattle.aig_witness_circuit_checks.specs.declared.error.ConditionError.TheVariants as conditions;
ghost use Rattle.aig_witness_circuit_checks.specs.declared.error.SimulationError.TheVariants as errors;
ghost use Rattle.aig_witness_circuits.specs.declared.condition.Condition.{Condition};

use crate::claim::{Claim, read_simulation};
use crate::error::{ConditionError, SimulationError};
use crate::obligation::ask;
use aig_answers::{circuit_clauses_are_one, unrolled_query};
use aig_base::Source;
use aig_refutation::{RefutationError, check_refutation};
use aig_runs::refuted_circuit_queries_have_no_witness;
use aig_subjects::{FileSubject, safe_subjects_show};
use aig_witness_circuits::{
    Condition, certified_models_are_safe, conditions_hold_where_questions_are_safe,
};
use std::alloc::Global;

/// Checks a proof for the question of a condition.
fn refute_question<P: Source>(
    alloc: Global,
    claim: &Claim,
    limit: usize,
    optimize: bool,
    condition: Condition,
    proof: &mut P,
) -> Result<(), ConditionError>
    requires few { limit ≤ 2 ^ 31 }
    requires claim { IsClaim claim.now }
    ensures holds { OnOk result (HoldsIn claim.now condition) }
    ensures tells { TellsOfQuestion limit optimize (P.left proof.old)
        (question_in condition claim.now) result }
    ensures unread { IsUnread result → proof.new ≡ proof.old }
    ensures stream { IsErrOf result (ConditionError.Refutation RefutationError.Stream)
        → IsTrue (P.failed proof.new) }
{
    conditions_hold_where_questions_are_safe();
    refuted_circuit_queries_have_no_witness();
    circuit_clauses_are_one();
    let asked = ask(alloc, claim, limit, condition)?;
    let made = unrolled_query(alloc, &asked, optimize)?;
    // The clauses are all that the proof is held against.
    drop(asked);
    check_refutation(alloc, &made.clauses, &made.extra, proof)?;
    Ok(())
}

/// As `refute_question`, but an error names the condition.
fn check_condition<P: Source>(
    alloc: Global,
    claim: &Claim,
    limit: usize,
    optimize: bool,
    condition: Condition,
    proof: &mut P,
) -> Result<(), SimulationError>
    requires few { limit ≤ 2 ^ 31 }
    requires claim { IsClaim claim.now }
    ensures { ChecksCondition P.left P.failed limit optimize claim.now condition proof.old result
        proof.new }
{
    match refute_question(alloc, claim, limit, optimize, condition, proof) {
        Ok(()) => Ok(()),
        Err(error) => Err(SimulationError::Condition(condition, error)),
    }
}

/// Checks the proofs for all conditions, in order.
fn check_claim<P: Source>(
    alloc: Global,
    claim: &Claim,
    limit: usize,
    optimize: bool,
    reset: &mut P,
    transition: &mut P,
    property: &mut P,
    base: &mut P,
    step: &mut P,
) -> Result<(), SimulationError>
    requires few { limit ≤ 2 ^ 31 }
    requires claim { IsClaim claim.now }
    ensures checks { let given = proofs_of
        reset.old transition.old property.old base.old step.old in
        ChecksClaim P.left limit optimize claim.now given result }
    ensures unread { let given = proofs_of
        reset.old transition.old property.old base.old step.old in
        let rest = proofs_of reset.new transition.new property.new base.new step.new in
        (condition : Condition) → LeavesProof condition result
        → proof_for rest condition ≡ proof_for given condition }
    ensures stream { let rest = proofs_of reset.new transition.new property.new base.new step.new in
        (condition : Condition) → IsErrOf result
        (errors.Condition condition (conditions.Refutation RefutationError.Stream))
        → IsTrue (P.failed (proof_for rest condition)) }
{
    check_condition(alloc, claim, limit, optimize, Condition::Reset, reset)?;
    check_condition(
        alloc,
        claim,
        limit,
        optimize,
        Condition::Transition,
        transition,
    )?;
    check_condition(alloc, claim, limit, optimize, Condition::Property, property)?;
    check_condition(alloc, claim, limit, optimize, Condition::Base, base)?;
    check_condition(alloc, claim, limit, optimize, Condition::Step, step)
}

/// Reads two files in the AIGER format, a file and a witness circuit, and checks that the second one is a certificate of the circuit of the
/// first that is asked about by simulation, with a proof for each condition: then no run of that circuit from an initial state, on which
/// every constraint holds, reaches a bad state at any step. Requires `1 <= limit <= 2^31`.
///
/// The witness circuit is one of the hardware model checking competition's certificates, whose resets may be functions that don't go
/// round in a circle (`aig_witness_circuits::is_circular`). Which of its inputs and latches stand for those of the file its names say, or else
/// their order (`aig_witness_circuits::shared_leaves`). For each condition (`Condition`) a question is asked (`aig_witness_circuits::question`),
/// and the proof shows that the clauses of its query for step 0 can't be satisfied: those of `obligation_of` with the same
/// setting. The proofs are read in order, each once, and none after one that is refused.
///
/// # Errors
///
/// - `File`, `Witness`, `NoBads`, `Sharing`, `Circular`: as `read_simulation`. No proof is read.
/// - `Condition`: the question for the condition has more nodes than the limit, or memory ran out, or the proof for it is refused. The
///   proofs for later ones aren't read.
pub fn check_simulated<R: Source, S: Source, P: Source>(
    alloc: Global,
    own: FileSubject,
    file: &mut R,
    witness: &mut S,
    limit: usize,
    optimize: bool,
    reset: &mut P,
    transition: &mut P,
    property: &mut P,
    base: &mut P,
    step: &mut P,
) -> Result<(), SimulationError>
    requires some { 1 ≤ limit }
    requires few { limit ≤ 2 ^ 31 }
    // The bytes that were read are two files, and what is asked about the first is so at every step. A refusal says why. Where a proof is
    // looked at, the answer is what its text shows of the clauses of `obligation_of`.
    ensures reads { let given = proofs_of reset.old transition.old property.old base.old step.old in
        ReadsWitness R.left R.failed S.left S.failed limit own
        (Certifies limit optimize (λ condition. P.left (proof_for given condition)) own)
        file_error refusal_of IsOwn file.old witness.old result file.new witness.new }
    ensures unread { let given = proofs_of
        reset.old transition.old property.old base.old step.old in
        let rest = proofs_of reset.new transition.new property.new base.new step.new in
        (condition : Condition) → LeavesProof condition result
        → proof_for rest condition ≡ proof_for given condition }
    // Stream only where a read failed in this call.
    ensures stream { let rest = proofs_of reset.new transition.new property.new base.new step.new in
        (condition : Condition) → IsErrOf result
        (errors.Condition condition (conditions.Refutation RefutationError.Stream))
        → IsTrue (P.failed (proof_for rest condition)) }
{
    certified_models_are_safe();
    safe_subjects_show();
    let claim = read_simulation(alloc, own, file, witness, limit)?;
    check_claim(
        alloc, &claim, limit, optimize, reset, transition, property, base, step,
    )
}

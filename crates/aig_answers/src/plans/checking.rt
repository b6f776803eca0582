//! Proofs that are checked of questions.

ghost use Rattle.std.specs.Prelude.{◌≡◌, ◌<◌, ◌≤◌, ◌^◌, All, IfErr, OnOk, length};
ghost use Rattle.aig_circuit.specs.Circuit.{IsCircuit};
ghost use Rattle.aig_circuit.specs.View.{lists_circuit};
ghost use Rattle.aig_answers.specs.Plans.{AreRefuted, AreTaken, AreUnread, CanBeAsked, Checks, ChecksCircuit, HasRoom, Holds, IsHeld, Tells};

use crate::plans::asking::Question;
use crate::plans::clauses::{clauses_of, last_clauses};
use crate::plans::errors::{PlanError, Refused, Why};
use crate::plans::laws::refuted_asks_hold;
use crate::plans::room::check_room;
use crate::windows::WindowClauses;
use aig_base::Source;
use aig_circuit::{CircuitLists, CircuitView};
use aig_refutation::{RefutationError, check_refutation};
use std::alloc::Global;

/// Checks a proof, in the LRAT or the DRAT format, that clauses can't be satisfied. Where none are needed it isn't read.
fn refute<P: Source>(
    alloc: Global,
    clauses: &Option<WindowClauses>,
    proof: &mut P,
) -> Result<(), RefutationError>
    ensures refuted { OnOk result (AreRefuted clauses.now) }
    ensures held { IsHeld P.left P.failed clauses.now proof.old proof.new result }
{
    match clauses {
        Some(made) => check_refutation(alloc, &made.clauses, &made.extra, proof),
        None => Ok(()),
    }
}

/// Checks a proof of one question, in the LRAT or the DRAT format.
///
/// # Errors
///
/// - `Clauses`: the question of the first steps is too large, or memory was refused. The proof isn't read.
/// - `Refutation`: the proof is refused.
pub fn check_question<P: Source>(
    alloc: Global,
    circuit: &CircuitView<'_>,
    limit: usize,
    question: Question,
    proof: &mut P,
) -> Result<(), Why>
    requires circuit { IsCircuit circuit.now }
    requires few { limit ≤ 2 ^ 31 }
    requires asked { CanBeAsked limit question.ask circuit.now }
    requires room { HasRoom limit question.ask circuit.now }
    // What is asked holds of the circuit.
    ensures holds { OnOk result (Holds question.ask circuit.now) }
    // What the proof shows of the question's clauses, or why there are none.
    ensures tells { Tells P.left P.failed limit question circuit.now proof.old proof.new result }
{
    refuted_asks_hold();
    let clauses = clauses_of(alloc, circuit, limit, question.ask, question.optimize)?;
    refute(alloc, &clauses, proof)?;
    Ok(())
}

/// Checks a proof as `check_question` does, of a circuit that isn't needed further: it is dropped before the proof is read, since the
/// clauses are all that the proof is held against.
pub(crate) fn check_last<P: Source>(
    alloc: Global,
    circuit: CircuitLists,
    limit: usize,
    question: Question,
    proof: &mut P,
) -> Result<(), Why>
    requires circuit { IsCircuit (lists_circuit circuit) }
    requires few { limit ≤ 2 ^ 31 }
    requires asked { CanBeAsked limit question.ask (lists_circuit circuit) }
    requires room { HasRoom limit question.ask (lists_circuit circuit) }
    ensures holds { OnOk result (Holds question.ask (lists_circuit circuit)) }
    ensures tells { Tells P.left P.failed limit question (lists_circuit circuit) proof.old
        proof.new result }
{
    refuted_asks_hold();
    let clauses = last_clauses(alloc, circuit, limit, question.ask, question.optimize)?;
    refute(alloc, &clauses, proof)?;
    Ok(())
}

/// Checks the proofs of the first questions of a plan, in order, up to the first that is refused.
fn check_first<P: Source>(
    alloc: Global,
    circuit: &CircuitView<'_>,
    limit: usize,
    plan: &[Question],
    count: usize,
    proofs: &mut [P],
) -> Result<(), Refused>
    requires circuit { IsCircuit circuit.now }
    requires few { limit ≤ 2 ^ 31 }
    requires asked { All (λ q. CanBeAsked limit q.ask circuit.now) plan.now }
    requires room { All (λ q. HasRoom limit q.ask circuit.now) plan.now }
    requires each { length proofs.old ≡ length plan.now }
    requires within { count ≤ length plan.now }
    ensures taken { OnOk result (AreTaken P.left P.failed limit plan.now circuit.now proofs.old
        proofs.new count) }
    ensures unread { OnOk result (AreUnread proofs.old proofs.new count) }
    ensures refused { IfErr result (λ e. Checks P.left P.failed limit plan.now circuit.now
        proofs.old proofs.new (Err e)) }
    ensures length { length proofs.new ≡ length proofs.old }
{
    for index in 0..count {
        if let Err(why) = check_question(alloc, circuit, limit, plan[index], &mut proofs[index]) {
            return Err(Refused { index, why });
        }
    }
    Ok(())
}

/// Checks the proofs of a plan, in the LRAT or the DRAT format, one for each of its questions, in order, up to the first that is
/// refused. The circuit is dropped before the last one is read.
pub(crate) fn check<P: Source>(
    alloc: Global,
    circuit: CircuitLists,
    limit: usize,
    plan: &[Question],
    proofs: &mut [P],
) -> Result<(), Refused>
    requires circuit { IsCircuit (lists_circuit circuit) }
    requires few { limit ≤ 2 ^ 31 }
    requires asked { All (λ q. CanBeAsked limit q.ask (lists_circuit circuit)) plan.now }
    requires room { All (λ q. HasRoom limit q.ask (lists_circuit circuit)) plan.now }
    requires each { length proofs.old ≡ length plan.now }
    // What is asked holds of the circuit.
    ensures holds { OnOk result (All (λ q. Holds q.ask (lists_circuit circuit)) plan.now) }
    // Which proof is refused, and why, and that none after it is read.
    ensures checks { Checks P.left P.failed limit plan.now (lists_circuit circuit) proofs.old
        proofs.new result }
{
    refuted_asks_hold();
    if plan.is_empty() {
        return Ok(());
    }
    let index = plan.len() - 1;
    check_first(
        alloc,
        &CircuitView::new(&circuit),
        limit,
        plan,
        index,
        proofs,
    )?;
    match check_last(alloc, circuit, limit, plan[index], &mut proofs[index]) {
        Ok(()) => Ok(()),
        Err(why) => Err(Refused { index, why }),
    }
}

/// Checks the proofs of a plan as `check` does, of a circuit for which there may be no room. A plan that asks for a window of `k + 2`
/// steps, and of each of the steps 0 to `k`, shows that no bad state is reached at any step (`covering_plans_are_safe`).
///
/// # Errors
///
/// - `TooMany`, `TooLarge`, `NoBads`, `Crowded`: as of `check_room`. No proof is read.
/// - `Refused`: a question is too large, memory was refused for its clauses, or its proof is refused. None after it is read.
pub fn check_circuit<P: Source>(
    alloc: Global,
    circuit: CircuitLists,
    limit: usize,
    plan: &[Question],
    proofs: &mut [P],
) -> Result<(), PlanError>
    requires circuit { IsCircuit (lists_circuit circuit) }
    requires few { limit ≤ 2 ^ 31 }
    requires asked { All (λ q. CanBeAsked limit q.ask (lists_circuit circuit)) plan.now }
    requires each { length proofs.old ≡ length plan.now }
    // What is asked holds of the circuit.
    ensures holds { OnOk result (All (λ q. Holds q.ask (lists_circuit circuit)) plan.now) }
    // Whether there is room, which proof is refused, and why, and that none after it is read.
    ensures checks { ChecksCircuit P.left P.failed limit plan.now (lists_circuit circuit)
        proofs.old proofs.new result }
{
    check_room(&CircuitView::new(&circuit), limit, plan)?;
    check(alloc, circuit, limit, plan, proofs)?;
    Ok(())
}

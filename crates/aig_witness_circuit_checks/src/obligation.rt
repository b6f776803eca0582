//! The clauses that the proofs are of.

ghost use Rattle.std.specs.Prelude.{◌^◌, ◌≤◌, IfOk};
ghost use Rattle.aig_answers.specs.Answers.{AreWrittenFrom};
ghost use Rattle.aig_witness_circuit_checks.specs.Conditions.{AsksClaim};
ghost use Rattle.aig_witness_circuit_checks.specs.Simulated.{IsClaim, MakesObligation, question_in};

use crate::claim::Claim;
use aig_answers::{ClauseParts, query_parts};
use aig_circuit::CircuitView;
use aig_runs::Unrolled;
use aig_witness_circuits::{Condition, QuestionError, question};
use std::alloc::Global;

/// What the clauses of a condition's question are written from.
pub struct Obligation {
    /// The question, with no further step.
    pub question: Unrolled,
    /// What the clauses of its query for step 0 are written from beside it.
    pub parts: ClauseParts,
}

impl Drop for Obligation {
    fn drop(self) {
        let Obligation {
            question: _,
            parts: _,
        } = self;
    }
}

/// The question for a condition of a claim.
pub(crate) fn ask(
    alloc: Global,
    claim: &Claim,
    limit: usize,
    condition: Condition,
) -> Result<Unrolled, QuestionError>
    requires { IsClaim claim.now }
    ensures { AsksClaim limit condition claim.now result }
{
    let question = question(
        alloc,
        limit,
        condition,
        &CircuitView::new(&claim.model),
        &CircuitView::new(&claim.witness),
        &claim.shared,
    )?;
    Ok(Unrolled::new(question, 0)?)
}

/// Makes what the clauses are written from of which the proof of `check_simulated` for a condition is one. No list of them is made. Requires
/// `limit <= 2^31`.
///
/// # Errors
///
/// - `Memory`: memory was refused.
/// - `TooLarge`: the question has more nodes than the limit.
pub fn obligation_of(
    alloc: Global,
    claim: &Claim,
    limit: usize,
    optimize: bool,
    condition: Condition,
) -> Result<Obligation, QuestionError>
    requires few { limit ≤ 2 ^ 31 }
    requires claim { IsClaim claim.now }
    // The clauses are those of the question, or it is said why there are none.
    ensures makes { MakesObligation limit optimize (question_in condition claim.now) result }
    // They can be written: the gates that need clauses are marked, and the extra clauses are of variables that are there.
    ensures written { IfOk result (λ o. AreWrittenFrom o.question.unrolled optimize o.parts) }
{
    let question = ask(alloc, claim, limit, condition)?;
    let parts = query_parts(alloc, &question, optimize)?;
    Ok(Obligation { question, parts })
}

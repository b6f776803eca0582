//! The clauses of a bounded check.

ghost use Rattle.std.specs.Prelude.{◌≡◌, ◌↔◌, ◌<◌, ◌≤◌, ◌^◌, All, IfErr, IfOk, IsErrOf, IsTrue, length};
ghost use Rattle.aig_circuit.specs.Circuit.{IsCircuit, IsClosed};
ghost use Rattle.aig_circuit.specs.Edges.{HasConstantInit};
ghost use Rattle.aig_runs.specs.Queries.{unit_clauses};
ghost use Rattle.aig_circuit.specs.View.{lists_circuit};
ghost use Rattle.aig_reader.specs.Verdicts.{verdict_by};
ghost use Rattle.aig_bounded.specs.Question.{question_size};
ghost use Rattle.aig_answers.specs.Asking.{IsOfQuestion, IsSaidOfBads, IsSettled, verdict_of};
ghost use Rattle.aig_answers.specs.Encoded.{IsEncoded, IsEncodedQuestion};
ghost use Rattle.aig_answers.specs.Plans.{clauses_only};

use crate::bounded_checks::error::BoundedAnswerError;
use crate::bounded_checks::naming::{Named, name_places};
use crate::windows::WindowClauses;
use aig_base::{DagCnf, LitVvec, MemoryError};
use aig_bounded::{BoundedCircuit, BoundedError, bounded_question};
use aig_circuit::{CircuitLists, CircuitView};
use aig_cnf::encode;
use aig_runs::push_units;
use std::alloc::Global;

/// The clauses of a bounded check.
pub struct BoundedClauses {
    /// The question.
    pub question: BoundedCircuit,
    /// What its inputs stand for, one for one.
    pub named: Vec<Named>,
    /// The clauses of its circuit.
    pub clauses: DagCnf,
    /// The clause that its output is true.
    pub extra: LitVvec,
}

impl Drop for BoundedClauses {
    fn drop(self) {
        let BoundedClauses {
            question: _,
            named: _,
            clauses: _,
            extra: _,
        } = self;
    }
}

impl BoundedClauses {
    /// Returns whether the question is settled: its output is the constant false, so that no bad state is reached, and no
    /// proof is needed.
    pub fn is_settled(&self) -> bool
        // Exactly where each output of the question's circuit is the constant false.
        ensures { IsTrue result ↔ IsSettled self.now }
    {
        self.question
            .circuit
            .properties
            .outputs
            .iter()
            .all(|e| e.is_constant(false))
    }

    /// Its clauses alone.
    pub(crate) fn into_clauses(self) -> WindowClauses
        ensures { result ≡ clauses_only self }
    {
        let BoundedClauses {
            question: _,
            named: _,
            clauses,
            extra,
        } = self;
        WindowClauses { clauses, extra }
    }
}

/// The clause that the output of a question is true.
fn output_clauses(alloc: Global, circuit: &CircuitView<'_>) -> Result<LitVvec, MemoryError>
    requires { length circuit.now.nodes ≤ 2 ^ 31 }
    ensures { IfOk result (λ extra. extra ≡ unit_clauses circuit.now.properties.outputs) }
{
    let mut extra = LitVvec::new(alloc);
    push_units(&mut extra, circuit.outputs())?;
    Ok(extra)
}

/// The clauses of a question, with the names of its inputs.
fn clauses_of(
    alloc: Global,
    question: BoundedCircuit,
    named: Vec<Named>,
    optimize: bool,
) -> Result<BoundedClauses, MemoryError>
    requires circuit { IsCircuit (lists_circuit question.circuit) }
    requires few { length question.circuit.nodes.items ≤ 2 ^ 31 }
    ensures { IfOk result (IsEncoded question named.items optimize) }
{
    let extra = output_clauses(alloc, &CircuitView::new(&question.circuit))?;
    let clauses = encode(alloc, &CircuitView::new(&question.circuit), optimize)?;
    Ok(BoundedClauses {
        question,
        named,
        clauses,
        extra,
    })
}

/// The clauses of the question of a circuit for the steps 0 to `last`.
pub(crate) fn ask_circuit(
    alloc: Global,
    circuit: &CircuitView<'_>,
    limit: usize,
    last: usize,
    optimize: bool,
) -> Result<BoundedClauses, BoundedError>
    requires closed { IsClosed circuit.now }
    requires starts { All HasConstantInit circuit.now.latchs }
    requires some { 1 ≤ limit }
    requires few { limit ≤ 2 ^ 31 }
    ensures asks { IfOk result (IsEncodedQuestion circuit.now last optimize) }
    ensures large { IsErrOf result BoundedError.TooLarge → limit < question_size circuit.now last }
{
    let question = bounded_question(alloc, circuit, last, limit)?;
    let named = name_places(alloc, circuit, &question.places)?;
    Ok(clauses_of(alloc, question, named, optimize)?)
}

/// The clauses of the question of a circuit for the steps 0 to `last`, unless nothing is asked of it.
pub(crate) fn ask_lists(
    alloc: Global,
    lists: &CircuitLists,
    limit: usize,
    last: usize,
    optimize: bool,
) -> Result<BoundedClauses, BoundedAnswerError>
    requires circuit { IsCircuit (lists_circuit lists.now) }
    requires closed { IsClosed (lists_circuit lists.now) }
    requires starts { All HasConstantInit lists.now.latchs.items }
    requires some { 1 ≤ limit }
    requires few { limit ≤ 2 ^ 31 }
    ensures asks { IfOk result (IsEncodedQuestion (lists_circuit lists.now) last optimize) }
    ensures said { IsSaidOfBads lists.now.properties.bads.items (verdict_by verdict_of result) }
    ensures own { IfErr result IsOfQuestion }
    ensures large { IsErrOf result (BoundedAnswerError.Question BoundedError.TooLarge)
        → limit < question_size (lists_circuit lists.now) last }
{
    if lists.properties.bads.is_empty() {
        return Err(BoundedAnswerError::NoBads);
    }
    let circuit = CircuitView::new(lists);
    Ok(ask_circuit(alloc, &circuit, limit, last, optimize)?)
}

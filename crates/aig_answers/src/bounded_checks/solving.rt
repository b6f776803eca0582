//! Witnesses of solvers' answers to bounded checks.

ghost use Rattle.std.specs.Prelude.{◌≡◌, ◌≢◌, ◌≤◌, ◌+◌, ◌^◌, Bool, All, IfErr, IfNone, IfOk, IfSome, length};
ghost use Rattle.aig_circuit.specs.Circuit.{IsCircuit, IsClosed};
ghost use Rattle.aig_circuit.specs.Edges.{HasConstantInit};
ghost use Rattle.aig_circuit.specs.View.{lists_circuit};
ghost use Rattle.aig_reader.specs.Reading.{IsReadAs};
ghost use Rattle.aig_reader.specs.Verdicts.{Accepted, Judges, verdict_by};
ghost use Rattle.aig_witness.specs.Machine.{ShowsBad};
ghost use Rattle.aig_witness.specs.Shown.{IsKnownWitness};
ghost use Rattle.aig_witness.specs.Witness.{said_by};
ghost use Rattle.aig_bounded.specs.Question.{question_size};
ghost use Rattle.aig_answers.specs.Asking.{AreSolution, IsAskedWithin, IsOfWitness, RefusesAnswer, TellsOfSize, TellsOfSolution, assigned, bounded_verdict, verdict_of};
ghost use Rattle.aig_answers.specs.Encoded.{IsEncodedQuestion};
ghost use Rattle.aig_answers.specs.Said.{SaysRun, SaysValues, SaysWitness};
ghost use Rattle.aig_answers.specs.Solving.{WitnessWithin};

use crate::bounded_checks::clauses::{BoundedClauses, ask_lists};
use crate::bounded_checks::error::BoundedAnswerError;
use crate::bounded_checks::simulating::find_bad;
use crate::bounded_checks::values::said_values;
use aig_base::{Lbool, MemoryError, Source};
use aig_circuit::{CircuitLists, CircuitView};
use aig_reader::read;
use aig_witness::{SolutionError, Witness, known_witnesses_show, read_solution};
use std::alloc::Global;

/// The witness that values of a question's variables say, up to the first step with a bad state. There is none where the run
/// that they say meets a constraint no longer before it has a bad state.
fn witness_of(
    alloc: Global,
    lists: &CircuitLists,
    made: &BoundedClauses,
    k: usize,
    values: &[Lbool],
) -> Result<Option<Witness>, MemoryError>
    requires circuit { IsCircuit (lists_circuit lists.now) }
    requires closed { IsClosed (lists_circuit lists.now) }
    requires starts { All HasConstantInit lists.now.latchs.items }
    requires asks { (optimize : Bool)
        × IsEncodedQuestion (lists_circuit lists.now) k optimize made.now }
    ensures known { IfOk result (λ found. IfSome found
        (λ w. WitnessWithin (lists_circuit lists.now) k (said_by w))) }
    ensures said { IfOk result (λ found. IfSome found (λ w. SaysRun (lists_circuit lists.now)
        made.now.question.circuit.inputs.items made.now.question.places.items
        (assigned values.now) (said_by w))) }
    ensures none { IfOk result (λ found. IfNone found
        (length lists.now.properties.bads.items ≤ 2 ^ 32 → ¬ AreSolution made.now values.now)) }
{
    let mut run = said_values(alloc, &CircuitView::new(lists), made, k, values)?;
    let Some(reached) = find_bad(alloc, lists, &run)? else {
        return Ok(None);
    };
    run.bad = reached.bad;
    run.steps.truncate(reached.step + 1);
    Ok(Some(run))
}

/// Reads a solver's answer to the clauses of a question, and returns the witness that it says.
fn solve<P: Source>(
    alloc: Global,
    lists: &CircuitLists,
    made: &BoundedClauses,
    k: usize,
    solution: &mut P,
) -> Result<Witness, SolutionError>
    requires circuit { IsCircuit (lists_circuit lists.now) }
    requires closed { IsClosed (lists_circuit lists.now) }
    requires starts { All HasConstantInit lists.now.latchs.items }
    requires asks { (optimize : Bool)
        × IsEncodedQuestion (lists_circuit lists.now) k optimize made.now }
    ensures known { IfOk result (λ w. WitnessWithin (lists_circuit lists.now) k (said_by w)) }
    ensures said { IfOk result (λ w. SaysValues (P.left solution.old) made.now
        (lists_circuit lists.now) (said_by w)) }
    ensures refusal { IfErr result (RefusesAnswer (P.left solution.old) (P.failed solution.new)
        (length lists.now.properties.bads.items) made.now) }
{
    let values = read_solution(alloc, solution, made.clauses.num_vars())?;
    match witness_of(alloc, lists, made, k, &values)? {
        Some(witness) => Ok(witness),
        None => Err(SolutionError::NoBad),
    }
}

/// Reads a circuit from the bytes of an AIGER file and a solver's answer to the clauses of its question for the steps 0 to
/// `k`, and returns the witness that the answer says, up to the first step with a bad state. Nothing is trusted of the
/// answer: the witness is simulated in three values. A value that the answer leaves unknown, or that nothing reads, is false.
/// Requires `1 <= limit <= 2^31`.
///
/// The clauses are those of `bounded`, and the answer is read as by `aig_witness::read_solution`.
///
/// # Errors
///
/// `Solution` with `NoBad` where the values show no bad state: they don't satisfy the clauses then, or the file has more than
/// 2^32 bad literals.
pub fn bounded_witness<R: Source, P: Source>(
    alloc: Global,
    r: &mut R,
    limit: usize,
    k: usize,
    optimize: bool,
    solution: &mut P,
) -> Result<Witness, BoundedAnswerError>
    requires some { 1 ≤ limit }
    requires few { limit ≤ 2 ^ 31 }
    // The bytes that were read are a file within the limit, with a bad literal, and the witness shows a bad state of its machine at
    // a step from 0 to k. Its values are those that the answer says.
    ensures answer { IfOk result (IsReadAs (IsAskedWithin limit)
        (λ f w. ShowsBad f (said_by w) × (length (said_by w).steps ≤ k + 1)
        × SaysWitness (P.left solution.old) k optimize f (said_by w))
        (R.left r.old) (R.left r.new)) }
    // A file is refused exactly where it isn't within the limit or has no bad literal, and a refusal says why.
    ensures verdict { Judges bounded_verdict limit (R.left r.old) (R.left r.new) (R.failed r.new)
        (verdict_by verdict_of result) }
    ensures own { IfErr result IsOfWitness }
    // A question is too large only where its bound passes the limit.
    ensures large { IfErr result (TellsOfSize limit (λ c. question_size c k)
        (R.left r.old) (R.left r.new)) }
    // The answer is read only where the file is taken.
    ensures unread { verdict_by verdict_of result ≢ Accepted → solution.new ≡ solution.old }
    // An answer is refused for the reason that its bytes have, or since its values don't satisfy the clauses of a question of the
    // file.
    ensures refusal { IfErr result (TellsOfSolution limit k optimize (R.left r.old) (R.left r.new)
        (P.left solution.old) (P.failed solution.new)) }
{
    known_witnesses_show();
    let lists = read(alloc, r, limit)?;
    let made = ask_lists(alloc, &lists, limit, k, optimize)?;
    let witness = solve(alloc, &lists, &made, k, solution)?;
    Ok(witness)
}

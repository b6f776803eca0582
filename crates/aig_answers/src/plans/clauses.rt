//! The clauses of a question.

ghost use Rattle.std.specs.Prelude.{◌≡◌, ◌≤◌, ◌^◌, IfOk, IsErrOf, length};
ghost use Rattle.aig_base.specs.Clauses.{AreBelow};
ghost use Rattle.aig_circuit.specs.Circuit.{IsCircuit};
ghost use Rattle.aig_circuit.specs.View.{lists_circuit};
ghost use Rattle.aig_unroll.specs.Places.{unrolled_size};
ghost use Rattle.aig_answers.specs.Asking.{AsksOfBads};
ghost use Rattle.aig_answers.specs.Plans.{Asks, CanBeAsked, HasRoom, IsTooLarge, Makes};
ghost use Rattle.aig_answers.specs.declared.plans.asking.Ask.TheVariants as asks;

use crate::bounded_checks::{BoundedClauses, ask_circuit};
use crate::plans::asking::Ask;
use crate::unrolled::query_between;
use crate::windows::{WindowClauses, window_clauses};
use aig_base::MemoryError;
use aig_bounded::BoundedError;
use aig_circuit::{CircuitLists, CircuitView};
use aig_unroll::{unroll_to, unrolls_by_none};
use std::alloc::Global;

/// The clauses that ask for a bad state at step 0, between a circuit and itself, so that it isn't copied.
fn start_clauses<'a>(
    alloc: Global,
    circuit: &CircuitView<'a>,
    unrolled: &CircuitView<'a>,
    optimize: bool,
) -> Result<WindowClauses, MemoryError>
    requires circuit { IsCircuit circuit.now }
    requires room { length circuit.now.nodes ≤ 2 ^ 31 }
    requires same { unrolled.now ≡ circuit.now }
    ensures { IfOk result (Asks (asks.Step 0) optimize circuit.now) }
{
    unrolls_by_none();
    query_between(alloc, circuit, 0, unrolled, optimize)
}

/// The clauses that ask for a bad state at a step.
fn step_clauses(
    alloc: Global,
    circuit: &CircuitView<'_>,
    k: usize,
    optimize: bool,
) -> Result<WindowClauses, MemoryError>
    requires circuit { IsCircuit circuit.now }
    requires room { unrolled_size circuit.now k ≤ 2 ^ 31 }
    ensures { IfOk result (Asks (asks.Step k) optimize circuit.now) }
{
    if k == 0 {
        return start_clauses(alloc, circuit, circuit, optimize);
    }
    let unrolled = unroll_to(circuit, k)?;
    query_between(alloc, circuit, k, &CircuitView::new(&unrolled), optimize)
}

/// The clauses that ask for one at the first steps, and what the inputs of their question stand for, whether any clauses are needed or
/// not.
///
/// # Errors
///
/// - `TooLarge`: more than `limit` nodes are made.
/// - `Memory`: memory was refused.
pub fn first_question(
    alloc: Global,
    circuit: &CircuitView<'_>,
    limit: usize,
    k: usize,
    optimize: bool,
) -> Result<BoundedClauses, BoundedError>
    requires asked { CanBeAsked limit (asks.UpTo k) circuit.now }
    requires few { limit ≤ 2 ^ 31 }
    ensures asks { IfOk result (AsksOfBads circuit.now k optimize) }
    // The further clause is of variables that are there.
    ensures below { IfOk result (λ made. AreBelow (length made.clauses) made.extra) }
    ensures large { IsErrOf result BoundedError.TooLarge → IsTooLarge limit (asks.UpTo k)
        circuit.now }
{
    ask_circuit(alloc, circuit, limit, k, optimize)
}

/// Those clauses alone, if any are needed.
fn first_clauses(
    alloc: Global,
    circuit: &CircuitView<'_>,
    limit: usize,
    k: usize,
    optimize: bool,
) -> Result<Option<WindowClauses>, BoundedError>
    requires asked { CanBeAsked limit (asks.UpTo k) circuit.now }
    requires few { limit ≤ 2 ^ 31 }
    ensures makes { IfOk result (Makes (asks.UpTo k) optimize circuit.now) }
    ensures large { IsErrOf result BoundedError.TooLarge → IsTooLarge limit (asks.UpTo k)
        circuit.now }
{
    let made = first_question(alloc, circuit, limit, k, optimize)?;
    if made.is_settled() {
        return Ok(None);
    }
    Ok(Some(made.into_clauses()))
}

/// The clauses that ask what holds only where they can't be satisfied, or `None` where it holds without.
///
/// The clauses have the order and the variables of the DIMACS form: those of each node's variable, and the further ones after them.
///
/// # Errors
///
/// - `TooLarge`: of `UpTo` alone, where more than `limit` nodes are made.
/// - `Memory`: memory was refused.
pub fn clauses_of(
    alloc: Global,
    circuit: &CircuitView<'_>,
    limit: usize,
    ask: Ask,
    optimize: bool,
) -> Result<Option<WindowClauses>, BoundedError>
    requires circuit { IsCircuit circuit.now }
    requires few { limit ≤ 2 ^ 31 }
    requires asked { CanBeAsked limit ask circuit.now }
    requires room { HasRoom limit ask circuit.now }
    ensures makes { IfOk result (Makes ask optimize circuit.now) }
    ensures large { IsErrOf result BoundedError.TooLarge → IsTooLarge limit ask circuit.now }
{
    match ask {
        Ask::Step(k) => Ok(Some(step_clauses(alloc, circuit, k, optimize)?)),
        Ask::UpTo(k) => first_clauses(alloc, circuit, limit, k, optimize),
        Ask::Window(k, form) => {
            let copy = circuit.to_lists()?;
            Ok(Some(window_clauses(alloc, copy, k, optimize, form)?))
        }
    }
}

/// The clauses of `clauses_of`, of a circuit that isn't needed further: it isn't copied, and of a window it is dropped before the
/// clauses of gates are made.
pub(crate) fn last_clauses(
    alloc: Global,
    circuit: CircuitLists,
    limit: usize,
    ask: Ask,
    optimize: bool,
) -> Result<Option<WindowClauses>, BoundedError>
    requires circuit { IsCircuit (lists_circuit circuit) }
    requires few { limit ≤ 2 ^ 31 }
    requires asked { CanBeAsked limit ask (lists_circuit circuit) }
    requires room { HasRoom limit ask (lists_circuit circuit) }
    ensures makes { IfOk result (Makes ask optimize (lists_circuit circuit)) }
    ensures large { IsErrOf result BoundedError.TooLarge
        → IsTooLarge limit ask (lists_circuit circuit) }
{
    if let Ask::Window(k, form) = ask {
        return Ok(Some(window_clauses(alloc, circuit, k, optimize, form)?));
    }
    clauses_of(alloc, &CircuitView::new(&circuit), limit, ask, optimize)
}

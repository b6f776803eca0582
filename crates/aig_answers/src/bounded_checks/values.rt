//! From values of a question's variables to the run that they say.

ghost use Rattle.std.specs.Prelude.{◌≡◌, ◌+◌, ℕ, All, IfOk, length, map, replicate};
ghost use Rattle.std.specs.List.{AllZip};
ghost use Rattle.aig_base.specs.declared.logic.three.Lbool.TheVariants.{FALSE};
ghost use Rattle.aig_circuit.specs.declared.edge.AigEdge.{AigEdge};
ghost use Rattle.aig_circuit.specs.Edges.{HasConstantInit};
ghost use Rattle.aig_circuit.specs.View.{lists_circuit};
ghost use Rattle.aig_witness.specs.Shown.{known_of};
ghost use Rattle.aig_witness.specs.Witness.{said_by};
ghost use Rattle.aig_bounded.specs.Question.{IsQuestion};
ghost use Rattle.aig_answers.specs.Asking.{assigned, is_true};
ghost use Rattle.aig_answers.specs.Naming.{IsNamed};
ghost use Rattle.aig_answers.specs.Solving.{Begins, HasRoom, IsBlank, SaysAll, SaysOnly, start_value, with_value};

use crate::bounded_checks::clauses::BoundedClauses;
use crate::bounded_checks::naming::Named;
use aig_base::{Lbool, MemoryError};
use aig_circuit::{AigLatch, CircuitView};
use aig_witness::Witness;
use std::alloc::Global;

/// The value, false where it is unknown.
fn known(value: Lbool) -> Lbool
    ensures { result ≡ known_of (is_true value) }
{
    match value {
        Lbool::TRUE => Lbool::TRUE,
        _ => Lbool::FALSE,
    }
}

/// The value of a variable, false where it is unknown.
fn value_of(values: &[Lbool], n: usize) -> Lbool
    ensures { result ≡ known_of (assigned values.now n) }
{
    if n < values.len() {
        known(values[n])
    } else {
        Lbool::FALSE
    }
}

/// The value of a latch at step 0: that of its initial edge, and false where it has none.
fn start_of(latch: &AigLatch) -> Lbool
    ensures { result ≡ start_value latch.now }
{
    match latch.init() {
        Some(e) if e.compl() => Lbool::TRUE,
        _ => Lbool::FALSE,
    }
}

/// The values of the latches at step 0.
fn first_state(alloc: Global, latchs: &[AigLatch]) -> Result<Vec<Lbool>, MemoryError>
    ensures { IfOk result (λ state. state.items ≡ map start_value latchs.now) }
{
    let mut state = Vec::with_capacity(alloc, latchs.len())?;
    for latch in latchs {
        state.push(start_of(latch))?;
    }
    Ok(state)
}

/// So many values, all of them false.
fn false_row(alloc: Global, count: usize) -> Result<Vec<Lbool>, MemoryError>
    ensures { IfOk result (λ row. row.items ≡ replicate count FALSE) }
{
    Ok(vec![in alloc; Lbool::FALSE; count]?)
}

/// The inputs at the steps 0 to `k`, all of them false.
fn false_inputs(alloc: Global, k: usize, count: usize) -> Result<Vec<Vec<Lbool>>, MemoryError>
    ensures count { IfOk result (λ rows. length rows.items ≡ k + 1) }
    ensures rows { IfOk result
        (λ rows. All (λ row. row.items ≡ replicate count FALSE) rows.items) }
{
    let mut rows = Vec::new(alloc);
    for _ in 0..k {
        rows.push(false_row(alloc, count)?)?;
    }
    rows.push(false_row(alloc, count)?)?;
    Ok(rows)
}

/// The start of a run, and inputs that are false at the steps 0 to `k`.
fn first_witness(alloc: Global, circuit: &CircuitView<'_>, k: usize) -> Result<Witness, MemoryError>
    requires { All HasConstantInit circuit.now.latchs }
    ensures begins { IfOk result (λ w. Begins circuit.now k (said_by w)) }
    ensures blank { IfOk result (λ w. IsBlank circuit.now (said_by w)) }
{
    let state = first_state(alloc, circuit.latchs())?;
    let steps = false_inputs(alloc, k, circuit.inputs().len())?;
    Ok(Witness {
        bad: 0,
        state,
        steps,
    })
}

/// Gives what has this name its value.
fn set_value(witness: &mut Witness, name: &Named, value: Lbool)
    requires { HasRoom (said_by witness.old) name.now }
    ensures { said_by witness.new ≡ with_value (said_by witness.old) name.now value }
{
    if name.is_latch {
        witness.state[name.number] = value;
    } else {
        witness.steps[name.step][name.number] = value;
    }
}

/// The first state and the inputs at the steps 0 to `k` that values of a question's variables say: false where nothing reads
/// them, or where they are unknown.
pub(crate) fn said_values(
    alloc: Global,
    circuit: &CircuitView<'_>,
    made: &BoundedClauses,
    k: usize,
    values: &[Lbool],
) -> Result<Witness, MemoryError>
    requires starts { All HasConstantInit circuit.now.latchs }
    requires asks { (output : AigEdge) × IsQuestion circuit.now k
        (lists_circuit made.now.question.circuit) output made.now.question.places.items }
    requires named { AllZip (IsNamed circuit.now)
        made.now.question.places.items made.now.named.items }
    ensures begins { IfOk result (λ w. Begins circuit.now k (said_by w)) }
    ensures said { IfOk result (λ w. SaysAll made.now.named.items
        made.now.question.circuit.inputs.items values.now (said_by w)) }
    ensures only { IfOk result (λ w. SaysOnly circuit.now made.now.named.items
        made.now.question.circuit.inputs.items values.now (said_by w)) }
{
    let leaves = &made.question.circuit.inputs;
    let mut witness = first_witness(alloc, circuit, k)?;
    for (i, name) in made.named.iter().enumerate() {
        set_value(&mut witness, name, value_of(values, leaves[i]));
    }
    Ok(witness)
}

//! Witnesses, read off values of the variables of a query's clauses.

ghost use Rattle.std.specs.Prelude.{◌≡◌, ◌<◌, ◌^◌, IfNone, IfOk, IfSome};
ghost use Rattle.aig_witness.specs.Solutions.{AreInputsTo, HasNoTrue, IsFirstTrue, WitnessOf, inputs_in, state_in, value_at};
ghost use Rattle.aig_witness.specs.Turns.{HasStep};
ghost use Rattle.aig_unroll.specs.Unroll.{UnrollsTo};
ghost use Rattle.aig_witness.specs.Witness.{rows_of};

use crate::Witness;
use crate::solutions::places::Places;
use aig::{Aig, AigEdge};
use aig_base::{Lbool, MemoryError};
use aig_encode::Query;
use std::alloc::Global;

/// The value of a variable, unknown where there is none.
fn value_of(values: &[Lbool], n: usize) -> Lbool
    ensures { result ≡ value_at values.now n }
{
    if n < values.len() {
        values[n]
    } else {
        Lbool::NONE
    }
}

/// The values of the latches at step 0.
fn read_state(alloc: Global, circuit: &Aig, values: &[Lbool]) -> Result<Vec<Lbool>, MemoryError>
    ensures { IfOk result (λ state. state.items ≡ state_in circuit.now values.now) }
{
    let latchs = circuit.latchs();
    let mut state = Vec::with_capacity(alloc, latchs.len())?;
    for latch in latchs {
        state.push(value_of(values, latch.input()))?;
    }
    Ok(state)
}

/// The values of the inputs at step `t`.
fn read_inputs(
    alloc: Global,
    circuit: &Aig,
    places: &Places<'_, Aig>,
    unrolled: &Aig,
    values: &[Lbool],
    t: usize,
) -> Result<Vec<Lbool>, MemoryError>
    requires places { places.now ≡ circuit.now }
    requires step { HasStep circuit.now unrolled.now t }
    ensures { IfOk result (λ row. row.items ≡ inputs_in circuit.now unrolled.now values.now t) }
{
    let inputs = circuit.inputs();
    let mut row = Vec::with_capacity(alloc, inputs.len())?;
    for n in inputs {
        row.push(value_of(values, places.place(unrolled, t, *n)))?;
    }
    Ok(row)
}

/// The values of the inputs at the steps 0 to `k`.
fn read_steps(
    alloc: Global,
    circuit: &Aig,
    unrolled: &Aig,
    values: &[Lbool],
    k: usize,
) -> Result<Vec<Vec<Lbool>>, MemoryError>
    requires small { k < 2 ^ 32 }
    requires step { HasStep circuit.now unrolled.now k }
    ensures { IfOk result
        (λ steps. AreInputsTo circuit.now unrolled.now k values.now (rows_of steps.items)) }
{
    let places = Places::new(alloc, circuit)?;
    let mut steps = Vec::new(alloc);
    for t in 0..k + 1 {
        steps.push(read_inputs(alloc, circuit, &places, unrolled, values, t)?)?;
    }
    Ok(steps)
}

/// The number of the first edge that is true, if it is below 2^32.
fn first_true(edges: &[AigEdge], values: &[Lbool]) -> Option<u32>
    ensures some { IfSome result (IsFirstTrue edges.now values.now) }
    ensures none { IfNone result (HasNoTrue edges.now values.now) }
{
    for (i, e) in edges.iter().enumerate() {
        if i > u32::MAX as usize {
            return None;
        }
        if value_of(values, e.node_id()).not_if(e.compl()) == Lbool::TRUE {
            return Some(i as u32);
        }
    }
    None
}

/// Returns the witness that values of the variables of a query's clauses say: the values of the latches' leaves, at each
/// step those at the places of the inputs, and the first bad state property that is true at step `k`. A value is unknown
/// where there is none for its variable. There is none where no bad state property is known to be true at step `k`. The one
/// error is refused memory. Requires that the query is of step `k`, which is below 2^32.
///
/// Where the values are a solution of the query, the witness shows a bad state of the file's machine (`solutions_show`).
pub fn witness_of(
    alloc: Global,
    asked: &Query,
    k: usize,
    values: &[Lbool],
) -> Result<Option<Witness>, MemoryError>
    requires small { k < 2 ^ 32 }
    requires steps { UnrollsTo asked.now.encoded.circuit k asked.now.encoded.unrolled }
    ensures { IfOk result (WitnessOf asked.now.encoded k values.now) }
{
    let circuit = &asked.encoded.circuit;
    let unrolled = &asked.encoded.unrolled;
    let bads = unrolled.bads();
    let first = k * circuit.bads().len();
    let Some(bad) = first_true(&bads[first..], values) else {
        return Ok(None);
    };
    let state = read_state(alloc, circuit, values)?;
    let steps = read_steps(alloc, circuit, unrolled, values, k)?;
    Ok(Some(Witness { bad, state, steps }))
}

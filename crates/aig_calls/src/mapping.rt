//! Which literals of a query's clauses stand for inputs, latches and bad literals, as numbers.

ghost use Rattle.std.specs.Prelude.{◌≡◌, ℕ, ◌+◌, ◌-◌, ◌<◌, ◌≤◌, ◌++◌, ◌^◌, All, OnOk, length, map};
ghost use Rattle.std.specs.List.{flat_map, range_with_len};
ghost use Rattle.aig_circuit.specs.Circuit.{latch_leaves};
ghost use Rattle.aig_witness.specs.Turns.{HasStep};
ghost use Rattle.aig_unroll.specs.Places.{place_at};
ghost use Rattle.aig_unroll.specs.Unroll.{UnrollsTo};
ghost use Rattle.aig_calls.specs.Numbers.{edge_number, input_numbers, map_numbers, variable_number};

use aig::{Aig, AigEdge, AigLatch};
use aig_base::{MemoryError, Var};
use aig_encode::Query;
use aig_giving::number_of;
use aig_witness::Places;
use std::alloc::Global;

/// Appends the numbers of the inputs at step `t`.
fn push_inputs(
    numbers: &mut Vec<i32>,
    asked: &Query,
    places: &Places<'_, Aig>,
    t: usize,
) -> Result<(), MemoryError>
    requires places { places.now ≡ asked.now.encoded.circuit }
    requires step { HasStep asked.now.encoded.circuit asked.now.encoded.unrolled t }
    requires few { let place = place_at asked.now.encoded.circuit asked.now.encoded.unrolled t in
        All (λ n. place n < 2 ^ 31 - 1) asked.now.encoded.circuit.inputs }
    ensures { let added = input_numbers asked.now.encoded.circuit asked.now.encoded.unrolled t in
        OnOk result (numbers.new.items ≡ numbers.old.items ++ added) }
{
    let unrolled = &asked.encoded.unrolled;
    let inputs = asked.encoded.circuit.inputs();
    for n in inputs {
        let place = Var::new(places.place(unrolled, t, *n));
        numbers.push(number_of(place.lit()))?;
    }
    Ok(())
}

/// Appends the numbers of the inputs at the steps 0 to `k`.
fn push_steps(
    numbers: &mut Vec<i32>,
    asked: &Query,
    places: &Places<'_, Aig>,
    k: usize,
) -> Result<(), MemoryError>
    requires places { places.now ≡ asked.now.encoded.circuit }
    requires steps { UnrollsTo asked.now.encoded.circuit k asked.now.encoded.unrolled }
    requires few { let place = place_at asked.now.encoded.circuit asked.now.encoded.unrolled in
        (t : ℕ) → t ≤ k → All (λ n. place t n < 2 ^ 31 - 1) asked.now.encoded.circuit.inputs }
    requires small { k < 2 ^ 32 }
    ensures { let added = flat_map (input_numbers asked.now.encoded.circuit
        asked.now.encoded.unrolled) (range_with_len 0 (k + 1)) in OnOk result (numbers.new.items ≡
        numbers.old.items ++ added) }
{
    for t in 0..k + 1 {
        push_inputs(numbers, asked, places, t)?;
    }
    Ok(())
}

/// Appends the numbers of the latches at step 0.
fn push_latchs(numbers: &mut Vec<i32>, latchs: &[AigLatch]) -> Result<(), MemoryError>
    requires { All (λ latch. latch.input < 2 ^ 31 - 1) latchs.now }
    ensures { let added = map variable_number (latch_leaves latchs.now) in OnOk result
        (numbers.new.items ≡ numbers.old.items ++ added) }
{
    for latch in latchs {
        numbers.push(number_of(Var::new(latch.input()).lit()))?;
    }
    Ok(())
}

/// Appends the numbers of the bad edges of a step.
fn push_bads(numbers: &mut Vec<i32>, bads: &[AigEdge]) -> Result<(), MemoryError>
    requires { All (λ e. e.node_id < 2 ^ 31 - 1) bads.now }
    ensures { let added = map edge_number bads.now in OnOk result (numbers.new.items ≡
        numbers.old.items ++ added) }
{
    for e in bads {
        numbers.push(number_of(e.to_lit()))?;
    }
    Ok(())
}

/// Appends the map of a query for step `k`: the numbers of its inputs at each step, of its latches at step 0, and of its bad
/// edges at step `k`.
pub(crate) fn push_map(
    alloc: Global,
    numbers: &mut Vec<i32>,
    asked: &Query,
    k: usize,
) -> Result<(), MemoryError>
    requires steps { UnrollsTo asked.now.encoded.circuit k asked.now.encoded.unrolled }
    requires few { length asked.now.encoded.unrolled.nodes < 2 ^ 31 }
    requires small { k < 2 ^ 32 }
    ensures { OnOk result (numbers.new.items ≡ numbers.old.items ++ map_numbers asked.now k) }
{
    let places = Places::new(alloc, &asked.encoded.circuit)?;
    let latchs = asked.encoded.circuit.latchs();
    let bads = asked.encoded.unrolled.bads();
    let first = k * asked.encoded.circuit.bads().len();
    push_steps(numbers, asked, &places, k)?;
    push_latchs(numbers, latchs)?;
    push_bads(numbers, &bads[first..])
}

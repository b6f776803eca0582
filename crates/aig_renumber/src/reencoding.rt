//! The numbering of the binary form (AIGER format 20071012, "Binary encoding").

ghost use Rattle.std.specs.Prelude.{◌≡◌, ◌≢◌, ◌<◌, ◌++◌, ℕ, IfOk, All, AllPairs, length, filter_map, slice_index};
ghost use Rattle.aig_circuit.specs.Circuit.{IsCircuit, IsClosed, latch_leaves};
ghost use Rattle.aig_circuit.specs.Reencode.{gate_number, order_of, reencoded};
ghost use Rattle.aig_circuit.specs.View.{lists_circuit};

use crate::circuit::renumber;
use aig_base::MemoryError;
use aig_circuit::{AigLatch, AigNode, CircuitLists, CircuitView};
use std::alloc::Global;

/// The closed circuit with inputs numbered first in their order, then latches in theirs, then gates in rising number
/// (AIGER format 20071012, "Binary encoding"; crate aig, `reencode`). Operands are put in order again, and lists and
/// names follow. The one error is refused memory.
pub fn reencode(alloc: Global, circuit: &CircuitView<'_>) -> Result<CircuitLists, MemoryError>
    requires closed { IsClosed circuit.now }
    ensures { IfOk result (λ lists. lists_circuit lists ≡ reencoded circuit.now) }
{
    let order = new_order(alloc, circuit)?;
    let numbers = places(alloc, &order)?;
    renumber(alloc, circuit, &numbers, &order)
}

/// The old numbers in their new order.
fn new_order(alloc: Global, circuit: &CircuitView<'_>) -> Result<Vec<usize>, MemoryError>
    ensures order { IfOk result (λ order. order.items ≡ order_of circuit.now) }
    ensures circuit { IsCircuit circuit.now }
{
    let mut order = Vec::with_capacity(alloc, circuit.nodes().len())?;
    order.push(0)?;
    order.extend_from_slice(circuit.inputs())?;
    push_leaves(&mut order, circuit.latchs())?;
    push_gates(&mut order, circuit.nodes())?;
    Ok(order)
}

/// Appends the leaves of latches.
fn push_leaves(order: &mut Vec<usize>, latchs: &[AigLatch]) -> Result<(), MemoryError>
    ensures { IfOk result (λ _. order.new.items ≡ order.old.items ++ latch_leaves latchs.now) }
{
    for latch in latchs {
        order.push(latch.input())?;
    }
    Ok(())
}

/// Appends the numbers of the gates, in rising number.
fn push_gates(order: &mut Vec<usize>, nodes: &[AigNode]) -> Result<(), MemoryError>
    ensures { IfOk result
        (λ _. order.new.items ≡ order.old.items ++ filter_map gate_number nodes.now) }
{
    for node in nodes {
        if node.is_and() {
            order.push(node.node_id())?;
        }
    }
    Ok(())
}

/// The place of each number of the list, which has as many numbers as they are great, each once.
fn places(alloc: Global, order: &[usize]) -> Result<Vec<usize>, MemoryError>
    requires distinct { AllPairs (λ m n. m ≢ n) order.now }
    requires within { All (λ n. n < length order.now) order.now }
    ensures count { IfOk result (λ numbers. length numbers.items ≡ length order.now) }
    ensures places { IfOk result (λ numbers. (i : ℕ) → i < length order.now
        → slice_index numbers.items (slice_index order.now i) ≡ i) }
{
    let mut numbers = vec![in alloc; 0; order.len()]?;
    for (i, n) in order.iter().enumerate() {
        numbers[*n] = i;
    }
    Ok(numbers)
}

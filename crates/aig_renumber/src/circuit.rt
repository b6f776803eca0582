//! A circuit under other numbers.

ghost use Rattle.std.specs.Prelude.{◌≡◌, ◌<◌, ℕ, IfOk, All, length, slice_index};
ghost use Rattle.aig_circuit.specs.View.{lists_circuit};
ghost use Rattle.aig_circuit.specs.Renumber.{kept_circuit};

use crate::lists;
use crate::nodes::nodes_in_order;
use crate::numbering::Table;
use crate::renumbered::{renumber_latches, renumber_properties};
use aig_base::MemoryError;
use aig_circuit::{CircuitLists, CircuitView};
use std::alloc::Global;

/// Returns the circuit of the nodes `kept`, given by their old numbers in the order of their new ones, false first.
/// `numbers` has at place `n` the new number of old node `n`, kept or not: several nodes may have the number of one,
/// where they are merged into it. Edges and latches follow `numbers`, and operands are put in order again; inputs and
/// names of nodes that aren't kept are left out. Requires that each new number has its node in `kept`, and each node
/// of `kept` its place as its number. The one error is refused memory.
pub fn renumber(
    alloc: Global,
    circuit: &CircuitView<'_>,
    numbers: &[usize],
    kept: &[usize],
) -> Result<CircuitLists, MemoryError>
    requires table { length numbers.now ≡ length circuit.now.nodes }
    requires there { All (λ n. n < length circuit.now.nodes) kept.now }
    requires within { All (λ n. n < length kept.now) numbers.now }
    requires places { (i : ℕ) → i < length kept.now
        → slice_index numbers.now (slice_index kept.now i) ≡ i }
    requires false_first { (0 < length kept.now) × (slice_index kept.now 0 ≡ 0) }
    ensures { IfOk result (λ lists. lists_circuit lists
        ≡ kept_circuit (slice_index numbers.now) kept.now circuit.now) }
{
    let inputs = lists::inputs(alloc, numbers, kept, circuit.inputs())?;
    let table = Table { numbers };
    let mut latchs = Vec::from_slice(alloc, circuit.latchs())?;
    renumber_latches(&table, &mut latchs);
    let mut properties = circuit.properties().copied(alloc)?;
    renumber_properties(&table, &mut properties);
    Ok(CircuitLists {
        nodes: nodes_in_order(alloc, circuit.nodes(), &table, kept)?,
        inputs,
        latchs,
        properties,
        names: lists::names(alloc, numbers, kept, circuit.names())?,
    })
}

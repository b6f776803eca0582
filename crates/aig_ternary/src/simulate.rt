//! The values of one step.

ghost use Rattle.std.specs.Prelude.{◌≡◌, IfOk, length};
ghost use Rattle.aig_ternary.specs.Ternary.{given_values, three_values};

use crate::step;
use aig_base::{Lbool, MemoryError};
use aig_circuit::CircuitView;

/// Returns the three-valued value of each node, by number (crate aig, `ternary_simulate`).
///
/// `inputs` and `latchs` hold the values of the circuit's inputs and latches, in their order; free leaves are unknown.
/// An unknown edge joined with its inverse is unknown. Requires as many values as there are inputs and latches.
///
/// # Errors
///
/// Refused memory.
pub fn ternary_simulate(
    circuit: &CircuitView<'_>,
    inputs: &[Lbool],
    latchs: &[Lbool],
) -> Result<Vec<Lbool>, MemoryError>
    requires inputs { length inputs.now ≡ length circuit.now.inputs }
    requires latchs { length latchs.now ≡ length circuit.now.latchs }
    ensures { IfOk result (λ values. values.items
        ≡ three_values circuit.now (given_values circuit.now inputs.now latchs.now)) }
{
    let mut values = vec![in circuit.allocator(); Lbool::NONE; circuit.nodes().len()]?;
    step::value_circuit(circuit, inputs, latchs, &mut values);
    Ok(values)
}

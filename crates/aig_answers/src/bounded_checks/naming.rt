//! What the inputs of a question stand for.

ghost use Rattle.std.specs.Prelude.{◌≡◌, ◌++◌, ℕ, All, IfOk, length};
ghost use Rattle.std.specs.List.{AllZip};
ghost use Rattle.aig_circuit.specs.Circuit.{IsClosed, IsLeaf, latch_leaves};
ghost use Rattle.aig_answers.specs.Encoded.{HasName};
ghost use Rattle.aig_answers.specs.Naming.{IsNamed};

use aig_base::MemoryError;
use aig_bounded::Place;
use aig_circuit::CircuitView;
use std::alloc::Global;

/// What an input of a question stands for.
#[derive(Clone, Copy, Debug, PartialEq, Eq)]
pub struct Named {
    /// The step.
    pub step: usize,
    /// Whether it is a latch, and not an input.
    pub is_latch: bool,
    /// The number of the input or the latch, from 0 on, in the file's order.
    pub number: usize,
}

/// Writes the names of inputs, each at the place of its leaf.
fn name_inputs(names: &mut [Named], circuit: &CircuitView<'_>)
    requires { length names.old ≡ length circuit.now.nodes }
    ensures { All (HasName circuit.now names.new) circuit.now.inputs }
{
    for (number, leaf) in circuit.inputs().iter().enumerate() {
        names[*leaf] = Named {
            step: 0,
            is_latch: false,
            number,
        };
    }
}

/// Writes the names of latches, each at the place of its leaf.
fn name_latchs(names: &mut [Named], circuit: &CircuitView<'_>)
    requires { length names.old ≡ length circuit.now.nodes }
    ensures kept { (n : ℕ) → HasName circuit.now names.old n → HasName circuit.now names.new n }
    ensures named { All (HasName circuit.now names.new) (latch_leaves circuit.now.latchs) }
{
    for (number, latch) in circuit.latchs().iter().enumerate() {
        names[latch.input()] = Named {
            step: 0,
            is_latch: true,
            number,
        };
    }
}

/// Writes the names of inputs and latches, each at the place of its leaf.
fn name_leaves(names: &mut [Named], circuit: &CircuitView<'_>)
    requires { length names.old ≡ length circuit.now.nodes }
    ensures { All (HasName circuit.now names.new)
        (circuit.now.inputs ++ latch_leaves circuit.now.latchs) }
{
    name_inputs(names, circuit);
    name_latchs(names, circuit);
}

/// For each node its name at step 0, where it is the leaf of an input or a latch.
fn leaf_names(alloc: Global, circuit: &CircuitView<'_>) -> Result<Vec<Named>, MemoryError>
    ensures count { IfOk result (λ names. length names.items ≡ length circuit.now.nodes) }
    ensures named { IfOk result (λ names. All (HasName circuit.now names.items)
        (circuit.now.inputs ++ latch_leaves circuit.now.latchs)) }
{
    let nameless = Named {
        step: 0,
        is_latch: false,
        number: 0,
    };
    let mut names = vec![in alloc; nameless; circuit.nodes().len()]?;
    name_leaves(&mut names, circuit);
    Ok(names)
}

/// What stands at these places, one for one.
pub(crate) fn name_places(
    alloc: Global,
    circuit: &CircuitView<'_>,
    places: &[Place],
) -> Result<Vec<Named>, MemoryError>
    requires closed { IsClosed circuit.now }
    requires leaves { All (λ p. IsLeaf circuit.now.nodes p.leaf) places.now }
    ensures { IfOk result (λ named. AllZip (IsNamed circuit.now) places.now named.items) }
{
    let names = leaf_names(alloc, circuit)?;
    let mut named = Vec::with_capacity(alloc, places.len())?;
    for place in places {
        named.push(Named {
            step: place.step,
            ..names[place.leaf]
        })?;
    }
    Ok(named)
}

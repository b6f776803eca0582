//! Whether a circuit fits the format's numbers.

ghost use Rattle.std.specs.Prelude.{◌↔◌, ◌<◌, ◌^◌, All, IsTrue, length};
ghost use Rattle.aig_format.specs.Writable.{FitsFormat};

use aig_circuit::{AigEdge, CircuitView};

/// How many nodes a file can have at most.
pub(crate) const MOST_NODES: usize = 1 << 31;

/// The greatest number that a file can have.
const GREATEST_NUMBER: usize = u32::MAX as usize;

/// Whether each of the counts is at most 2^32 - 1.
fn are_numbers(counts: &[usize]) -> bool
    ensures { IsTrue result ↔ All (λ n. n < 2 ^ 32) counts.now }
{
    counts.iter().all(|count| *count <= GREATEST_NUMBER)
}

/// Whether each set has at most 2^32 - 1 edges.
fn are_short(sets: &[Vec<AigEdge>]) -> bool
    ensures { IsTrue result ↔ All (λ set. length set.items < 2 ^ 32) sets.now }
{
    sets.iter().all(|set| set.len() <= GREATEST_NUMBER)
}

/// Whether nodes and lists are within the format's numbers.
pub(crate) fn fits_format(circuit: &CircuitView<'_>) -> bool
    ensures { IsTrue result ↔ FitsFormat circuit.now }
{
    let counts = [
        circuit.inputs().len(),
        circuit.latchs().len(),
        circuit.outputs().len(),
        circuit.bads().len(),
        circuit.constraints().len(),
        circuit.justice().len(),
        circuit.fairness().len(),
    ];
    if circuit.nodes().len() > MOST_NODES {
        return false;
    }
    if !are_numbers(&counts) {
        return false;
    }
    are_short(circuit.justice())
}

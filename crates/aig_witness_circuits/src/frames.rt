//! Copies of a circuit in a question: one state of it, beside other copies.

ghost use Rattle.std.specs.Prelude.{◌≡◌, ◌≢◌, ◌<◌, ℕ, IfOk, All, AllPairs, length};
ghost use Rattle.std.specs.Option.{option_or};
ghost use Rattle.aig_circuit.specs.Circuit.{AreNodes, IsCircuit, IsLatch, IsLeaf, latch_leaves};
ghost use Rattle.aig_witness_circuits.specs.Exact.{copy_after, frame_in, model_leaf, next_leaves, shared_leaves};
ghost use Rattle.aig_witness_circuits.specs.Frames.{HasImage, MarksShared, given_at, own_among};
ghost use Rattle.aig_witness_circuits.specs.Simulation.{IsSharing};

use crate::copying::{copy_nodes, image_of};
use aig_base::MemoryError;
use aig_circuit::{AigEdge, AigLatch, AigNode, CircuitView};
use std::alloc::Global;

/// Gives for each latch's leaf the image of its next edge.
fn give_next(given: &mut [Option<AigEdge>], latchs: &[AigLatch], images: &[AigEdge])
    requires leaves { All (λ l. l.input < length given.old) latchs.now }
    requires next { All (λ l. l.next.node_id < length images.now) latchs.now }
    requires distinct { AllPairs (λ m n. m ≢ n) (latch_leaves latchs.now) }
    ensures { (n : ℕ) → given_at given.new n
        ≡ option_or (next_leaves latchs.now images.now n) (given_at given.old n) }
{
    for latch in latchs {
        given[latch.input()] = Some(image_of(images, latch.next()));
    }
}

/// Gives for each shared leaf the image of the one that it stands for.
fn give_shared(given: &mut [Option<AigEdge>], shared: &[(usize, usize)], images: &[AigEdge])
    requires leaves { All (λ p. p.1 < length given.old) shared.now }
    requires images { All (λ p. p.0 < length images.now) shared.now }
    requires distinct { IsSharing shared.now }
    ensures { (n : ℕ) → given_at given.new n
        ≡ shared_leaves (model_leaf shared.now) images.now (given_at given.old) n }
{
    for pair in shared {
        given[pair.1] = Some(images[pair.0]);
    }
}

/// Appends a copy of the circuit, and returns the image of each node. A shared leaf is the image in `others` of the leaf that it
/// stands for, and the leaf of any other of these latches is the image of its next edge in `before`.
pub(crate) fn copy_circuit(
    alloc: Global,
    nodes: &mut Vec<AigNode>,
    circuit: &CircuitView<'_>,
    latchs: &[AigLatch],
    before: &[AigEdge],
    shared: &[(usize, usize)],
    others: &[AigEdge],
) -> Result<Vec<AigEdge>, MemoryError>
    requires sound { AreNodes nodes.old.items }
    requires latchs { All (IsLatch circuit.now.nodes) latchs.now }
    requires next { All (λ l. HasImage nodes.old.items before.now l.next.node_id) latchs.now }
    requires distinct { AllPairs (λ m n. m ≢ n) (latch_leaves latchs.now) }
    requires shared { All (λ p. IsLeaf circuit.now.nodes p.1) shared.now }
    requires others { All (λ p. HasImage nodes.old.items others.now p.0) shared.now }
    requires sharing { IsSharing shared.now }
    ensures sound { IfOk result (λ _. AreNodes nodes.new.items) }
    ensures count { IfOk result (λ images. length images.items ≡ length circuit.now.nodes) }
    ensures exact { IfOk result (λ images. frame_in nodes.new.items images.items
        ≡ copy_after nodes.old.items circuit.now
        (shared_leaves (model_leaf shared.now) others.now (next_leaves latchs.now before.now))) }
    ensures circuit { IsCircuit circuit.now }
{
    let mut given = vec![in alloc; None; circuit.nodes().len()]?;
    give_next(&mut given, latchs, before);
    give_shared(&mut given, shared, others);
    copy_nodes(alloc, nodes, circuit.nodes(), &given)
}

/// Marks the shared leaves.
fn mark_shared(marks: &mut [bool], shared: &[(usize, usize)])
    requires { All (λ p. p.1 < length marks.old) shared.now }
    ensures { MarksShared shared.now marks.old marks.new }
{
    for pair in shared {
        marks[pair.1] = true;
    }
}

/// The latches of the witness circuit whose leaves aren't shared.
pub(crate) fn own_latches(
    alloc: Global,
    witness: &CircuitView<'_>,
    shared: &[(usize, usize)],
) -> Result<Vec<AigLatch>, MemoryError>
    requires { All (λ p. IsLeaf witness.now.nodes p.1) shared.now }
    ensures exact { IfOk result (λ own. own.items ≡ own_among shared.now witness.now.latchs) }
    ensures latchs { IfOk result (λ own. All (IsLatch witness.now.nodes) own.items) }
{
    let mut marks = vec![in alloc; false; witness.nodes().len()]?;
    mark_shared(&mut marks, shared);
    let mut own = Vec::new(alloc);
    for latch in witness.latchs() {
        if !marks[latch.input()] {
            own.push(*latch)?;
        }
    }
    Ok(own)
}

//! Edges joined.

ghost use Rattle.std.specs.Prelude.{◌≡◌, IfOk, All, map};
ghost use Rattle.aig_circuit.specs.Edge.{inverse};
ghost use Rattle.aig_circuit.specs.Build.{AddsGates};
ghost use Rattle.aig_circuit.specs.Circuit.{AreNodes, IsInRange};
ghost use Rattle.aig_change.specs.Joining.{JoinsFirst};

use aig_base::MemoryError;
use aig_build::new_and_node;
use aig_circuit::{AigEdge, AigNode};
use std::alloc::Global;

/// The first edge, where there is one, becomes the and of itself and of `next`.
pub(crate) fn join_first(
    nodes: &mut Vec<AigNode>,
    edges: &mut Vec<AigEdge>,
    next: AigEdge,
) -> Result<(), MemoryError>
    requires sound { AreNodes nodes.old.items }
    requires next_edge { IsInRange nodes.old.items next }
    requires edges { All (IsInRange nodes.old.items) edges.old.items }
    ensures gates { IfOk result (λ _. AddsGates nodes.old.items nodes.new.items) }
    ensures joins { IfOk result
        (λ _. JoinsFirst nodes.old.items nodes.new.items next edges.old.items edges.new.items) }
{
    if edges.is_empty() {
        return Ok(());
    }
    let joined = new_and_node(nodes, edges[0], next)?;
    edges[0] = joined;
    Ok(())
}

/// The inverses of the edges.
pub(crate) fn inverses(alloc: Global, edges: &[AigEdge]) -> Result<Vec<AigEdge>, MemoryError>
    ensures { IfOk result (λ new. new.items ≡ map inverse edges.now) }
{
    let mut new = Vec::with_capacity(alloc, edges.len())?;
    for e in edges {
        new.push(!*e)?;
    }
    Ok(new)
}

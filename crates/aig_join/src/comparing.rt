//! The miter of two circuits.

ghost use Rattle.std.specs.Prelude.{◌≡◌, ◌↔◌, ◌≤◌, ◌++◌, IfOk, IsTrue, All, drop, length, take};
ghost use Rattle.aig_circuit.specs.Build.{AddsGates};
ghost use Rattle.aig_circuit.specs.Circuit.{AreNodes, IsCircuit, IsInRange};
ghost use Rattle.aig_circuit.specs.View.{lists_circuit, properties_of};
ghost use Rattle.aig_join.specs.Miter.{DifferInSteps, HaveSameCounts, IsMiter};

use crate::joining::join;
use aig_base::MemoryError;
use aig_build::new_eq_node;
use aig_circuit::{AigEdge, AigNode, CircuitLists, CircuitView, Properties};
use std::alloc::Global;

/// Whether the circuits have as many inputs, as many outputs and as many bad edges.
pub fn have_same_counts(a: &CircuitView<'_>, b: &CircuitView<'_>) -> bool
    ensures { IsTrue result ↔ HaveSameCounts a.now b.now }
{
    a.inputs().len() == b.inputs().len()
        && a.outputs().len() == b.outputs().len()
        && a.bads().len() == b.bads().len()
}

/// The edges of one list and then of the other.
fn one_list(alloc: Global, front: &[AigEdge], back: &[AigEdge]) -> Result<Vec<AigEdge>, MemoryError>
    ensures { IfOk result (λ all. all.items ≡ front.now ++ back.now) }
{
    let mut all = Vec::from_slice(alloc, front)?;
    all.extend_from_slice(back)?;
    Ok(all)
}

/// The outputs and then the bad edges up to these counts, and those past them.
fn split_compared(
    properties: &Properties<AigEdge>,
    outputs: usize,
    bads: usize,
) -> Result<(Vec<AigEdge>, Vec<AigEdge>), MemoryError>
    requires outputs { outputs ≤ length (properties_of properties.now).outputs }
    requires bads { bads ≤ length (properties_of properties.now).bads }
    ensures first { IfOk result (λ made.
        made.0.items ≡ take outputs (properties_of properties.now).outputs
        ++ take bads (properties_of properties.now).bads) }
    ensures second { IfOk result (λ made.
        made.1.items ≡ drop outputs (properties_of properties.now).outputs
        ++ drop bads (properties_of properties.now).bads) }
{
    let alloc = *properties.outputs.allocator();
    let (own, other) = properties.outputs.split_at(outputs);
    let (own_bads, other_bads) = properties.bads.split_at(bads);
    let first = one_list(alloc, own, own_bads)?;
    let second = one_list(alloc, other, other_bads)?;
    Ok((first, second))
}

/// An edge for each pair of edges that is true where the two differ, by the rule of `new_eq_node`. After refused memory
/// gates may be left.
fn differences(
    alloc: Global,
    nodes: &mut Vec<AigNode>,
    edges: &[AigEdge],
    others: &[AigEdge],
) -> Result<Vec<AigEdge>, MemoryError>
    requires sound { AreNodes nodes.old.items }
    requires edges { All (IsInRange nodes.old.items) edges.now }
    requires others { All (IsInRange nodes.old.items) others.now }
    requires count { length edges.now ≡ length others.now }
    ensures gates { IfOk result (λ _. AddsGates nodes.old.items nodes.new.items) }
    ensures steps { IfOk result (λ made.
        DifferInSteps nodes.old.items edges.now others.now made.items nodes.new.items) }
{
    let mut made = Vec::with_capacity(alloc, edges.len())?;
    for (i, e) in edges.iter().enumerate() {
        let equal = new_eq_node(nodes, *e, others[i])?;
        made.push(!equal)?;
    }
    Ok(made)
}

/// Returns the miter of two circuits: both over the same inputs, with the constraints of both, and for each pair of
/// outputs, and then of bad edges, a bad edge that is true where the two differ. Other properties are dropped. Inputs and
/// latches of the first keep their names, and a latch of the second has its name behind `other.`, where no input or latch
/// of the first is named so. The one error is refused memory.
pub fn miter(a: &CircuitView<'_>, b: &CircuitView<'_>) -> Result<CircuitLists, MemoryError>
    requires { HaveSameCounts a.now b.now }
    ensures miter { IfOk result (λ lists. IsMiter a.now b.now (lists_circuit lists)) }
    ensures circuit { IfOk result (λ lists. IsCircuit (lists_circuit lists)) }
{
    let mut lists = join(a, b, 0)?;
    let (edges, others) = split_compared(&lists.properties, a.outputs().len(), a.bads().len())?;
    let bads = differences(a.allocator(), &mut lists.nodes, &edges, &others)?;
    lists.properties.outputs.clear();
    lists.properties.bads = bads;
    lists.properties.justice.clear();
    lists.properties.fairness.clear();
    Ok(lists)
}

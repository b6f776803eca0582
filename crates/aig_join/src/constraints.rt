//! Miters of circuits whose constraints say less, or are compared, too.

ghost use Rattle.std.specs.Prelude.{◌≡◌, IfOk, All};
ghost use Rattle.aig_circuit.specs.Build.{AddsGates};
ghost use Rattle.aig_circuit.specs.Circuit.{AreNodes, IsCircuit, IsInRange};
ghost use Rattle.aig_circuit.specs.View.{lists_circuit};
ghost use Rattle.aig_join.specs.Alike.{IsMiterFrom};
ghost use Rattle.aig_join.specs.Constraints.{AreJoined, DefersConstraints, IsMiterBy, IsMiterUnder, unconstrained};
ghost use Rattle.aig_join.specs.Miter.{HaveSameCounts};
ghost use Rattle.aig_join.specs.declared.comparison.Constraints.TheVariants.{Compared};

use crate::alike::miter_from;
use crate::comparison::{Comparison, Constraints};
use crate::starts::Starts;
use aig_base::MemoryError;
use aig_build::{new_and_node, new_ands_node, new_leaf_node};
use aig_circuit::{AigEdge, AigLatch, AigNode, CircuitLists, CircuitView};
use std::alloc::Global;

/// The and of each edge of a list with one edge, by the rule of `new_and_node`. After refused memory
/// gates may be left.
fn joined_each(
    alloc: Global,
    nodes: &mut Vec<AigNode>,
    edges: &[AigEdge],
    all: AigEdge,
) -> Result<Vec<AigEdge>, MemoryError>
    requires sound { AreNodes nodes.old.items }
    requires edges { All (IsInRange nodes.old.items) edges.now }
    requires all { IsInRange nodes.old.items all }
    ensures gates { IfOk result (λ _. AddsGates nodes.old.items nodes.new.items) }
    ensures joins { IfOk result (λ made.
        AreJoined nodes.old.items all edges.now made.items nodes.new.items) }
{
    let mut made = Vec::with_capacity(alloc, edges.len())?;
    for e in edges {
        let joint = new_and_node(nodes, *e, all)?;
        made.push(joint)?;
    }
    Ok(made)
}

/// Makes the and of the constraints the first output, joins it to each further output and each bad
/// edge, and leaves one constraint: a latch that is added and is true while the old constraints held
/// at every step before. After refused memory part of it may be done.
fn defer(lists: &mut CircuitLists) -> Result<(), MemoryError>
    requires { IsCircuit (lists_circuit lists.old) }
    ensures circuit { IfOk result (λ _. IsCircuit (lists_circuit lists.new)) }
    ensures defers { IfOk result
        (λ _. DefersConstraints (lists_circuit lists.old) (lists_circuit lists.new)) }
{
    let alloc = *lists.nodes.allocator();
    let leaf = new_leaf_node(&mut lists.nodes)?;
    let held = AigEdge::from(leaf);
    let all = new_ands_node(&mut lists.nodes, &lists.properties.constraints)?;
    let next = new_and_node(&mut lists.nodes, held, all)?;
    let mut outputs = joined_each(alloc, &mut lists.nodes, &lists.properties.outputs, all)?;
    let bads = joined_each(alloc, &mut lists.nodes, &lists.properties.bads, all)?;
    outputs.insert(0, all)?;
    lists
        .latchs
        .push(AigLatch::new(leaf, next, Some(AigEdge::constant(true))))?;
    lists.properties.outputs = outputs;
    lists.properties.bads = bads;
    lists.properties.constraints.clear();
    lists.properties.constraints.push(held)?;
    Ok(())
}

/// Returns the circuit whose first output is the and of its constraints, which are assumed at every
/// step before alone.
fn defer_constraints(circuit: &CircuitView<'_>) -> Result<CircuitLists, MemoryError>
    ensures circuit { IfOk result (λ lists. IsCircuit (lists_circuit lists)) }
    ensures defers { IfOk result (λ lists. DefersConstraints circuit.now (lists_circuit lists)) }
{
    let _nodes = circuit.nodes();
    let mut lists = circuit.to_lists()?;
    defer(&mut lists)?;
    Ok(lists)
}

/// Returns the circuit without its constraints.
fn without_constraints(circuit: &CircuitView<'_>) -> Result<CircuitLists, MemoryError>
    ensures circuit { IfOk result (λ lists. IsCircuit (lists_circuit lists)) }
    ensures rest { IfOk result (λ lists. lists_circuit lists ≡ unconstrained circuit.now) }
{
    let _nodes = circuit.nodes();
    let mut lists = circuit.to_lists()?;
    lists.properties.constraints.clear();
    Ok(lists)
}

/// Returns the miter of two circuits, of which the second has no constraints.
fn miter_of_first(
    starts: Starts,
    a: &CircuitView<'_>,
    b: &CircuitView<'_>,
) -> Result<CircuitLists, MemoryError>
    requires { HaveSameCounts a.now b.now }
    ensures miter { IfOk result
        (λ lists. IsMiterFrom starts a.now (unconstrained b.now) (lists_circuit lists)) }
    ensures circuit { IfOk result (λ lists. IsCircuit (lists_circuit lists)) }
{
    let free = without_constraints(b)?;
    miter_from(starts, a, &CircuitView::new(&free))
}

/// Returns the miter of two circuits, whose constraints are compared, too.
fn miter_compared(
    starts: Starts,
    a: &CircuitView<'_>,
    b: &CircuitView<'_>,
) -> Result<CircuitLists, MemoryError>
    requires { HaveSameCounts a.now b.now }
    ensures miter { IfOk result
        (λ lists. IsMiterUnder Compared starts a.now b.now (lists_circuit lists)) }
    ensures circuit { IfOk result (λ lists. IsCircuit (lists_circuit lists)) }
{
    let first = defer_constraints(a)?;
    let second = defer_constraints(b)?;
    miter_from(
        starts,
        &CircuitView::new(&first),
        &CircuitView::new(&second),
    )
}

/// Returns the miter of two circuits (`miter_from`) that are compared as is said. Where constraints
/// are compared, the first pair of outputs is that of the ands of each circuit's constraints, and each
/// further output and each bad edge is joined to the and of its circuit. Constraints are then assumed
/// at the steps before alone, by a latch that is added to each circuit. The one error is refused
/// memory.
pub fn miter_by(
    comparison: Comparison,
    a: &CircuitView<'_>,
    b: &CircuitView<'_>,
) -> Result<CircuitLists, MemoryError>
    requires { HaveSameCounts a.now b.now }
    ensures miter { IfOk result (λ lists. IsMiterBy comparison a.now b.now (lists_circuit lists)) }
    ensures circuit { IfOk result (λ lists. IsCircuit (lists_circuit lists)) }
{
    match comparison.constraints {
        Constraints::OfBoth => miter_from(comparison.starts, a, b),
        Constraints::OfFirst => miter_of_first(comparison.starts, a, b),
        Constraints::Compared => miter_compared(comparison.starts, a, b),
    }
}

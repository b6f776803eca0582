//! What edges and nodes reach.

ghost use Rattle.std.specs.Prelude.{◌≡◌, ◌<◌, ◌↔◌, ℕ, IfOk, All, Contains, length, map};
ghost use Rattle.aig_circuit.specs.Circuit.{AreNodes, IsInRange};
ghost use Rattle.aig_circuit.specs.Reach.{IsInCone, IsFanin, IsReached, MarksExactly};
ghost use Rattle.aig_circuit.specs.Marks.{IsMarked};
ghost use Rattle.aig_cone.specs.Marks.{AddsMarks};

use crate::search::cone_marks;
use aig_base::MemoryError;
use aig_circuit::marks::mark_edges;
use aig_circuit::{AigEdge, AigNode, AigNodeType, CircuitView};
use std::alloc::Global;
use std::collections::HashSet;

/// Returns one mark a node, set for the nodes of the edges `logic` and all that they reach along operands (crate aig,
/// `fanin_logic_cone`). Latches aren't crossed, and node 0 is marked only where it is reached. Takes time linear in
/// nodes and edges. The one error is refused memory.
pub fn fanin_logic_cone(
    alloc: Global,
    nodes: &[AigNode],
    logic: &[AigEdge],
) -> Result<Vec<bool>, MemoryError>
    requires sound { AreNodes nodes.now }
    requires there { All (IsInRange nodes.now) logic.now }
    ensures { IfOk result (λ marks. MarksExactly nodes.now
        (IsReached (IsFanin nodes.now) (map (λ e. e.node_id) logic.now)) marks.items) }
{
    let mut marks = vec![in alloc; false; nodes.len()]?;
    mark_cone(&mut marks, nodes, logic);
    Ok(marks)
}

/// Marks exactly the nodes of edges and all that they reach along operands.
fn mark_cone(marks: &mut [bool], nodes: &[AigNode], logic: &[AigEdge])
    requires sound { AreNodes nodes.now }
    requires there { All (IsInRange nodes.now) logic.now }
    requires lengths { length marks.old ≡ length nodes.now }
    requires unmarked { (n : ℕ) → ¬ IsMarked marks.old n }
    ensures { (n : ℕ) → IsMarked marks.new n
        ↔ IsReached (IsFanin nodes.now) (map (λ e. e.node_id) logic.now) n }
{
    mark_edges(marks, logic);
    for id in (0..nodes.len()).rev() {
        mark_operands(marks, nodes, id);
    }
}

/// Marks the operands of a gate, if it is marked.
fn mark_operands(marks: &mut [bool], nodes: &[AigNode], id: usize)
    requires sound { AreNodes nodes.now }
    requires lengths { length marks.old ≡ length nodes.now }
    requires there { id < length nodes.now }
    ensures { AddsMarks marks.old marks.new
        (λ n. IsMarked marks.old id × IsFanin nodes.now id n) }
{
    if marks[id]
        && let AigNodeType::And(fanin0, fanin1) = *nodes[id].typ()
    {
        marks[fanin0.node_id()] = true;
        marks[fanin1.node_id()] = true;
    }
}

/// Returns the numbers of the cone of influence of the nodes `root`: 0, the roots, and all that they reach along
/// operands and, from a latch's leaf, along its next edge (crate aig, `coi`). Initial edges aren't followed. Takes time
/// linear in nodes, latches and roots. The one error is refused memory.
pub fn coi(
    alloc: Global,
    circuit: &CircuitView<'_>,
    root: &[usize],
) -> Result<HashSet<usize>, MemoryError>
    requires there { All (λ n. n < length circuit.now.nodes) root.now }
    ensures { IfOk result
        (λ cone. (n : ℕ) → Contains cone.keys n ↔ IsInCone circuit.now root.now n) }
{
    let marks = cone_marks(alloc, circuit, root)?;
    marked_set(alloc, &marks)
}

/// The set of the marked numbers.
fn marked_set(alloc: Global, marks: &[bool]) -> Result<HashSet<usize>, MemoryError>
    ensures { IfOk result (λ set. (n : ℕ) → Contains set.keys n ↔ IsMarked marks.now n) }
{
    let mut set = HashSet::new(alloc);
    for (id, marked) in marks.iter().enumerate() {
        if *marked {
            set.insert(id)?;
        }
    }
    Ok(set)
}

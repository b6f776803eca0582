//! The circuit of a cone.

ghost use Rattle.std.specs.Prelude.{◌≡◌, ◌<◌, ◌≤◌, ◌^◌, ◌++◌, ℕ, List, All, AllPairs, IfOk, OnOk, length, map, option_to_list};
ghost use Rattle.std.specs.List.{flat_map};
ghost use Rattle.aig_circuit.specs.Circuit.{IsCircuit, latch_leaves};
ghost use Rattle.aig_circuit.specs.Edges.{initial_edges};
ghost use Rattle.aig_circuit.specs.View.{lists_circuit};
ghost use Rattle.aig_cone.specs.Marks.{AreMarked};
ghost use Rattle.aig_cone.specs.Refine.{AreKept, ArePlaces, IsMapOf, refined, refining_roots, variable_nodes};

use crate::search::cone_marks;
use aig_base::{MemoryError, Var, VarVMap};
use aig_circuit::{AigEdge, AigLatch, CircuitLists, CircuitView};
use aig_renumber::renumber;
use std::alloc::Global;

/// Returns the circuit of 0 and what all properties, all latches and the initial edges that aren't constant reach, in
/// the old order, and the map that gives each kept node's old number (crate aig, `coi_refine`). Takes time linear in
/// nodes and lists. Requires at most 2^31 nodes. The one error is refused memory.
pub fn coi_refine(
    alloc: Global,
    circuit: &CircuitView<'_>,
) -> Result<(CircuitLists, VarVMap), MemoryError>
    requires few { length circuit.now.nodes ≤ 2 ^ 31 }
    ensures { IfOk result (λ made. (kept : List ℕ) × AreKept circuit.now kept
        × (lists_circuit made.0 ≡ refined kept circuit.now) × IsMapOf kept made.1) }
{
    let kept = kept_numbers(alloc, circuit)?;
    kept_part(alloc, circuit, &kept)
}

/// The circuit of the kept nodes, and the map that gives their old numbers.
fn kept_part(
    alloc: Global,
    circuit: &CircuitView<'_>,
    kept: &[usize],
) -> Result<(CircuitLists, VarVMap), MemoryError>
    requires circuit { IsCircuit circuit.now }
    requires few { length circuit.now.nodes ≤ 2 ^ 31 }
    requires kept { AreKept circuit.now kept.now }
    ensures { IfOk result (λ made. (lists_circuit made.0 ≡ refined kept.now circuit.now)
        × IsMapOf kept.now made.1) }
{
    let old_numbers = old_numbers(alloc, kept)?;
    let lists = kept_lists(alloc, circuit, kept)?;
    Ok((lists, old_numbers))
}

/// The circuit of the kept nodes.
fn kept_lists(
    alloc: Global,
    circuit: &CircuitView<'_>,
    kept: &[usize],
) -> Result<CircuitLists, MemoryError>
    requires { AreKept circuit.now kept.now }
    ensures { IfOk result (λ lists. lists_circuit lists ≡ refined kept.now circuit.now) }
{
    let numbers = places(alloc, kept, circuit.nodes().len())?;
    renumber(alloc, circuit, &numbers, kept)
}

/// The numbers of the nodes that are kept, in rising order.
fn kept_numbers(alloc: Global, circuit: &CircuitView<'_>) -> Result<Vec<usize>, MemoryError>
    ensures { IfOk result (λ kept. IsCircuit circuit.now × AreKept circuit.now kept.items) }
{
    let roots = roots(alloc, circuit)?;
    let marks = cone_marks(alloc, circuit, &roots)?;
    marked_numbers(alloc, &marks)
}

/// The nodes of all properties, the leaves of all latches, and the nodes of the initial edges that aren't constant.
fn roots(alloc: Global, circuit: &CircuitView<'_>) -> Result<Vec<usize>, MemoryError>
    ensures { IfOk result (λ roots. IsCircuit circuit.now
        × (roots.items ≡ refining_roots circuit.now)) }
{
    let mut roots = Vec::new(alloc);
    push_roots(&mut roots, circuit)?;
    Ok(roots)
}

/// Appends these nodes.
fn push_roots(roots: &mut Vec<usize>, circuit: &CircuitView<'_>) -> Result<(), MemoryError>
    ensures { OnOk result (IsCircuit circuit.now
        × (roots.new.items ≡ roots.old.items ++ refining_roots circuit.now)) }
{
    push_nodes(roots, circuit.outputs())?;
    push_nodes(roots, circuit.bads())?;
    push_nodes(roots, circuit.constraints())?;
    push_sets(roots, circuit.justice())?;
    push_nodes(roots, circuit.fairness())?;
    push_leaves(roots, circuit.latchs())?;
    push_starts(roots, circuit.latchs())
}

/// Appends the nodes of edges.
fn push_nodes(roots: &mut Vec<usize>, edges: &[AigEdge]) -> Result<(), MemoryError>
    ensures { OnOk result (roots.new.items ≡ roots.old.items ++ map (λ e. e.node_id) edges.now) }
{
    for e in edges {
        roots.push(e.node_id())?;
    }
    Ok(())
}

/// Appends the nodes of the edges of sets.
fn push_sets(roots: &mut Vec<usize>, sets: &[Vec<AigEdge>]) -> Result<(), MemoryError>
    ensures { OnOk result (roots.new.items
        ≡ roots.old.items ++ map (λ e. e.node_id) (flat_map (λ set. set.items) sets.now)) }
{
    for set in sets {
        push_nodes(roots, set)?;
    }
    Ok(())
}

/// Appends the leaves of latches.
fn push_leaves(roots: &mut Vec<usize>, latchs: &[AigLatch]) -> Result<(), MemoryError>
    ensures { OnOk result (roots.new.items ≡ roots.old.items ++ latch_leaves latchs.now) }
{
    for latch in latchs {
        roots.push(latch.input())?;
    }
    Ok(())
}

/// Appends the nodes of the initial edges that aren't constant.
fn push_starts(roots: &mut Vec<usize>, latchs: &[AigLatch]) -> Result<(), MemoryError>
    ensures { OnOk result (roots.new.items
        ≡ roots.old.items ++ variable_nodes (initial_edges latchs.now)) }
{
    for latch in latchs {
        push_start(roots, latch.init())?;
    }
    Ok(())
}

/// Appends the node of an initial edge, if it is there and isn't constant.
fn push_start(roots: &mut Vec<usize>, start: Option<AigEdge>) -> Result<(), MemoryError>
    ensures { OnOk result (roots.new.items
        ≡ roots.old.items ++ variable_nodes (option_to_list start)) }
{
    if let Some(e) = start
        && !e.is_const()
    {
        roots.push(e.node_id())?;
    }
    Ok(())
}

/// The marked numbers in rising order.
fn marked_numbers(alloc: Global, marks: &[bool]) -> Result<Vec<usize>, MemoryError>
    ensures { IfOk result (λ numbers. AreMarked marks.now numbers.items) }
{
    let mut numbers = Vec::new(alloc);
    for (id, marked) in marks.iter().enumerate() {
        if *marked {
            numbers.push(id)?;
        }
    }
    Ok(numbers)
}

/// For each of so many nodes the place of its number among the kept, or 0.
fn places(alloc: Global, kept: &[usize], count: usize) -> Result<Vec<usize>, MemoryError>
    requires rising { AllPairs (λ m n. m < n) kept.now }
    requires there { All (λ n. n < count) kept.now }
    requires some { 0 < length kept.now }
    ensures { IfOk result (λ numbers. ArePlaces kept.now count numbers.items) }
{
    let mut numbers = vec![in alloc; 0; count]?;
    for (i, n) in kept.iter().enumerate() {
        numbers[*n] = i;
    }
    Ok(numbers)
}

/// The map that gives each kept node's old number.
fn old_numbers(alloc: Global, kept: &[usize]) -> Result<VarVMap, MemoryError>
    requires few { All (λ n. n < 2 ^ 31) kept.now }
    requires count { length kept.now ≤ 2 ^ 31 }
    ensures { IfOk result (IsMapOf kept.now) }
{
    let mut map = VarVMap::new(alloc);
    for (i, n) in kept.iter().enumerate() {
        map.insert(Var::new(i), Var::new(*n))?;
    }
    Ok(map)
}

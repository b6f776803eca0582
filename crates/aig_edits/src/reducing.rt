//! What of a circuit a query needs.

ghost use Rattle.std.specs.Prelude.{◌≡◌, ◌≤◌, ◌^◌, ◌++◌, ℕ, List, IfOk, OnOk, length};
ghost use Rattle.aig_circuit.specs.Circuit.{IsCircuit};
ghost use Rattle.aig_circuit.specs.Edges.{initial_edges, nodes_of};
ghost use Rattle.aig_circuit.specs.View.{lists_circuit};
ghost use Rattle.aig_edit_laws.specs.Reduction.{IsAskedCone, IsReduced, asked_alone, asked_edges};

use aig_base::MemoryError;
use aig_circuit::{AigEdge, AigLatch, CircuitLists, CircuitView};
use aig_cone::{coi, coi_refine, refining_is_circuit};
use aig_edit_laws::{asked_circuits_are_circuits, hashed_cuts_are_reductions};
use aig_strash::{strash, strashing_is_circuit};
use std::alloc::Global;
use std::collections::HashSet;

/// Keeps of a circuit what a query needs: drops outputs, justice and fairness, and the latches that are out of the cone of
/// influence of the bad edges, the constraints and the initial edges (`coi`); cuts it to what is left (`coi_refine`), and
/// lets gates share one node where their trees are equal (`strash`).
///
/// At each step the result has a run from an initial state that meets the constraints and some bad edge exactly where the circuit
/// has one. Latches stay in order, and names at the nodes that stay. Takes time linear in nodes and lists. Requires at most
/// 2^31 nodes. The one error is refused memory.
pub(crate) fn reduced(alloc: Global, circuit: &CircuitView<'_>) -> Result<CircuitLists, MemoryError>
    requires { length circuit.now.nodes ≤ 2 ^ 31 }
    // What is kept, and what it shows.
    ensures reduced { IfOk result (λ lists. IsReduced circuit.now (lists_circuit lists)) }
    // It is a circuit.
    ensures circuit { IfOk result (λ lists. IsCircuit (lists_circuit lists)) }
{
    asked_circuits_are_circuits();
    hashed_cuts_are_reductions();
    refining_is_circuit();
    strashing_is_circuit();
    let asked = asked_part(alloc, circuit)?;
    let (refined, _old_numbers) = coi_refine(alloc, &CircuitView::new(&asked))?;
    strash(&CircuitView::new(&refined))
}

/// The circuit with the latches that its query's cone reaches alone, and with its bad edges and constraints as the only
/// properties.
fn asked_part(alloc: Global, circuit: &CircuitView<'_>) -> Result<CircuitLists, MemoryError>
    ensures { IfOk result (λ lists. IsCircuit circuit.now
        × ((cone : List ℕ) × IsAskedCone circuit.now cone
        × (lists_circuit lists ≡ asked_alone cone circuit.now))) }
{
    let cone = asked_cone(alloc, circuit)?;
    let mut lists = circuit.to_lists()?;
    lists.latchs.retain(|latch| cone.contains(&latch.input()));
    lists.properties.outputs.clear();
    lists.properties.justice.clear();
    lists.properties.fairness.clear();
    Ok(lists)
}

/// The cone of influence of the bad edges, the constraints and the initial edges.
fn asked_cone(alloc: Global, circuit: &CircuitView<'_>) -> Result<HashSet<usize>, MemoryError>
    ensures { IfOk result (λ cone. IsCircuit circuit.now × IsAskedCone circuit.now cone.keys) }
{
    let roots = asked_nodes(alloc, circuit)?;
    coi(alloc, circuit, &roots)
}

/// The nodes of these edges.
fn asked_nodes(alloc: Global, circuit: &CircuitView<'_>) -> Result<Vec<usize>, MemoryError>
    ensures { IfOk result (λ nodes. IsCircuit circuit.now
        × (nodes.items ≡ nodes_of (asked_edges circuit.now))) }
{
    let mut nodes = Vec::new(alloc);
    push_nodes(&mut nodes, circuit.bads())?;
    push_nodes(&mut nodes, circuit.constraints())?;
    push_starts(&mut nodes, circuit.latchs())?;
    Ok(nodes)
}

/// Appends the nodes of edges.
fn push_nodes(nodes: &mut Vec<usize>, edges: &[AigEdge]) -> Result<(), MemoryError>
    ensures { OnOk result (nodes.new.items ≡ nodes.old.items ++ nodes_of edges.now) }
{
    for e in edges {
        nodes.push(e.node_id())?;
    }
    Ok(())
}

/// Appends the nodes of the initial edges.
fn push_starts(nodes: &mut Vec<usize>, latchs: &[AigLatch]) -> Result<(), MemoryError>
    ensures { OnOk result (nodes.new.items
        ≡ nodes.old.items ++ nodes_of (initial_edges latchs.now)) }
{
    for latch in latchs {
        if let Some(e) = latch.init() {
            nodes.push(e.node_id())?;
        }
    }
    Ok(())
}

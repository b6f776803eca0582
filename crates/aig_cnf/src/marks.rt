//! Marks of the nodes that roots and forms of gates name.

ghost use Rattle.std.specs.Prelude.{◌≡◌, ◌↔◌, ℕ, All, IfOk, length};
ghost use Rattle.std.specs.List.{flat_map};
ghost use Rattle.aig_circuit.specs.Circuit.{IsCircuit};
ghost use Rattle.aig_cnf.specs.Cnf.{edges_of_form};
ghost use Rattle.aig_circuit.specs.Edges.{ReferTo, latch_edges, roots_of};
ghost use Rattle.aig_circuit.specs.Marks.{HasMarks, IsMarked, AddsEdgeMarks};

use crate::form::Form;
use aig_base::MemoryError;
use aig_circuit::marks::mark_edges;
use aig_circuit::{AigEdge, AigLatch, CircuitView};
use std::alloc::Global;

/// Marks the nodes of the edges of sets.
fn mark_sets(marks: &mut [bool], sets: &[Vec<AigEdge>])
    requires { All (λ set. HasMarks marks.old set.items) sets.now }
    ensures { AddsEdgeMarks marks.old marks.new (flat_map (λ set. set.items) sets.now) }
{
    for set in sets {
        mark_edges(marks, set);
    }
}

/// Marks the nodes of a latch's next edge, and of its initial edge if it has one.
fn mark_latch(marks: &mut [bool], latch: &AigLatch)
    requires { HasMarks marks.old (latch_edges latch.now) }
    ensures { AddsEdgeMarks marks.old marks.new (latch_edges latch.now) }
{
    marks[latch.next().node_id()] = true;
    if let Some(e) = latch.init() {
        marks[e.node_id()] = true;
    }
}

/// Marks the nodes of the next and the initial edges of latches.
fn mark_latches(marks: &mut [bool], latchs: &[AigLatch])
    requires { All (λ latch. HasMarks marks.old (latch_edges latch)) latchs.now }
    ensures { AddsEdgeMarks marks.old marks.new (flat_map latch_edges latchs.now) }
{
    for latch in latchs {
        mark_latch(marks, latch);
    }
}

/// Marks the nodes of all roots.
fn mark_roots(marks: &mut [bool], circuit: &CircuitView<'_>)
    requires circuit { IsCircuit circuit.now }
    requires lengths { length marks.old ≡ length circuit.now.nodes }
    ensures { AddsEdgeMarks marks.old marks.new (roots_of circuit.now) }
{
    mark_edges(marks, circuit.outputs());
    mark_edges(marks, circuit.bads());
    mark_edges(marks, circuit.constraints());
    mark_sets(marks, circuit.justice());
    mark_edges(marks, circuit.fairness());
    mark_latches(marks, circuit.latchs());
}

/// Marks the nodes of the edges of a form.
pub fn mark_form(marks: &mut [bool], form: Form)
    requires { HasMarks marks.old (edges_of_form form) }
    ensures { AddsEdgeMarks marks.old marks.new (edges_of_form form) }
{
    match form {
        Form::AndOf(a, b) => mark_edges(marks, &[a, b]),
        Form::XorOf(x, y) => mark_edges(marks, &[x, y]),
        Form::IteOf(c, t, e) => mark_edges(marks, &[c, t, e]),
    }
}

/// For each node a mark that says whether it is the node of a root.
pub fn find_roots(alloc: Global, circuit: &CircuitView<'_>) -> Result<Vec<bool>, MemoryError>
    requires { IsCircuit circuit.now }
    ensures count { IfOk result (λ marks. length marks.items ≡ length circuit.now.nodes) }
    ensures exactly { IfOk result (λ marks. (n : ℕ) → IsMarked marks.items n
        ↔ ReferTo (roots_of circuit.now) n) }
{
    let mut marks = vec![in alloc; false; circuit.nodes().len()]?;
    mark_roots(&mut marks, circuit);
    Ok(marks)
}

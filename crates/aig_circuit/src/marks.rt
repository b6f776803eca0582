//! Marks of nodes: one truth value a node, at the place of its number.

ghost use Rattle.aig_circuit.specs.Marks.{HasMarks, AddsEdgeMarks};

use crate::edge::AigEdge;

/// Marks the nodes of edges, and leaves all other marks. Requires a mark for the node of each edge.
pub fn mark_edges(marks: &mut [bool], edges: &[AigEdge])
    requires { HasMarks marks.old edges.now }
    ensures { AddsEdgeMarks marks.old marks.new edges.now }
{
    for e in edges {
        marks[e.node_id()] = true;
    }
}

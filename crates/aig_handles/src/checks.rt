//! What is looked for before a circuit is changed.

ghost use Rattle.std.specs.Prelude.{◌↔◌, All, IfSome, IsTrue};
ghost use Rattle.aig_circuit.specs.Circuit.{IsInRange};
ghost use Rattle.aig_handles.specs.Building.{HasEdges};

use aig::{Aig, AigEdge};

/// The most nodes whose edges have literals.
pub(crate) const MOST_NODES: usize = 1 << 31;

/// Whether edges are of a circuit.
pub(crate) fn have_edges(aig: &Aig, edges: &[AigEdge]) -> bool
    ensures { IsTrue result ↔ All (IsInRange aig.now.nodes) edges.now }
{
    edges.iter().all(|e| aig.has_edge(*e))
}

/// Whether an edge, if any, is of a circuit.
pub(crate) fn has_edge_if_any(aig: &Aig, edge: Option<AigEdge>) -> bool
    ensures { IsTrue result ↔ IfSome edge (IsInRange aig.now.nodes) }
{
    match edge {
        Some(e) => aig.has_edge(e),
        None => true,
    }
}

/// Whether a latch's edges are of a circuit.
pub(crate) fn has_edges(aig: &Aig, next: AigEdge, init: Option<AigEdge>) -> bool
    ensures { IsTrue result ↔ HasEdges aig.now next init }
{
    aig.has_edge(next) && has_edge_if_any(aig, init)
}

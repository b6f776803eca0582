//! Edges as C gives them: by their literals.

ghost use Rattle.std.specs.Prelude.{◌≡◌, ◌<◌, ◌^◌};
ghost use Rattle.aig_circuit.specs.Edge as edges;
ghost use Rattle.aig_giving.specs.Edges.{edge_of};

use aig_base::Lit;
use aig_circuit::{AigEdge, keeps_edges_by_literal};

/// The edge of a literal.
pub fn edge_of(literal: u32) -> AigEdge
    ensures { result ≡ edge_of literal }
{
    AigEdge::from_lit(Lit::from(literal))
}

/// The literal of an edge.
pub fn literal_of(e: AigEdge) -> u32
    requires { e.node_id < 2 ^ 31 }
    ensures value { result ≡ edges.literal_of e }
    ensures back { edge_of result ≡ e }
{
    keeps_edges_by_literal();
    u32::from(e.to_lit())
}

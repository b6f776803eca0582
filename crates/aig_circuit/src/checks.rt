//! Whether a node fits in a place, and whether a circuit begins with another.

ghost use Rattle.std.specs.Prelude.{◌≡◌, ◌↔◌, ◌≤◌, IsTrue};
ghost use Rattle.aig_circuit.specs.Edge.{literal_of};
ghost use Rattle.aig_circuit.specs.Node.{Admits, FitsBelow, IsSameKind};
ghost use Rattle.aig_circuit.specs.Circuit.{HasFirst, latch_leaves};

use crate::edge::AigEdge;
use crate::node::{AigLatch, AigNode, AigNodeType};

/// Whether both are false, both leaves, or both gates.
fn is_same_kind(kind: &AigNodeType, other: &AigNodeType) -> bool
    ensures { IsTrue result ↔ IsSameKind kind.now other.now }
{
    match (kind, other) {
        (AigNodeType::False, AigNodeType::False) => true,
        (AigNodeType::Leaf, AigNodeType::Leaf) => true,
        (AigNodeType::And(_, _), AigNodeType::And(_, _)) => true,
        _ => false,
    }
}

/// Whether the first edge is not greater than the second.
fn are_in_order(first: AigEdge, second: AigEdge) -> bool
    ensures { IsTrue result ↔ (literal_of first ≤ literal_of second) }
{
    first <= second
}

/// Whether a gate's operands are in order and below the number.
fn fits_below(id: usize, kind: &AigNodeType) -> bool
    ensures { IsTrue result ↔ FitsBelow id kind.now }
{
    match *kind {
        AigNodeType::And(fanin0, fanin1) => are_in_order(fanin0, fanin1) && fanin1.node_id() < id,
        _ => true,
    }
}

/// Whether the node may stand in place of node `i`: node `i` is there, the number is `i`, the kind is the same, and a
/// gate's operands are in order and have smaller numbers.
pub fn admits(nodes: &[AigNode], i: usize, node: &AigNode) -> bool
    ensures { IsTrue result ↔ Admits nodes.now i node.now }
{
    i < nodes.len()
        && node.node_id() == i
        && is_same_kind(nodes[i].typ(), node.typ())
        && fits_below(i, node.typ())
}

/// Whether both are false, both leaves, or both the and of the same edges.
fn is_equal(kind: &AigNodeType, other: &AigNodeType) -> bool
    ensures { IsTrue result ↔ (kind.now ≡ other.now) }
{
    match (kind, other) {
        (AigNodeType::And(a, b), AigNodeType::And(c, d)) => a == c && b == d,
        _ => is_same_kind(kind, other),
    }
}

/// Whether the first nodes are those of `first`: there are as many or more, and each of these is of the same kind and has
/// the same operands.
pub fn has_first(nodes: &[AigNode], first: &[AigNode]) -> bool
    ensures { IsTrue result ↔ HasFirst nodes.now first.now }
{
    nodes.len() >= first.len()
        && nodes
            .iter()
            .zip(first)
            .all(|(node, other)| is_equal(node.typ(), other.typ()))
}

/// Whether the latches have the same leaves in the same order.
pub fn have_same_leaves(latchs: &[AigLatch], others: &[AigLatch]) -> bool
    ensures { IsTrue result ↔ (latch_leaves latchs.now ≡ latch_leaves others.now) }
{
    latchs.len() == others.len()
        && latchs
            .iter()
            .zip(others)
            .all(|(latch, other)| latch.input() == other.input())
}

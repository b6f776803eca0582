//! Lists of edges, latches and nodes for C.

ghost use Rattle.std.specs.Prelude.{◌≡◌, ◌<◌, ◌^◌, All, IfOk, IfSome, map};
ghost use Rattle.aig_circuit.specs.declared.edge.AigEdge.{AigEdge};
ghost use Rattle.aig_circuit.specs.declared.node.AigNodeType.TheVariants.{And};
ghost use Rattle.aig_circuit.specs.Edge as edge_words;
ghost use Rattle.aig_giving.specs.Edges.{edge_of, given_latch, given_node};

use crate::edges::{edge_of, literal_of};
use aig_base::MemoryError;
use aig_circuit::{AigEdge, AigLatch, AigNode, AigNodeType};
use std::alloc::Global;

/// A latch: its leaf's number, the literal of its next edge, and whether it has an initial edge and its literal.
#[repr(C)]
#[derive(Clone, Copy)]
pub struct GivenLatch {
    pub input: usize,
    pub next: u32,
    pub init: u32,
    pub has_init: bool,
}

/// A node: what it is, and the literals of its operands.
#[repr(C)]
#[derive(Clone, Copy)]
pub struct GivenNode {
    pub kind: u32,
    pub fanin0: u32,
    pub fanin1: u32,
}

/// The edges of literals.
pub fn edges_of(alloc: Global, literals: &[u32]) -> Result<Vec<AigEdge>, MemoryError>
    ensures { IfOk result (λ v. v.items ≡ map edge_of literals.now) }
{
    Ok(
        literals
            .iter()
            .map(|literal| edge_of(*literal))
            .collect(alloc)?,
    )
}

/// The literals of edges.
pub fn literals(alloc: Global, edges: &[AigEdge]) -> Result<Vec<u32>, MemoryError>
    requires { All (λ e. e.node_id < 2 ^ 31) edges.now }
    ensures { IfOk result (λ v. v.items ≡ map edge_words.literal_of edges.now) }
{
    Ok(edges.iter().map(|e| literal_of(*e)).collect(alloc)?)
}

/// A latch, for C.
fn given_latch(latch: &AigLatch) -> GivenLatch
    requires next { latch.now.next.node_id < 2 ^ 31 }
    requires init { IfSome latch.now.init (λ e. e.node_id < 2 ^ 31) }
    ensures { result ≡ given_latch latch.now }
{
    let (has_init, init) = match latch.init() {
        Some(e) => (true, literal_of(e)),
        None => (false, 0),
    };
    GivenLatch {
        input: latch.input(),
        next: literal_of(latch.next()),
        init,
        has_init,
    }
}

/// Latches, for C.
pub fn latches(alloc: Global, latchs: &[AigLatch]) -> Result<Vec<GivenLatch>, MemoryError>
    requires { All (λ l. (l.next.node_id < 2 ^ 31) × IfSome l.init (λ e. e.node_id < 2 ^ 31))
        latchs.now }
    ensures { IfOk result (λ v. v.items ≡ map given_latch latchs.now) }
{
    Ok(
        latchs
            .iter()
            .map(|latch| given_latch(latch))
            .collect(alloc)?,
    )
}

/// A node, for C.
fn given_node(node: &AigNode) -> GivenNode
    requires { (a b : AigEdge) → node.now.typ ≡ And a b → (a.node_id < 2 ^ 31)
        × (b.node_id < 2 ^ 31) }
    ensures { result ≡ given_node node.now }
{
    match node.typ() {
        AigNodeType::False => GivenNode {
            kind: 0,
            fanin0: 0,
            fanin1: 0,
        },
        AigNodeType::Leaf => GivenNode {
            kind: 1,
            fanin0: 0,
            fanin1: 0,
        },
        AigNodeType::And(a, b) => GivenNode {
            kind: 2,
            fanin0: literal_of(*a),
            fanin1: literal_of(*b),
        },
    }
}

/// Nodes, for C.
pub fn nodes(alloc: Global, nodes: &[AigNode]) -> Result<Vec<GivenNode>, MemoryError>
    requires { All (λ n. (a b : AigEdge) → n.typ ≡ And a b → (a.node_id < 2 ^ 31)
        × (b.node_id < 2 ^ 31)) nodes.now }
    ensures { IfOk result (λ v. v.items ≡ map given_node nodes.now) }
{
    Ok(nodes.iter().map(|node| given_node(node)).collect(alloc)?)
}

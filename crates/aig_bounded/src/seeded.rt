//! Hashers that start from a hash of a circuit.

ghost use Rattle.std.specs.Prelude.{◌≡◌};

use aig_circuit::{AigEdge, AigLatch, AigNode, AigNodeType, CircuitView};
use std::hash::{BuildHasher, DefaultHasher, FoldHasher, Hasher};

/// Makes fast hashers that start from a seed: a hash of all that decides which gates a question has. So whoever looks for
/// a circuit whose gates collide changes the seed by each change of it.
#[derive(Clone, Copy)]
pub(crate) struct Seeded {
    first: FoldHasher,
}

impl Seeded {
    /// Returns what makes hashers for the gates of this circuit's steps. Two fast hashes go over the circuit, and a slow
    /// one over these two.
    pub(crate) fn of(circuit: &CircuitView<'_>) -> Seeded {
        let mut both = DefaultHasher::new();
        both.write_u64(hash_turned(circuit, 0));
        both.write_u64(hash_turned(circuit, 32));
        let mut first = FoldHasher::default();
        first.write_u64(both.finish());
        Seeded { first }
    }
}

impl BuildHasher for Seeded {
    type Hasher = FoldHasher;

    ghost build_hasher = { λ s. s.first };

    fn build_hasher(&self) -> FoldHasher {
        self.first
    }
}

/// A hash of the circuit's gates, next edges and properties, whose literals are turned by so many bits.
fn hash_turned(circuit: &CircuitView<'_>, bits: u32) -> u64 {
    let mut hasher = FoldHasher::default();
    hash_gates(&mut hasher, circuit.nodes(), bits);
    hash_latches(&mut hasher, circuit.latchs(), bits);
    hash_edges(&mut hasher, circuit.constraints(), bits);
    hash_edges(&mut hasher, circuit.bads(), bits);
    hasher.finish()
}

/// Hashes the operands of all gates.
fn hash_gates(hasher: &mut FoldHasher, nodes: &[AigNode], bits: u32) {
    for node in nodes {
        if let AigNodeType::And(fanin0, fanin1) = *node.typ() {
            hasher.write_u64(turned(fanin0, bits));
            hasher.write_u64(turned(fanin1, bits));
        }
    }
}

/// Hashes the leaves and the next edges of latches.
fn hash_latches(hasher: &mut FoldHasher, latchs: &[AigLatch], bits: u32) {
    for latch in latchs {
        hasher.write_u64(turned(AigEdge::from(latch.input()), bits));
        hasher.write_u64(turned(latch.next(), bits));
    }
}

/// Hashes edges.
fn hash_edges(hasher: &mut FoldHasher, edges: &[AigEdge], bits: u32) {
    for edge in edges {
        hasher.write_u64(turned(*edge, bits));
    }
}

/// The literal of an edge, unless its node's number has 64 bits, turned by so many bits.
fn turned(edge: AigEdge, bits: u32) -> u64 {
    ((edge.node_id() as u64).rotate_left(1) ^ u64::from(edge.compl())).rotate_left(bits)
}

//! Hashers that start from a hash of a circuit's gates.

ghost use Rattle.std.specs.Prelude.{◌≡◌};

use aig_circuit::{AigEdge, AigNode, AigNodeType};
use std::hash::{BuildHasher, DefaultHasher, FoldHasher, Hasher};

/// Makes fast hashers that start from a seed: a hash of all gates of a circuit. So whoever looks for gates that collide changes
/// the seed by each of them.
#[derive(Clone, Copy)]
pub(crate) struct Seeded {
    first: FoldHasher,
}

impl Seeded {
    /// Returns what makes hashers for the gates of these nodes, and how many gates there are. Two fast hashes go over the
    /// gates, and a slow one over these two.
    pub(crate) fn of(nodes: &[AigNode]) -> (Seeded, usize) {
        let (forward, backward, count) = hash_gates(nodes);
        let mut both = DefaultHasher::new();
        both.write_u64(forward);
        both.write_u64(backward);
        let mut first = FoldHasher::default();
        first.write_u64(both.finish());
        (Seeded { first }, count)
    }
}

impl BuildHasher for Seeded {
    type Hasher = FoldHasher;

    ghost build_hasher = { λ s. s.first };

    fn build_hasher(&self) -> FoldHasher {
        self.first
    }
}

/// Two hashes of all gates, which take the literals of a gate in one order and in the other, and how many gates there are.
fn hash_gates(nodes: &[AigNode]) -> (u64, u64, usize) {
    let mut forward = FoldHasher::default();
    let mut backward = FoldHasher::default();
    backward.write_u64(1);
    let mut count = 0;
    for node in nodes {
        if let AigNodeType::And(fanin0, fanin1) = *node.typ() {
            let (first, second) = (literal(fanin0), literal(fanin1));
            write_literals(&mut forward, first, second);
            write_literals(&mut backward, second, first);
            count += 1;
        }
    }
    (forward.finish(), backward.finish(), count)
}

/// The literal of an edge, unless its node's number has 64 bits.
fn literal(edge: AigEdge) -> u64 {
    (edge.node_id() as u64).rotate_left(1) ^ u64::from(edge.compl())
}

/// Writes the literals of a gate, in 8 bytes where they fit 32 bits each.
fn write_literals(hasher: &mut FoldHasher, first: u64, second: u64) {
    if (first | second) >> 32 == 0 {
        hasher.write_u64(first | second << 32);
    } else {
        hasher.write_u64(first);
        hasher.write_u64(second);
    }
}

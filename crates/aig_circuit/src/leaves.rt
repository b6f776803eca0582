//! Leaves of a circuit: which are inputs, which are latches', and which are neither.

ghost use Rattle.std.specs.Prelude.{◌≡◌, ◌↔◌, ◌++◌, ℕ, false, IsTrue, Contains, count_by};
ghost use Rattle.aig_circuit.specs.Circuit.{AreLeaves, HasFreeLeaf, IsLeaf, IsFree, latch_leaves};
ghost use Rattle.aig_circuit.specs.Runs.{is_leaf};

use crate::node::{AigLatch, AigNode};

/// Whether node `id` is there and is a leaf.
fn is_leaf_at(nodes: &[AigNode], id: usize) -> bool
    ensures { IsTrue result ↔ IsLeaf nodes.now id }
{
    id < nodes.len() && nodes[id].is_leaf()
}

/// Whether the number is one of the inputs.
fn is_input(inputs: &[usize], id: usize) -> bool
    ensures { IsTrue result ↔ Contains inputs.now id }
{
    inputs.contains(&id)
}

/// Whether the number is a latch's leaf.
fn is_latch_leaf(latchs: &[AigLatch], id: usize) -> bool
    ensures { IsTrue result ↔ Contains (latch_leaves latchs.now) id }
{
    latchs.iter().any(|latch| latch.input() == id)
}

/// Whether node `id` is a leaf that is neither input nor latch.
pub fn is_free_leaf(nodes: &[AigNode], inputs: &[usize], latchs: &[AigLatch], id: usize) -> bool
    ensures { IsTrue result ↔ (IsLeaf nodes.now id × IsFree inputs.now latchs.now id) }
{
    is_leaf_at(nodes, id) && !is_input(inputs, id) && !is_latch_leaf(latchs, id)
}

/// How many of the nodes are leaves.
fn count_leaves(nodes: &[AigNode]) -> usize
    ensures { result ≡ count_by (λ node. is_leaf node.typ) nodes.now }
{
    nodes.iter().filter(|node| node.is_leaf()).count()
}

/// Whether every leaf is an input or a latch's: there are as many leaves as inputs and latches, which are distinct
/// leaves.
pub fn is_closed(nodes: &[AigNode], inputs: &[usize], latchs: &[AigLatch]) -> bool
    requires { AreLeaves nodes.now inputs.now latchs.now }
    ensures closed { IsTrue result ↔ ((n : ℕ) → IsLeaf nodes.now n
        → Contains (inputs.now ++ latch_leaves latchs.now) n) }
    ensures open { result ≡ false → HasFreeLeaf nodes.now inputs.now latchs.now }
{
    count_leaves(nodes) == inputs.len() + latchs.len()
}

//! Nodes in a new order.

ghost use Rattle.std.specs.Prelude.{◌≡◌, ◌<◌, ◌++◌, ◌∷◌, [], ℕ, IfOk, All, Some, length, slice_index, vec_capacity, vec_len};
ghost use Rattle.aig_circuit.specs.declared.node.AigNodeType.TheVariants.{False};
ghost use Rattle.aig_circuit.specs.Circuit.{AreNodes};
ghost use Rattle.aig_circuit.specs.Node.{IfAnd};
ghost use Rattle.aig_circuit.specs.Renumber.{nodes_in_order as nodes_of_order, renumbered_kind};

use crate::numbering::{Numbering, Table};
use crate::renumbered::renumbered_edge;
use aig_base::MemoryError;
use aig_circuit::{AigNode, AigNodeType, false_node, gate_node, leaf_node};
use std::alloc::Global;

/// Appends the node under the number `id`, with a gate's operands under their new numbers and put in order again. Requires
/// room. Each kind is pushed by itself: a node that may be of any kind would be put together elsewhere first, and copied.
fn push_renumbered<N: Numbering>(nodes: &mut Vec<AigNode>, numbers: &N, id: usize, node: &AigNode)
    requires operands { IfAnd node.now.typ (N.has numbers.now) }
    requires number { node.now.typ ≡ False → id ≡ 0 }
    requires room { vec_len nodes.old < vec_capacity nodes.old }
    ensures items { nodes.new.items ≡ nodes.old.items ++ record
        { node_id = id; typ = renumbered_kind (N.number_of numbers.now) (Some node.now.typ) } ∷ [] }
    ensures capacity { vec_capacity nodes.new ≡ vec_capacity nodes.old }
{
    match *node.typ() {
        AigNodeType::And(fanin0, fanin1) => {
            let first = renumbered_edge(numbers, fanin0);
            let second = renumbered_edge(numbers, fanin1);
            nodes.push_reserved(gate_node(id, first, second));
        }
        AigNodeType::Leaf => nodes.push_reserved(leaf_node(id)),
        AigNodeType::False => nodes.push_reserved(false_node()),
    }
}

/// The nodes of these numbers in their order, false first.
pub(crate) fn nodes_in_order(
    alloc: Global,
    nodes: &[AigNode],
    numbers: &Table<'_>,
    order: &[usize],
) -> Result<Vec<AigNode>, MemoryError>
    requires sound { AreNodes nodes.now }
    requires table { length numbers.now.numbers.now ≡ length nodes.now }
    requires there { All (λ n. n < length nodes.now) order.now }
    requires false_first { (i : ℕ) → i < length order.now → slice_index order.now i ≡ 0 → i ≡ 0 }
    ensures { IfOk result (λ new. new.items
        ≡ nodes_of_order nodes.now (slice_index numbers.now.numbers.now) 0 order.now) }
{
    let mut new = Vec::with_capacity(alloc, order.len())?;
    for (i, n) in order.iter().enumerate() {
        push_renumbered(&mut new, numbers, i, &nodes[*n]);
    }
    Ok(new)
}

//! The nodes of a circuit, as its gates come.

ghost use Rattle.std.specs.Prelude.{◌≡◌, ◌+◌, ◌/◌, ◌<◌, ◌≤◌, [], ◌∷◌, ◌++◌, List, IfOk, OnOk, max, vec_capacity, vec_len};
ghost use Rattle.aig_format.specs.File.{GateLine};
ghost use Rattle.aig_ordering.specs.Lists.{nodes_of_variables};
ghost use Rattle.aig_reader.specs.Gates.{AreFirstNodes, gate_node_of, literals_of};
ghost use Rattle.aig_reader.specs.Variables.{IsNewAmong};

use aig_circuit::{AigNode, false_node, leaf_node};
use std::alloc::{AllocError, Global};

/// The node of variable 0, which is false.
pub fn first_node(alloc: Global) -> Result<Vec<AigNode>, AllocError>
    ensures { IfOk result (λ nodes. nodes.items ≡ nodes_of_variables 0 []) }
{
    let mut nodes = Vec::with_capacity(alloc, 1)?;
    nodes.push_reserved(false_node());
    Ok(nodes)
}

/// Makes room for so many nodes, at least twice the room that there was where there is too little.
pub fn reserve_nodes(nodes: &mut Vec<AigNode>, len: usize) -> Result<(), AllocError>
    ensures items { nodes.new.items ≡ nodes.old.items }
    ensures len { vec_len nodes.new ≡ vec_len nodes.old }
    ensures room { OnOk result (len ≤ vec_capacity nodes.new) }
{
    if len > nodes.capacity() {
        nodes.reserve(len - nodes.len())?;
    }
    Ok(())
}

/// Appends leaves until there are so many nodes, for which there is room.
pub fn add_leaves(nodes: &mut Vec<AigNode>, len: usize)
    requires { len ≤ vec_capacity nodes.old }
    ensures exact { (gates : List GateLine) → AreFirstNodes gates nodes.old.items
        → AreFirstNodes gates nodes.new.items }
    ensures len { vec_len nodes.new ≡ max (vec_len nodes.old) len }
    ensures capacity { vec_capacity nodes.new ≡ vec_capacity nodes.old }
{
    for id in nodes.len()..len {
        nodes.push_reserved(leaf_node(id));
    }
}

/// Puts a gate in its place, after leaves where there are no nodes before it yet. There is room for it. No leaf is put
/// after it.
pub fn put_gate(nodes: &mut Vec<AigNode>, gate: AigNode)
    requires { gate.node_id < vec_capacity nodes.old }
    ensures exact { (gates : List GateLine) (g : GateLine) → AreFirstNodes gates nodes.old.items
        → IsNewAmong (literals_of gates) g.lhs → 2 ≤ g.lhs → gate ≡ gate_node_of g
        → AreFirstNodes (gates ++ g ∷ []) nodes.new.items }
    ensures len { vec_len nodes.new ≡ max (vec_len nodes.old) (gate.node_id + 1) }
    ensures capacity { vec_capacity nodes.new ≡ vec_capacity nodes.old }
{
    let id = gate.node_id();
    add_leaves(nodes, id);
    if id < nodes.len() {
        nodes[id] = gate;
    } else {
        nodes.push_reserved(gate);
    }
}

//! Gates that are folded and shared while they are made.

ghost use Rattle.std.specs.Prelude.{ℕ, ◌≡◌, ◌<◌, ◌≤◌, ◌+◌, ◌^◌, ◌&&◌, IfOk, List, OnOk, length};
ghost use Rattle.aig_circuit.specs.Build.{AddsGates, GivesEdge};
ghost use Rattle.aig_circuit.specs.Circuit.{IsInRange};
ghost use Rattle.aig_circuit.specs.Edge.{literal_of};
ghost use Rattle.aig_circuit.specs.Node.{and_of};
ghost use Rattle.aig_circuit.specs.Tree.{edge_value};
ghost use Rattle.aig_bounded.specs.declared.place.Place.{Place};
ghost use Rattle.aig_bounded.specs.Gates.{HasGates, operand_literals};
ghost use Rattle.aig_bounded.specs.Shared.{made_in, shared_and};

use crate::seeded::Seeded;
use aig_base::MemoryError;
use aig_build::new_and_node;
use aig_circuit::{AigEdge, AigNode};
use std::collections::HashMap;

/// Twice the number of the edge's node, and one more where the edge is inverted.
fn literal(edge: AigEdge) -> u32
    requires { edge.node_id < 2 ^ 31 }
    ensures { result ≡ literal_of edge }
{
    2 * edge.node_id() as u32 + u32::from(edge.compl())
}

/// The literals of the operands of the and of two edges, in order.
fn key_of(fanin0: AigEdge, fanin1: AigEdge) -> (u32, u32)
    requires first { fanin0.node_id < 2 ^ 31 }
    requires second { fanin1.node_id < 2 ^ 31 }
    ensures { result ≡ operand_literals (and_of fanin0 fanin1) }
{
    let first = literal(fanin0);
    let second = literal(fanin1);
    if second < first {
        (second, first)
    } else {
        (first, second)
    }
}

/// The and of two edges: what they fold to, the gate that is there, or a new one.
pub(crate) fn shared_and_node(
    nodes: &mut Vec<AigNode>,
    gates: &mut HashMap<(u32, u32), u32, Seeded>,
    fanin0: AigEdge,
    fanin1: AigEdge,
) -> Result<AigEdge, MemoryError>
    requires gates { HasGates nodes.old.items gates.old }
    requires few { length nodes.old.items ≤ 2 ^ 31 }
    requires first { IsInRange nodes.old.items fanin0 }
    requires second { IsInRange nodes.old.items fanin1 }
    ensures gives { IfOk result (GivesEdge nodes.new.items (λ y.
        edge_value nodes.old.items y fanin0 && edge_value nodes.old.items y fanin1)) }
    ensures adds { OnOk result (AddsGates nodes.old.items nodes.new.items) }
    ensures exact { IfOk result (λ e. (inputs : List ℕ) (places : List Place)
        → made_in (record { nodes = nodes.new.items; inputs = inputs; places = places }) e
        ≡ shared_and (record { nodes = nodes.old.items; inputs = inputs; places = places })
        fanin0 fanin1) }
    ensures gates { OnOk result (HasGates nodes.new.items gates.new) }
    ensures few { OnOk result (length nodes.new.items ≤ length nodes.old.items + 1) }
{
    let key = key_of(fanin0, fanin1);
    if let Some(n) = gates.get(&key).copied() {
        return Ok(AigEdge::from(n as usize));
    }
    let before = nodes.len();
    let edge = new_and_node(nodes, fanin0, fanin1)?;
    if nodes.len() == before {
        return Ok(edge);
    }
    gates.insert(key, before as u32)?;
    Ok(edge)
}

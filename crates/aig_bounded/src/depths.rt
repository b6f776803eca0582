//! After how many steps a bad edge or a constraint reads a node.

ghost use Rattle.std.specs.Prelude.{◌≡◌, ◌<◌, ◌≤◌, ◌-◌, ◌^◌, ℕ, IfOk, All, Contains, length, slice_index};
ghost use Rattle.aig_circuit.specs.Circuit.{AreNodes, Circuit};
ghost use Rattle.aig_bounded.specs.Exact.{IsRead};
ghost use Rattle.aig_bounded.specs.Depths.{AreDepths, AreNoDeeper, AreRead, AreSettled, HasNextDepth, HasOperandDepths, HaveNextDepths, HaveNoDepth, HaveOperandDepths, IsNoDeeperThan, Lowers};

use aig_base::MemoryError;
use aig_circuit::{AigEdge, AigLatch, AigNode, AigNodeType, CircuitView};
use std::alloc::Global;

/// For each node a number of steps after which a bad edge or a constraint reads it, at most `last`; or a greater number,
/// where none does.
pub(crate) fn depths(
    alloc: Global,
    circuit: &CircuitView<'_>,
    last: usize,
) -> Result<Vec<usize>, MemoryError>
    requires { last < 2 ^ 64 - 1 }
    ensures { IfOk result (λ depths. AreDepths circuit.now last depths.items) }
{
    let mut depths = vec![in alloc; usize::MAX; circuit.nodes().len()]?;
    find_depths(&mut depths, circuit, last);
    Ok(depths)
}

/// Finds the depths of all nodes, where none is known yet.
fn find_depths(depths: &mut [usize], circuit: &CircuitView<'_>, last: usize)
    requires table { length depths.old ≡ length circuit.now.nodes }
    requires unread { AreRead circuit.now last depths.old }
    ensures { AreDepths circuit.now last depths.new }
{
    clear_depths(depths, circuit.bads());
    clear_depths(depths, circuit.constraints());
    settle(depths, circuit, last);
}

/// Sets the depths of the nodes of edges to 0.
fn clear_depths(depths: &mut [usize], edges: &[AigEdge])
    requires { All (λ e. e.node_id < length depths.old) edges.now }
    ensures none { HaveNoDepth edges.now depths.new }
    ensures lower { AreNoDeeper depths.old depths.new }
    ensures read { (c : Circuit) (last : ℕ) → All (λ e. IsRead c 0 e.node_id) edges.now
        → AreRead c last depths.old → AreRead c last depths.new }
{
    for edge in edges {
        depths[edge.node_id()] = 0;
    }
}

/// Lowers depths until none is too great.
fn settle(depths: &mut [usize], circuit: &CircuitView<'_>, last: usize)
    requires { length depths.old ≡ length circuit.now.nodes }
    ensures settled { AreSettled circuit.now last depths.new }
    ensures lower { AreNoDeeper depths.old depths.new }
    ensures read { AreRead circuit.now last depths.old → AreRead circuit.now last depths.new }
{
    let mut lowered = true;
    while lowered {
        lowered = lower_all(depths, circuit, last);
    }
}

/// Lowers the depths of operands and of next edges' nodes once. Returns whether any was too great.
fn lower_all(depths: &mut [usize], circuit: &CircuitView<'_>, last: usize) -> bool
    requires { length depths.old ≡ length circuit.now.nodes }
    ensures lowers { Lowers (AreSettled circuit.now last) depths.old depths.new result }
    ensures read { AreRead circuit.now last depths.old → AreRead circuit.now last depths.new }
{
    let by_gates = lower_operands(depths, circuit.nodes(), last);
    let by_latches = lower_next(depths, circuit.latchs(), last);
    by_gates | by_latches
}

/// Lowers the depths of operands to those of their gates, where these are at most `last`. Returns whether any was
/// greater.
fn lower_operands(depths: &mut [usize], nodes: &[AigNode], last: usize) -> bool
    requires sound { AreNodes nodes.now }
    requires table { length depths.old ≡ length nodes.now }
    ensures lowers { Lowers (HaveOperandDepths nodes.now last) depths.old depths.new result }
    ensures read { (c : Circuit) → c.nodes ≡ nodes.now
        → AreRead c last depths.old → AreRead c last depths.new }
{
    let mut lowered = false;
    for id in (0..nodes.len()).rev() {
        lowered |= lower_gate(depths, nodes, id, last);
    }
    lowered
}

/// Lowers the depths of a gate's operands to its own, where that is at most `last`. Returns whether one was greater.
fn lower_gate(depths: &mut [usize], nodes: &[AigNode], id: usize, last: usize) -> bool
    requires sound { AreNodes nodes.now }
    requires table { length depths.old ≡ length nodes.now }
    requires there { id < length nodes.now }
    ensures lowers { Lowers (HasOperandDepths nodes.now last id) depths.old depths.new result }
    ensures read { (c : Circuit) → c.nodes ≡ nodes.now
        → AreRead c last depths.old → AreRead c last depths.new }
{
    match *nodes[id].typ() {
        AigNodeType::And(fanin0, fanin1) => {
            let depth = depths[id];
            let first = lower(depths, fanin0.node_id(), depth, last);
            let second = lower(depths, fanin1.node_id(), depth, last);
            first | second
        }
        AigNodeType::False | AigNodeType::Leaf => false,
    }
}

/// Lowers the depths of next edges' nodes as `lower_latch` does. Returns whether one was greater.
fn lower_next(depths: &mut [usize], latchs: &[AigLatch], last: usize) -> bool
    requires { All (λ latch. (latch.input < length depths.old)
        × (latch.next.node_id < length depths.old)) latchs.now }
    ensures lowers { Lowers (HaveNextDepths latchs.now last) depths.old depths.new result }
    ensures read { (c : Circuit) → c.latchs ≡ latchs.now
        → AreRead c last depths.old → AreRead c last depths.new }
{
    let mut lowered = false;
    for latch in latchs {
        lowered |= lower_latch(depths, latch, last);
    }
    lowered
}

/// Lowers the depth of the next edge's node to one more than that of the latch's leaf, where that is at most `last`.
/// Returns whether it was greater.
fn lower_latch(depths: &mut [usize], latch: &AigLatch, last: usize) -> bool
    requires leaf { latch.now.input < length depths.old }
    requires next { latch.now.next.node_id < length depths.old }
    ensures lowers { Lowers (HasNextDepth latch.now last) depths.old depths.new result }
    ensures read { (c : Circuit) → Contains c.latchs latch.now
        → AreRead c last depths.old → AreRead c last depths.new }
{
    let depth = depths[latch.input()];
    depth < last && lower(depths, latch.next().node_id(), depth + 1, last)
}

/// Lowers the depth of a node to this one, if it is at most `last`. Returns whether it was greater.
fn lower(depths: &mut [usize], id: usize, depth: usize, last: usize) -> bool
    requires { id < length depths.old }
    ensures lowers { Lowers (IsNoDeeperThan id depth last) depths.old depths.new result }
    ensures read { (c : Circuit) → (depth ≤ last → IsRead c depth id)
        → AreRead c last depths.old → AreRead c last depths.new }
{
    if depth > last || depths[id] <= depth {
        return false;
    }
    depths[id] = depth;
    true
}

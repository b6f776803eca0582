//! Whether the resets of a witness circuit go round in a circle.

ghost use Rattle.std.specs.Prelude.{◌≡◌, ◌≢◌, ◌<◌, ◌↔◌, ℕ, None, Some, false, IfOk, IsTrue, MatchBool, All, AllPairs, length, vec_len};
ghost use Rattle.aig_circuit.specs.Circuit.{IsLeaf};
ghost use Rattle.aig_circuit.specs.Marks.{IsMarked};
ghost use Rattle.aig_circuit.specs.Reach.{IsFanin};
ghost use Rattle.aig_witness_circuits.specs.Circles.{AllGrounded, AreResets, Finds, HasCircle, HoldsResets, IsAt, IsAtRest, IsNew, IsResetNode, IsTable, IsUnsettled, Opens, Rests, Settles, Turns, reset_at};
ghost use Rattle.aig_witness_circuits.specs.Circular.{IsCircular};
ghost use Rattle.aig_witness_circuits.specs.Simulation.{CanStart};

use crate::frames::own_latches;
use aig_base::MemoryError;
use aig_circuit::{AigEdge, AigLatch, AigNode, AigNodeType, CircuitView};
use std::alloc::Global;

/// Writes the initial edge of each latch to the place of its leaf.
fn write_resets(resets: &mut [Option<AigEdge>], latchs: &[AigLatch])
    requires leaves { All (λ latch. latch.input < length resets.old) latchs.now }
    requires apart { AllPairs (λ a b. a.input ≢ b.input) latchs.now }
    requires none { (n : ℕ) → reset_at resets.old n ≡ None }
    ensures { HoldsResets latchs.now resets.new }
{
    for latch in latchs {
        resets[latch.input()] = latch.init();
    }
}

/// For each node the initial edge of the own latch whose leaf it is, if there is one.
fn own_resets(
    alloc: Global,
    witness: &CircuitView<'_>,
    shared: &[(usize, usize)],
) -> Result<Vec<Option<AigEdge>>, MemoryError>
    requires { All (λ p. IsLeaf witness.now.nodes p.1) shared.now }
    ensures { IfOk result (λ resets. AreResets shared.now witness.now resets.items) }
{
    let own = own_latches(alloc, witness, shared)?;
    let mut resets = vec![in alloc; None; witness.nodes().len()]?;
    write_resets(&mut resets, &own);
    Ok(resets)
}

/// The node of the edge that the table has for a node, if that isn't settled.
fn unsettled_reset(settled: &[bool], resets: &[Option<AigEdge>], node: usize) -> Option<usize>
    requires within { node < length resets.now }
    requires there { (e : AigEdge) → reset_at resets.now node ≡ Some e
        → e.node_id < length settled.now }
    ensures { IsUnsettled settled.now (IsResetNode resets.now node) result }
{
    match resets[node] {
        Some(edge) if !settled[edge.node_id()] => Some(edge.node_id()),
        _ => None,
    }
}

/// The node of an operand that isn't settled, if there is one.
fn unsettled_operand(settled: &[bool], nodes: &[AigNode], node: usize) -> Option<usize>
    requires within { node < length nodes.now }
    requires there { (m : ℕ) → IsFanin nodes.now node m → m < length settled.now }
    ensures { IsUnsettled settled.now (IsFanin nodes.now node) result }
{
    let AigNodeType::And(first, second) = *nodes[node].typ() else {
        return None;
    };
    if !settled[first.node_id()] {
        return Some(first.node_id());
    }
    if !settled[second.node_id()] {
        return Some(second.node_id());
    }
    None
}

/// A node on which this one rests and that isn't settled, if there is one.
fn unsettled(
    settled: &[bool],
    nodes: &[AigNode],
    resets: &[Option<AigEdge>],
    node: usize,
) -> Option<usize>
    requires table { IsTable nodes.now resets.now }
    requires count { length settled.now ≡ length nodes.now }
    requires within { node < length nodes.now }
    ensures { IsUnsettled settled.now (Rests nodes.now resets.now node) result }
{
    match unsettled_reset(settled, resets, node) {
        Some(next) => Some(next),
        None => unsettled_operand(settled, nodes, node),
    }
}

/// A search for a circle: each node is opened once, and is settled when all on which it rests are.
#[derive(Drop)]
pub struct Search {
    /// Which nodes are settled: none of these rests on a circle.
    pub settled: Vec<bool>,
    /// Which nodes were opened.
    pub opened: Vec<bool>,
    /// The nodes that wait for others on which they rest, each for the next one.
    pub path: Vec<usize>,
}

/// Where a search goes on.
pub enum Turn {
    /// At this node.
    Node(usize),
    /// Nowhere: nothing waits.
    Done,
    /// Nowhere: a node rests on itself.
    Circle,
}

impl Search {
    /// A search in which nothing was opened.
    fn new(alloc: Global, count: usize) -> Result<Self, MemoryError>
        ensures { IfOk result (IsNew count) }
    {
        Ok(Search {
            settled: vec![in alloc; false; count]?,
            opened: vec![in alloc; false; count]?,
            path: Vec::new(alloc),
        })
    }

    /// Opens a node on which another rests, which waits for it. One that is open already closes a circle.
    fn open(&mut self, node: usize, next: usize) -> Result<Turn, MemoryError>
        requires { next < vec_len self.old.opened }
        ensures { IfOk result (Opens self.old self.new node next) }
    {
        if self.opened[next] {
            return Ok(Turn::Circle);
        }
        self.path.push(node)?;
        self.opened[next] = true;
        Ok(Turn::Node(next))
    }

    /// Settles a node, and goes back to the one that waits for it.
    fn settle(&mut self, node: usize) -> Turn
        requires { node < vec_len self.old.settled }
        ensures { Settles self.old self.new node result }
    {
        self.settled[node] = true;
        match self.path.pop() {
            Some(waiting) => Turn::Node(waiting),
            None => Turn::Done,
        }
    }

    /// Goes one step on from a node: to one that isn't settled, or else back to the one that waits for it.
    fn step(
        &mut self,
        nodes: &[AigNode],
        resets: &[Option<AigEdge>],
        node: usize,
    ) -> Result<Turn, MemoryError>
        requires table { IsTable nodes.now resets.now }
        requires at { IsAt nodes.now resets.now self.old node }
        ensures { IfOk result (Turns nodes.now resets.now self.old self.new) }
    {
        match unsettled(&self.settled, nodes, resets, node) {
            Some(next) => self.open(node, next),
            None => Ok(self.settle(node)),
        }
    }

    /// Whether a node rests on a circle. If not, it and all on which it rests are settled.
    fn find(
        &mut self,
        nodes: &[AigNode],
        resets: &[Option<AigEdge>],
        start: usize,
    ) -> Result<bool, MemoryError>
        requires table { IsTable nodes.now resets.now }
        requires start { start < length nodes.now }
        requires rest { IsAtRest nodes.now resets.now self.old }
        ensures { IfOk result (Finds nodes.now resets.now self.old self.new start) }
    {
        if self.opened[start] {
            return Ok(false);
        }
        self.opened[start] = true;
        let mut node = start;
        loop {
            match self.step(nodes, resets, node)? {
                Turn::Node(next) => node = next,
                Turn::Done => return Ok(false),
                Turn::Circle => return Ok(true),
            }
        }
    }
}

/// Whether some node rests on itself.
fn has_circle(
    alloc: Global,
    nodes: &[AigNode],
    resets: &[Option<AigEdge>],
) -> Result<bool, MemoryError>
    requires { IsTable nodes.now resets.now }
    ensures { IfOk result (λ circle. MatchBool circle (HasCircle nodes.now resets.now)
        (AllGrounded nodes.now resets.now)) }
{
    let mut search = Search::new(alloc, nodes.len())?;
    for start in 0..nodes.len() {
        if search.find(nodes, resets, start)? {
            return Ok(true);
        }
    }
    Ok(false)
}

/// Returns whether the resets of a witness circuit's own latches go round in a circle: whether some latch's reset rests on the latch
/// itself, directly, through gates, or through the resets of others. If not, these latches can start whatever values the other
/// leaves have. Each pair of `shared` has a leaf of the model and the one of the witness circuit that stands for it. Takes time
/// linear in nodes and latches. The one error is refused memory.
pub fn is_circular(
    alloc: Global,
    witness: &CircuitView<'_>,
    shared: &[(usize, usize)],
) -> Result<bool, MemoryError>
    requires { All (λ p. IsLeaf witness.now.nodes p.1) shared.now }
    ensures exact { IfOk result (λ circular.
        IsTrue circular ↔ IsCircular shared.now witness.now) }
    ensures starts { IfOk result (λ circular.
        circular ≡ false → CanStart shared.now witness.now) }
{
    let resets = own_resets(alloc, witness, shared)?;
    has_circle(alloc, witness.nodes(), &resets)
}

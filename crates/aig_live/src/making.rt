//! Leaves and edges that are made one after another.

ghost use Rattle.std.specs.Prelude.{◌≡◌, ◌+◌, ◌<◌, ◌≤◌, ◌^◌, ◌++◌, ◌&&◌, ◌||◌, ℕ, IfOk, OnOk, All, length};
ghost use Rattle.aig_circuit.specs.Build.{AddsGates, GivesEdge};
ghost use Rattle.aig_circuit.specs.Circuit.{AreNodes, IsInRange, IsLatch};
ghost use Rattle.aig_circuit.specs.Tree.{edge_value};
ghost use Rattle.aig_live.specs.Live.{false_latches};
ghost use Rattle.aig_live.specs.Assembled.{AreParts};
ghost use Rattle.aig_live.specs.Making.{AddsLeaves, GivesEach, choice_of, same_of, seen_of, start_of};

use aig_base::MemoryError;
use aig_build::{new_and_node, new_ands_node, new_eq_node, new_leaf_node, new_or_node};
use aig_circuit::{AigEdge, AigLatch, AigNode};
use std::alloc::Global;

/// Adds so many leaves.
pub(crate) fn add_leaves(nodes: &mut Vec<AigNode>, count: usize) -> Result<(), MemoryError>
    requires { AreNodes nodes.old.items }
    ensures { OnOk result (AddsLeaves count nodes.old.items nodes.new.items) }
{
    for _leaf in 0..count {
        let _id = new_leaf_node(nodes)?;
    }
    Ok(())
}

/// The edge that is the second one where the first is true, and else the third.
fn choice(
    nodes: &mut Vec<AigNode>,
    which: AigEdge,
    then: AigEdge,
    other: AigEdge,
) -> Result<AigEdge, MemoryError>
    requires sound { AreNodes nodes.old.items }
    requires which { IsInRange nodes.old.items which }
    requires then { IsInRange nodes.old.items then }
    requires other { IsInRange nodes.old.items other }
    ensures gives { IfOk result (GivesEdge nodes.new.items
        (choice_of nodes.old.items which then other)) }
    ensures gates { IfOk result (λ _. AddsGates nodes.old.items nodes.new.items) }
    ensures few { OnOk result (length nodes.new.items ≤ length nodes.old.items + 3) }
{
    let left = new_and_node(nodes, which, then)?;
    let right = new_and_node(nodes, !which, other)?;
    let either = new_or_node(nodes, left, right)?;
    Ok(either)
}

/// The starts of the latches, whose copies are the leaves from a number on.
pub(crate) fn start_edges(
    alloc: Global,
    nodes: &mut Vec<AigNode>,
    saved: AigEdge,
    leaf: usize,
    latchs: &[AigLatch],
) -> Result<Vec<AigEdge>, MemoryError>
    requires sound { AreNodes nodes.old.items }
    requires saved { IsInRange nodes.old.items saved }
    requires leaves { leaf + length latchs.now ≤ length nodes.old.items }
    requires latches { All (λ latch. latch.input < length nodes.old.items) latchs.now }
    ensures { IfOk result (λ made. GivesEach 3 nodes.old.items nodes.new.items
        (start_of nodes.old.items saved leaf latchs.now) (length latchs.now) made.items) }
{
    let mut made = Vec::with_capacity(alloc, latchs.len())?;
    for (i, latch) in latchs.iter().enumerate() {
        let start = choice(
            nodes,
            saved,
            AigEdge::from(leaf + i),
            AigEdge::from(latch.input()),
        )?;
        made.push(start)?;
    }
    Ok(made)
}

/// The edge that is true where the edge was, by the first one, or is, while the second one is.
fn seen_edge(
    nodes: &mut Vec<AigNode>,
    own: AigEdge,
    active: AigEdge,
    e: AigEdge,
) -> Result<AigEdge, MemoryError>
    requires sound { AreNodes nodes.old.items }
    requires own { IsInRange nodes.old.items own }
    requires active { IsInRange nodes.old.items active }
    requires edge { IsInRange nodes.old.items e }
    ensures gives { IfOk result (GivesEdge nodes.new.items (λ x. edge_value nodes.old.items x own
        || (edge_value nodes.old.items x active && edge_value nodes.old.items x e))) }
    ensures gates { IfOk result (λ _. AddsGates nodes.old.items nodes.new.items) }
    ensures few { OnOk result (length nodes.new.items ≤ length nodes.old.items + 2) }
{
    let now = new_and_node(nodes, active, e)?;
    let seen = new_or_node(nodes, own, now)?;
    Ok(seen)
}

/// For each edge one that is true where it was, by the leaves from a number on, or is.
pub(crate) fn seen_edges(
    alloc: Global,
    nodes: &mut Vec<AigNode>,
    active: AigEdge,
    leaf: usize,
    edges: &[AigEdge],
) -> Result<Vec<AigEdge>, MemoryError>
    requires sound { AreNodes nodes.old.items }
    requires active { IsInRange nodes.old.items active }
    requires leaves { leaf + length edges.now ≤ length nodes.old.items }
    requires edges { All (IsInRange nodes.old.items) edges.now }
    ensures { IfOk result (λ made. GivesEach 2 nodes.old.items nodes.new.items
        (seen_of nodes.old.items active leaf edges.now) (length edges.now) made.items) }
{
    let mut made = Vec::with_capacity(alloc, edges.len())?;
    for (i, e) in edges.iter().enumerate() {
        let seen = seen_edge(nodes, AigEdge::from(leaf + i), active, *e)?;
        made.push(seen)?;
    }
    Ok(made)
}

/// For each latch an edge that is true where its next value is that of the edge at its place.
pub(crate) fn same_edges(
    alloc: Global,
    nodes: &mut Vec<AigNode>,
    latchs: &[AigLatch],
    starts: &[AigEdge],
) -> Result<Vec<AigEdge>, MemoryError>
    requires sound { AreNodes nodes.old.items }
    requires count { length starts.now ≡ length latchs.now }
    requires latches { All (λ latch. IsInRange nodes.old.items latch.next) latchs.now }
    requires starts { All (IsInRange nodes.old.items) starts.now }
    ensures { IfOk result (λ made. GivesEach 3 nodes.old.items nodes.new.items
        (same_of nodes.old.items latchs.now starts.now) (length latchs.now) made.items) }
{
    let mut made = Vec::with_capacity(alloc, latchs.len())?;
    for (i, latch) in latchs.iter().enumerate() {
        let same = new_eq_node(nodes, latch.next(), starts[i])?;
        made.push(same)?;
    }
    Ok(made)
}

/// Appends latches with these next edges, on leaves from a number on, that are false at the start.
pub(crate) fn push_latches(
    latchs: &mut Vec<AigLatch>,
    leaf: usize,
    nexts: &[AigEdge],
) -> Result<(), MemoryError>
    requires { leaf + length nexts.now < 2 ^ 64 }
    ensures { OnOk result (latchs.new.items ≡ latchs.old.items ++ false_latches leaf nexts.now) }
{
    for (i, next) in nexts.iter().enumerate() {
        latchs.push(AigLatch::new(leaf + i, *next, Some(AigEdge::constant(false))))?;
    }
    Ok(())
}

/// The edges of a live circuit.
pub(crate) struct Parts {
    /// A state is or was saved.
    pub(crate) active: AigEdge,
    /// The start of each latch.
    pub(crate) starts: Vec<AigEdge>,
    /// Whether each edge was seen.
    pub(crate) seen: Vec<AigEdge>,
    /// A fair lasso ends.
    pub(crate) bad: AigEdge,
}

impl Drop for Parts {
    fn drop(self) {
        let Parts {
            active: _,
            starts: _,
            seen: _,
            bad: _,
        } = self;
    }
}

/// Adds the leaves and gates of a live circuit.
pub(crate) fn make_parts(
    alloc: Global,
    nodes: &mut Vec<AigNode>,
    latchs: &[AigLatch],
    edges: &[AigEdge],
) -> Result<Parts, MemoryError>
    requires sound { AreNodes nodes.old.items }
    requires room { length nodes.old.items + 2 + length latchs.now + length edges.now < 2 ^ 64 }
    requires latches { All (IsLatch nodes.old.items) latchs.now }
    requires edges { All (IsInRange nodes.old.items) edges.now }
    ensures { IfOk result
        (AreParts nodes.old.items nodes.new.items latchs.now edges.now) }
{
    let n = nodes.len();
    add_leaves(nodes, 2 + latchs.len() + edges.len())?;
    let saved = AigEdge::from(n + 1);
    let active = new_or_node(nodes, saved, AigEdge::from(n))?;
    let starts = start_edges(alloc, nodes, saved, n + 2, latchs)?;
    let seen = seen_edges(alloc, nodes, active, n + 2 + latchs.len(), edges)?;
    let mut all = same_edges(alloc, nodes, latchs, &starts)?;
    all.extend_from_slice(&seen)?;
    all.push(active)?;
    let bad = new_ands_node(nodes, &all)?;
    Ok(Parts {
        active,
        starts,
        seen,
        bad,
    })
}

//! Edges that count rounds.

ghost use Rattle.std.specs.Prelude.{◌≡◌, ◌+◌, ◌-◌, ◌<◌, ◌^◌, ℕ, true, IfOk, All, length, slice_index_or};
ghost use Rattle.aig_circuit.specs.declared.edge.AigEdge.{AigEdge};
ghost use Rattle.aig_circuit.specs.Circuit.{AreNodes, IsInRange};
ghost use Rattle.aig_circuit.specs.Edge.{edge_to};
ghost use Rattle.aig_live.specs.Counting.{AreBefores, AreCounted, edge_before, kept_of};
ghost use Rattle.aig_live.specs.Making.{GivesEach};

use crate::making::{add_leaves, seen_edges};
use aig_base::MemoryError;
use aig_build::{new_and_node, new_ands_node};
use aig_circuit::{AigEdge, AigNode};
use std::alloc::Global;

/// The edge that is true where so many rounds ended before, by the leaves from a number on.
fn before(leaf: usize, count: usize) -> AigEdge
    requires { leaf + count < 2 ^ 64 }
    ensures { result ≡ edge_before leaf count }
{
    if count == 0 {
        return AigEdge::constant(true);
    }
    AigEdge::from(leaf + (count - 1))
}

/// For each of so many rounds the edge that is true where those before it ended.
fn before_each(alloc: Global, leaf: usize, count: usize) -> Result<Vec<AigEdge>, MemoryError>
    requires { leaf + count < 2 ^ 64 }
    ensures { IfOk result (λ made. AreBefores leaf count made.items) }
{
    let mut made = Vec::with_capacity(alloc, count)?;
    for r in 0..count {
        made.push(before(leaf, r))?;
    }
    Ok(made)
}

/// For each edge one that is true where it is, while a round does not end.
fn kept_edges(
    alloc: Global,
    nodes: &mut Vec<AigNode>,
    ends: AigEdge,
    edges: &[AigEdge],
) -> Result<Vec<AigEdge>, MemoryError>
    requires sound { AreNodes nodes.old.items }
    requires ends { IsInRange nodes.old.items ends }
    requires edges { All (IsInRange nodes.old.items) edges.now }
    ensures { IfOk result (λ made. GivesEach 1 nodes.old.items nodes.new.items
        (kept_of nodes.old.items ends edges.now) (length edges.now) made.items) }
{
    let mut made = Vec::with_capacity(alloc, edges.len())?;
    for e in edges {
        let kept = new_and_node(nodes, *e, !ends)?;
        made.push(kept)?;
    }
    Ok(made)
}

/// The last of some edges, or true.
fn last_of(edges: &[AigEdge]) -> AigEdge
    ensures none { length edges.now ≡ 0 → result ≡ edge_to 0 true }
    ensures some { (d : AigEdge) → 0 < length edges.now
        → result ≡ slice_index_or edges.now (length edges.now - 1) d }
{
    if edges.is_empty() {
        return AigEdge::constant(true);
    }
    edges[edges.len() - 1]
}

/// The edges of a circuit that counts rounds.
pub(crate) struct Counted {
    /// The next edge of the latch of each edge and then of each round.
    pub(crate) nexts: Vec<AigEdge>,
    /// All rounds ended.
    pub(crate) bad: AigEdge,
}

impl Drop for Counted {
    fn drop(self) {
        let Counted { nexts: _, bad: _ } = self;
    }
}

/// Adds the leaves and gates of a circuit that counts so many rounds.
pub(crate) fn count_rounds(
    alloc: Global,
    nodes: &mut Vec<AigNode>,
    edges: &[AigEdge],
    count: usize,
) -> Result<Counted, MemoryError>
    requires sound { AreNodes nodes.old.items }
    requires room { length nodes.old.items + length edges.now + count < 2 ^ 64 }
    requires edges { All (IsInRange nodes.old.items) edges.now }
    ensures { IfOk result (AreCounted nodes.old.items nodes.new.items edges.now count) }
{
    let n = nodes.len();
    let first = n + edges.len();
    add_leaves(nodes, edges.len() + count)?;
    let met = seen_edges(alloc, nodes, AigEdge::constant(true), n, edges)?;
    let ends = new_ands_node(nodes, &met)?;
    let befores = before_each(alloc, first, count)?;
    let ended = seen_edges(alloc, nodes, ends, first, &befores)?;
    let mut nexts = kept_edges(alloc, nodes, ends, &met)?;
    nexts.extend_from_slice(&ended)?;
    let bad = last_of(&ended);
    Ok(Counted { nexts, bad })
}

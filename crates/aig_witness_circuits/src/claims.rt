//! What a question claims of copies of circuits, and the edge that is true where some claims hold and others don't.

ghost use Rattle.std.specs.Prelude.{◌≡◌, ◌<◌, ◌++◌, [], IfOk, IfSome, OnOk, All, length};
ghost use Rattle.aig_circuit.specs.Circuit.{AreNodes};
ghost use Rattle.aig_renumber.specs.Numbers.{IsLatchIn};
ghost use Rattle.aig_witness_circuits.specs.Claims.{constraint_claims, good_claims, move_claims, start_claims, start_image};
ghost use Rattle.aig_witness_circuits.specs.Exact.{listed_in, made_in, make_claim, make_refuting, with_claims};
ghost use Rattle.aig_witness_circuits.specs.Frames.{IsClaimIn};

use crate::copying::image_of;
use aig_base::MemoryError;
use aig_build::{new_and_node, new_ands_node, new_eq_node};
use aig_circuit::{AigEdge, AigLatch, AigNode, CircuitView};
use std::alloc::Global;

/// What is claimed of the values of edges.
#[derive(Clone, Copy)]
pub enum Claim {
    /// The edge is true.
    Edge(AigEdge),
    /// Both edges have the same value.
    Equal(AigEdge, AigEdge),
}

/// Appends that the circuit's constraints hold.
pub(crate) fn push_constraints(
    claims: &mut Vec<Claim>,
    circuit: &CircuitView<'_>,
    images: &[AigEdge],
) -> Result<(), MemoryError>
    requires { length images.now ≡ length circuit.now.nodes }
    ensures { OnOk result (claims.new.items
        ≡ claims.old.items ++ constraint_claims circuit.now images.now) }
{
    for edge in circuit.constraints() {
        claims.push(Claim::Edge(image_of(images, *edge)))?;
    }
    Ok(())
}

/// Appends that the circuit's state is good.
pub(crate) fn push_good(
    claims: &mut Vec<Claim>,
    circuit: &CircuitView<'_>,
    images: &[AigEdge],
) -> Result<(), MemoryError>
    requires { length images.now ≡ length circuit.now.nodes }
    ensures { OnOk result (claims.new.items
        ≡ claims.old.items ++ good_claims circuit.now images.now) }
{
    for edge in circuit.bads() {
        claims.push(Claim::Edge(!image_of(images, *edge)))?;
    }
    Ok(())
}

/// The image of a latch's initial edge, and where it has none, that of its leaf.
fn start_image(images: &[AigEdge], leaf: AigEdge, init: Option<AigEdge>) -> AigEdge
    requires { IfSome init (λ e. e.node_id < length images.now) }
    ensures { result ≡ start_image images.now leaf init }
{
    match init {
        Some(init) => image_of(images, init),
        None => leaf,
    }
}

/// Appends that these latches start.
pub(crate) fn push_starts(
    claims: &mut Vec<Claim>,
    latchs: &[AigLatch],
    images: &[AigEdge],
) -> Result<(), MemoryError>
    requires { All (IsLatchIn (λ n. n < length images.now)) latchs.now }
    ensures { OnOk result (claims.new.items
        ≡ claims.old.items ++ start_claims latchs.now images.now) }
{
    for latch in latchs {
        let leaf = images[latch.input()];
        claims.push(Claim::Equal(start_image(images, leaf, latch.init()), leaf))?;
    }
    Ok(())
}

/// Appends that the circuit's latches move.
pub(crate) fn push_moves(
    claims: &mut Vec<Claim>,
    circuit: &CircuitView<'_>,
    before: &[AigEdge],
    after: &[AigEdge],
) -> Result<(), MemoryError>
    requires before { length before.now ≡ length circuit.now.nodes }
    requires after { length after.now ≡ length circuit.now.nodes }
    ensures { OnOk result (claims.new.items
        ≡ claims.old.items ++ move_claims circuit.now before.now after.now) }
{
    for latch in circuit.latchs() {
        claims.push(Claim::Equal(after[latch.input()], image_of(before, latch.next())))?;
    }
    Ok(())
}

/// The edge that is true where the claim holds.
fn edge_of(nodes: &mut Vec<AigNode>, claim: Claim) -> Result<AigEdge, MemoryError>
    requires sound { AreNodes nodes.old.items }
    requires there { IsClaimIn nodes.old.items claim }
    ensures { IfOk result (λ e. made_in nodes.new.items e ≡ make_claim nodes.old.items claim) }
{
    match claim {
        Claim::Edge(edge) => Ok(edge),
        Claim::Equal(first, second) => new_eq_node(nodes, first, second),
    }
}

/// The edges that are true where the claims hold, one for each.
fn edges_of(
    alloc: Global,
    nodes: &mut Vec<AigNode>,
    claims: &[Claim],
) -> Result<Vec<AigEdge>, MemoryError>
    requires sound { AreNodes nodes.old.items }
    requires there { All (IsClaimIn nodes.old.items) claims.now }
    ensures { IfOk result (λ es. listed_in nodes.new.items es.items
        ≡ with_claims (listed_in nodes.old.items []) claims.now) }
{
    let mut edges = Vec::with_capacity(alloc, claims.len())?;
    for claim in claims {
        edges.push(edge_of(nodes, *claim)?)?;
    }
    Ok(edges)
}

/// The edge that is true where all premises hold and one of the conclusions doesn't.
pub(crate) fn refuting_edge(
    alloc: Global,
    nodes: &mut Vec<AigNode>,
    premises: &[Claim],
    conclusions: &[Claim],
) -> Result<AigEdge, MemoryError>
    requires sound { AreNodes nodes.old.items }
    requires premises { All (IsClaimIn nodes.old.items) premises.now }
    requires conclusions { All (IsClaimIn nodes.old.items) conclusions.now }
    ensures { IfOk result (λ e. made_in nodes.new.items e
        ≡ make_refuting nodes.old.items premises.now conclusions.now) }
{
    let given = edges_of(alloc, nodes, premises)?;
    let wanted = edges_of(alloc, nodes, conclusions)?;
    let asked = new_ands_node(nodes, &given)?;
    let shown = new_ands_node(nodes, &wanted)?;
    new_and_node(nodes, asked, !shown)
}

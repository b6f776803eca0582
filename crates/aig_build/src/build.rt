//! Builders: nodes that are added to a list of nodes by the rules of the crate aig.
//!
//! The list is that of a circuit: node 0 is false, each node stands at the place of its number, and operands come before
//! their gate. Each edge that is given has its node in the list. The one error is refused memory, and after it the list
//! is as it was.

ghost use Rattle.std.specs.Bool.{beq};
ghost use Rattle.std.specs.Prelude.{◌≡◌, ◌≢◌, ◌↔◌, ◌<◌, ◌&&◌, ◌||◌, IsTrue, IfOk, IsOk, MatchOption, OnErr, All, length, map, not};
ghost use Rattle.aig_circuit.specs.declared.node.AigNodeType.TheVariants.{Leaf};
ghost use Rattle.aig_circuit.specs.Edge.{inverse};
ghost use Rattle.aig_circuit.specs.Build.{with_node, AddsGate, AddsGates, AddsGateForEach, AddsOneEach, Folds, FoldsOrAdds, FoldsOrAddsAll, FoldsOrAddsEq, GivesEdge, Grows, JoinsByAnd, JoinsByOr};
ghost use Rattle.aig_circuit.specs.Circuit.{AreNodes, IsInRange};
ghost use Rattle.aig_circuit.specs.Tree.{edge_value};

use aig_base::MemoryError;
use aig_circuit::{AigEdge, AigNode, gate_node, leaf_node};
use std::alloc::Global;

/// Adds a leaf, and returns its number (crate aig, `new_leaf_node`).
pub fn new_leaf_node(nodes: &mut Vec<AigNode>) -> Result<usize, MemoryError>
    requires { AreNodes nodes.old.items }
    ensures number { IfOk result (λ id. id ≡ length nodes.old.items) }
    ensures ok { IfOk result (λ _. nodes.new.items ≡ with_node nodes.old.items Leaf) }
    ensures err { OnErr result (nodes.new.items ≡ nodes.old.items) }
    ensures grows { Grows nodes.old.items nodes.new.items }
{
    let id = nodes.len();
    nodes.push(leaf_node(id))?;
    Ok(id)
}

/// Adds one gate, the and of two edges, with its operands put in order, and returns the edge to it (crate aig,
/// `trivial_new_and_node`).
pub fn trivial_new_and_node(
    nodes: &mut Vec<AigNode>,
    fanin0: AigEdge,
    fanin1: AigEdge,
) -> Result<AigEdge, MemoryError>
    requires sound { AreNodes nodes.old.items }
    requires first { IsInRange nodes.old.items fanin0 }
    requires second { IsInRange nodes.old.items fanin1 }
    ensures ok { IfOk result (λ e. AddsGate nodes.old.items nodes.new.items fanin0 fanin1 e) }
    ensures gives { IfOk result (GivesEdge nodes.new.items (λ x.
        edge_value nodes.old.items x fanin0 && edge_value nodes.old.items x fanin1)) }
    ensures gates { AddsGates nodes.old.items nodes.new.items }
    ensures err { OnErr result (nodes.new.items ≡ nodes.old.items) }
{
    let id = nodes.len();
    nodes.push(gate_node(id, fanin0, fanin1))?;
    Ok(AigEdge::from(id))
}

/// The and of two edges: an old edge where they fold, and else a new gate, also where there is such a gate already
/// (crate aig, `new_and_node`). True with an edge folds to that edge, false with an edge to false, an edge with itself to
/// that edge, and an edge with its inverse to false.
pub fn new_and_node(
    nodes: &mut Vec<AigNode>,
    fanin0: AigEdge,
    fanin1: AigEdge,
) -> Result<AigEdge, MemoryError>
    requires sound { AreNodes nodes.old.items }
    requires first { IsInRange nodes.old.items fanin0 }
    requires second { IsInRange nodes.old.items fanin1 }
    ensures rule { IfOk result (λ e. FoldsOrAdds nodes.old.items nodes.new.items fanin0 fanin1 e) }
    // Folding takes no memory.
    ensures folds { (f : AigEdge) → Folds fanin0 fanin1 f → IsOk result }
    ensures gives { IfOk result (GivesEdge nodes.new.items (λ x.
        edge_value nodes.old.items x fanin0 && edge_value nodes.old.items x fanin1)) }
    ensures gates { AddsGates nodes.old.items nodes.new.items }
    ensures err { OnErr result (nodes.new.items ≡ nodes.old.items) }
{
    if let Some(folded) = folded_and(fanin0, fanin1) {
        return Ok(folded);
    }
    trivial_new_and_node(nodes, fanin0, fanin1)
}

/// Whether two edges are of two nodes, none of which is false. Then they don't fold.
fn are_apart(fanin0: AigEdge, fanin1: AigEdge) -> bool
    ensures { IsTrue result ↔ ((fanin0.node_id ≢ 0) × (fanin1.node_id ≢ 0)
        × (fanin0.node_id ≢ fanin1.node_id)) }
{
    let (first, second) = (fanin0.node_id(), fanin1.node_id());
    first != 0 && second != 0 && first != second
}

/// The edge that the and of two edges folds to, where they fold.
fn folded_and(fanin0: AigEdge, fanin1: AigEdge) -> Option<AigEdge>
    ensures { MatchOption result ((f : AigEdge) → ¬ Folds fanin0 fanin1 f)
        (λ e. Folds fanin0 fanin1 e) }
{
    if are_apart(fanin0, fanin1) {
        return None;
    }
    if fanin0 == AigEdge::constant(true) {
        return Some(fanin1);
    }
    if fanin1 == AigEdge::constant(true) {
        return Some(fanin0);
    }
    if fanin0 == AigEdge::constant(false) || fanin1 == AigEdge::constant(false) {
        return Some(AigEdge::constant(false));
    }
    if fanin0 == fanin1 {
        return Some(fanin0);
    }
    if fanin0 == !fanin1 {
        return Some(AigEdge::constant(false));
    }
    None
}

/// Adds one gate for the or of two edges, and returns the inverse of the edge to it: the gate is the and of their inverses
/// (crate aig, `trivial_new_or_node`).
pub fn trivial_new_or_node(
    nodes: &mut Vec<AigNode>,
    fanin0: AigEdge,
    fanin1: AigEdge,
) -> Result<AigEdge, MemoryError>
    requires sound { AreNodes nodes.old.items }
    requires first { IsInRange nodes.old.items fanin0 }
    requires second { IsInRange nodes.old.items fanin1 }
    ensures ok { IfOk result (λ e.
        AddsGate nodes.old.items nodes.new.items (inverse fanin0) (inverse fanin1) (inverse e)) }
    ensures gives { IfOk result (GivesEdge nodes.new.items (λ x.
        edge_value nodes.old.items x fanin0 || edge_value nodes.old.items x fanin1)) }
    ensures gates { AddsGates nodes.old.items nodes.new.items }
    ensures err { OnErr result (nodes.new.items ≡ nodes.old.items) }
{
    Ok(!trivial_new_and_node(nodes, !fanin0, !fanin1)?)
}

/// The or of two edges, the inverse of the `new_and_node` of their inverses (crate aig, `new_or_node`).
pub fn new_or_node(
    nodes: &mut Vec<AigNode>,
    fanin0: AigEdge,
    fanin1: AigEdge,
) -> Result<AigEdge, MemoryError>
    requires sound { AreNodes nodes.old.items }
    requires first { IsInRange nodes.old.items fanin0 }
    requires second { IsInRange nodes.old.items fanin1 }
    ensures rule { IfOk result (λ e.
        FoldsOrAdds nodes.old.items nodes.new.items (inverse fanin0) (inverse fanin1) (inverse e)) }
    // Folding takes no memory.
    ensures folds { (f : AigEdge) → Folds (inverse fanin0) (inverse fanin1) f → IsOk result }
    ensures gives { IfOk result (GivesEdge nodes.new.items (λ x.
        edge_value nodes.old.items x fanin0 || edge_value nodes.old.items x fanin1)) }
    ensures gates { AddsGates nodes.old.items nodes.new.items }
    ensures err { OnErr result (nodes.new.items ≡ nodes.old.items) }
{
    Ok(!new_and_node(nodes, !fanin0, !fanin1)?)
}

/// The edge that is true where the first edge implies the second, the `new_or_node` of the first one's inverse and the
/// second (crate aig, `new_imply_node`).
pub fn new_imply_node(
    nodes: &mut Vec<AigNode>,
    fanin0: AigEdge,
    fanin1: AigEdge,
) -> Result<AigEdge, MemoryError>
    requires sound { AreNodes nodes.old.items }
    requires first { IsInRange nodes.old.items fanin0 }
    requires second { IsInRange nodes.old.items fanin1 }
    ensures rule { IfOk result (λ e.
        FoldsOrAdds nodes.old.items nodes.new.items fanin0 (inverse fanin1) (inverse e)) }
    // Folding takes no memory.
    ensures folds { (f : AigEdge) → Folds fanin0 (inverse fanin1) f → IsOk result }
    ensures gives { IfOk result (GivesEdge nodes.new.items (λ x.
        not (edge_value nodes.old.items x fanin0) || edge_value nodes.old.items x fanin1)) }
    ensures gates { AddsGates nodes.old.items nodes.new.items }
    ensures err { OnErr result (nodes.new.items ≡ nodes.old.items) }
{
    new_or_node(nodes, !fanin0, fanin1)
}

/// The edge that is true where two edges are equal: the `new_or_node` of their `new_and_node` and of that of their
/// inverses (crate aig, `new_eq_node`).
pub fn new_eq_node(
    nodes: &mut Vec<AigNode>,
    fanin0: AigEdge,
    fanin1: AigEdge,
) -> Result<AigEdge, MemoryError>
    requires sound { AreNodes nodes.old.items }
    requires first { IsInRange nodes.old.items fanin0 }
    requires second { IsInRange nodes.old.items fanin1 }
    ensures rule { IfOk result (λ e.
        FoldsOrAddsEq nodes.old.items nodes.new.items fanin0 fanin1 e) }
    ensures gives { IfOk result (GivesEdge nodes.new.items (λ x.
        beq (edge_value nodes.old.items x fanin0) (edge_value nodes.old.items x fanin1))) }
    ensures gates { AddsGates nodes.old.items nodes.new.items }
    ensures err { OnErr result (nodes.new.items ≡ nodes.old.items) }
{
    let before = nodes.len();
    match both_or_neither(nodes, fanin0, fanin1) {
        Ok(equal) => Ok(equal),
        Err(error) => {
            nodes.truncate(before);
            Err(error)
        }
    }
}

/// As `new_eq_node`, but a refused one leaves the gates that it added.
fn both_or_neither(
    nodes: &mut Vec<AigNode>,
    fanin0: AigEdge,
    fanin1: AigEdge,
) -> Result<AigEdge, MemoryError>
    requires sound { AreNodes nodes.old.items }
    requires first { IsInRange nodes.old.items fanin0 }
    requires second { IsInRange nodes.old.items fanin1 }
    ensures rule { IfOk result (λ e.
        FoldsOrAddsEq nodes.old.items nodes.new.items fanin0 fanin1 e) }
    ensures gives { IfOk result (GivesEdge nodes.new.items (λ x.
        beq (edge_value nodes.old.items x fanin0) (edge_value nodes.old.items x fanin1))) }
    ensures gates { AddsGates nodes.old.items nodes.new.items }
{
    let both = new_and_node(nodes, fanin0, fanin1)?;
    let neither = new_and_node(nodes, !fanin0, !fanin1)?;
    new_or_node(nodes, both, neither)
}

/// The and of the edges, joined from the left by `new_and_node`: of no edges true, and of one that edge (crate aig,
/// `new_ands_node`).
pub fn new_ands_node(nodes: &mut Vec<AigNode>, fanins: &[AigEdge]) -> Result<AigEdge, MemoryError>
    requires sound { AreNodes nodes.old.items }
    requires edges { All (IsInRange nodes.old.items) fanins.now }
    ensures rule { IfOk result (λ e. FoldsOrAddsAll nodes.old.items fanins.now nodes.new.items e) }
    ensures joins { IfOk result (λ e. JoinsByAnd nodes.old.items nodes.new.items fanins.now e) }
    ensures gates { AddsGates nodes.old.items nodes.new.items }
    ensures err { OnErr result (nodes.new.items ≡ nodes.old.items) }
{
    let before = nodes.len();
    let mut all = AigEdge::constant(true);
    for fanin in fanins {
        match new_and_node(nodes, all, *fanin) {
            Ok(e) => all = e,
            Err(error) => {
                nodes.truncate(before);
                return Err(error);
            }
        }
    }
    Ok(all)
}

/// The and of the edges, joined from the left by one gate for each edge after the first: of no edges true, and of one
/// that edge (crate aig, `trivial_new_ands_node`).
pub fn trivial_new_ands_node(
    nodes: &mut Vec<AigNode>,
    fanins: &[AigEdge],
) -> Result<AigEdge, MemoryError>
    requires sound { AreNodes nodes.old.items }
    requires edges { All (IsInRange nodes.old.items) fanins.now }
    ensures rule { IfOk result (λ e. AddsGateForEach nodes.old.items fanins.now nodes.new.items e) }
    ensures joins { IfOk result (λ e.
        JoinsByAnd nodes.old.items nodes.new.items fanins.now e
        × AddsOneEach nodes.old.items nodes.new.items fanins.now) }
    ensures gates { AddsGates nodes.old.items nodes.new.items }
    ensures err { OnErr result (nodes.new.items ≡ nodes.old.items) }
{
    let Some((first, rest)) = fanins.split_first() else {
        return Ok(AigEdge::constant(true));
    };
    let before = nodes.len();
    let mut all = *first;
    for fanin in rest {
        match trivial_new_and_node(nodes, all, *fanin) {
            Ok(e) => all = e,
            Err(error) => {
                nodes.truncate(before);
                return Err(error);
            }
        }
    }
    Ok(all)
}

/// The or of the edges, the inverse of the `new_ands_node` of their inverses: of no edges false, and of one that edge (crate
/// aig, `new_ors_node`).
pub fn new_ors_node(nodes: &mut Vec<AigNode>, fanins: &[AigEdge]) -> Result<AigEdge, MemoryError>
    requires sound { AreNodes nodes.old.items }
    requires edges { All (IsInRange nodes.old.items) fanins.now }
    ensures rule { IfOk result (λ e.
        FoldsOrAddsAll nodes.old.items (map inverse fanins.now) nodes.new.items (inverse e)) }
    ensures joins { IfOk result (λ e. JoinsByOr nodes.old.items nodes.new.items fanins.now e) }
    ensures gates { AddsGates nodes.old.items nodes.new.items }
    ensures err { OnErr result (nodes.new.items ≡ nodes.old.items) }
{
    let inverses = inverses_of(*nodes.allocator(), fanins)?;
    Ok(!new_ands_node(nodes, &inverses)?)
}

/// The or of the edges, the inverse of the `trivial_new_ands_node` of their inverses: of no edges false, and of one that edge
/// (crate aig, `trivial_new_ors_node`).
pub fn trivial_new_ors_node(
    nodes: &mut Vec<AigNode>,
    fanins: &[AigEdge],
) -> Result<AigEdge, MemoryError>
    requires sound { AreNodes nodes.old.items }
    requires edges { All (IsInRange nodes.old.items) fanins.now }
    ensures rule { IfOk result (λ e.
        AddsGateForEach nodes.old.items (map inverse fanins.now) nodes.new.items (inverse e)) }
    ensures joins { IfOk result (λ e.
        JoinsByOr nodes.old.items nodes.new.items fanins.now e
        × AddsOneEach nodes.old.items nodes.new.items fanins.now) }
    ensures gates { AddsGates nodes.old.items nodes.new.items }
    ensures err { OnErr result (nodes.new.items ≡ nodes.old.items) }
{
    let inverses = inverses_of(*nodes.allocator(), fanins)?;
    Ok(!trivial_new_ands_node(nodes, &inverses)?)
}

/// The inverses of the edges.
fn inverses_of(alloc: Global, edges: &[AigEdge]) -> Result<Vec<AigEdge>, MemoryError>
    ensures { IfOk result (λ inverses. inverses.items ≡ map inverse edges.now) }
{
    let mut inverses = Vec::with_capacity(alloc, edges.len())?;
    for e in edges {
        inverses.push(!*e)?;
    }
    Ok(inverses)
}

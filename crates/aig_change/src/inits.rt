//! Initial edges that aren't constant, and constraints in their place.

ghost use Rattle.std.specs.Prelude.{◌≡◌, ◌∷◌, [], false, IfOk, OnErr, All, length, map, take};
ghost use Rattle.aig_circuit.specs.declared.node.AigNodeType.TheVariants.{Leaf};
ghost use Rattle.aig_circuit.specs.Build.{AddsGates, with_node};
ghost use Rattle.aig_circuit.specs.Edge.{edge_to};
ghost use Rattle.aig_circuit.specs.Circuit.{AreNodes, IsInRange, IsLatch};
ghost use Rattle.aig_change.specs.Changes.{with_constant_start};
ghost use Rattle.aig_change.specs.Inits.{Constrains};

use aig_base::MemoryError;
use aig_build::{new_eq_node, new_leaf_node, new_or_node};
use aig_circuit::{AigEdge, AigLatch, AigNode};

/// The latch without its initial edge where that isn't constant.
fn plain(latch: AigLatch) -> AigLatch
    ensures { result ≡ with_constant_start latch }
{
    let init = match latch.init() {
        Some(start) => {
            if start.node_id() == 0 {
                Some(start)
            } else {
                None
            }
        }
        None => None,
    };
    AigLatch::new(latch.input(), latch.next(), init)
}

/// Each latch without its initial edge where that isn't constant.
pub(crate) fn make_plain(latchs: &mut [AigLatch])
    ensures { latchs.new ≡ map with_constant_start latchs.old }
{
    for latch in latchs.iter_mut() {
        *latch = plain(*latch);
    }
}

/// Appends the constraint that `first` implies that the latch has the value of its initial edge, where that isn't
/// constant. After refused memory gates may be left.
fn constrain(
    nodes: &mut Vec<AigNode>,
    constraints: &mut Vec<AigEdge>,
    first: AigEdge,
    latch: AigLatch,
) -> Result<(), MemoryError>
    requires sound { AreNodes nodes.old.items }
    requires first_edge { IsInRange nodes.old.items first }
    requires latch { IsLatch nodes.old.items latch }
    ensures gates { AddsGates nodes.old.items nodes.new.items }
    ensures constrains { IfOk result (λ _. Constrains nodes.old.items nodes.new.items first
        (latch ∷ []) constraints.old.items constraints.new.items) }
    ensures err { OnErr result (constraints.new.items ≡ constraints.old.items) }
{
    if let Some(start) = latch.init() {
        if start.node_id() != 0 {
            let equal = new_eq_node(nodes, AigEdge::from(latch.input()), start)?;
            let implied = new_or_node(nodes, !first, equal)?;
            constraints.push(implied)?;
        }
    }
    Ok(())
}

/// Appends the constraints that `first` implies that each latch has the value of its initial edge, where that isn't
/// constant. After refused memory gates and constraints may be left.
fn constrain_all(
    nodes: &mut Vec<AigNode>,
    constraints: &mut Vec<AigEdge>,
    first: AigEdge,
    latchs: &[AigLatch],
) -> Result<(), MemoryError>
    requires sound { AreNodes nodes.old.items }
    requires first_edge { IsInRange nodes.old.items first }
    requires latchs { All (IsLatch nodes.old.items) latchs.now }
    ensures gates { AddsGates nodes.old.items nodes.new.items }
    ensures constrains { IfOk result (λ _. Constrains nodes.old.items nodes.new.items first
        latchs.now constraints.old.items constraints.new.items) }
    ensures kept { take (length constraints.old.items) constraints.new.items
        ≡ constraints.old.items }
{
    for latch in latchs {
        constrain(nodes, constraints, first, *latch)?;
    }
    Ok(())
}

/// Adds a leaf and appends the constraints that it implies that each latch has the value of its initial edge, where that
/// isn't constant. Returns the leaf. After an `Err`, which is refused memory, both lists are as they were.
pub(crate) fn constrain_starts(
    nodes: &mut Vec<AigNode>,
    constraints: &mut Vec<AigEdge>,
    latchs: &[AigLatch],
) -> Result<usize, MemoryError>
    requires sound { AreNodes nodes.old.items }
    requires latchs { All (IsLatch nodes.old.items) latchs.now }
    ensures leaf { IfOk result (λ leaf. leaf ≡ length nodes.old.items) }
    ensures gates { IfOk result (λ _. AddsGates (with_node nodes.old.items Leaf) nodes.new.items) }
    ensures constrains { IfOk result
        (λ leaf. Constrains (with_node nodes.old.items Leaf) nodes.new.items
        (edge_to leaf false) latchs.now constraints.old.items constraints.new.items) }
    ensures err { OnErr result
        ((nodes.new.items ≡ nodes.old.items) × (constraints.new.items ≡ constraints.old.items)) }
{
    let count = nodes.len();
    let before = constraints.len();
    let leaf = new_leaf_node(nodes)?;
    match constrain_all(nodes, constraints, AigEdge::from(leaf), latchs) {
        Ok(()) => Ok(leaf),
        Err(error) => {
            nodes.truncate(count);
            constraints.truncate(before);
            Err(error)
        }
    }
}

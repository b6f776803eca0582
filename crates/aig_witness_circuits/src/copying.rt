//! Copies of a circuit's nodes after other nodes, where some of its leaves are given as edges to these.

ghost use Rattle.std.specs.Prelude.{◌≡◌, ◌<◌, ◌++◌, ◌∷◌, [], IfOk, IfSome, Some, All, length};
ghost use Rattle.aig_circuit.specs.Circuit.{AreNodes, IsInRange};
ghost use Rattle.aig_circuit.specs.Node.{IfAnd};
ghost use Rattle.aig_witness_circuits.specs.Exact.{frame_in};
ghost use Rattle.aig_witness_circuits.specs.Frames.{HasImage, given_at};
ghost use Rattle.aig_unroll.specs.Frame.{frame_to, image_in, with_copy};

use aig_base::MemoryError;
use aig_build::{new_and_node, new_leaf_node};
use aig_circuit::{AigEdge, AigNode, AigNodeType};
use std::alloc::Global;

/// The image of an edge, where `images` has that of its node.
pub(crate) fn image_of(images: &[AigEdge], edge: AigEdge) -> AigEdge
    requires { edge.node_id < length images.now }
    ensures { result ≡ image_in images.now edge }
{
    images[edge.node_id()].not_if(edge.compl())
}

/// Makes the image of a node from those of smaller nodes: a gate is rebuilt, and a leaf is the edge that is given for it, or
/// else a new leaf.
fn copy_node(
    nodes: &mut Vec<AigNode>,
    node: &AigNode,
    given: Option<AigEdge>,
    images: &[AigEdge],
) -> Result<AigEdge, MemoryError>
    requires sound { AreNodes nodes.old.items }
    requires operands { IfAnd node.now.typ (HasImage nodes.old.items images.now) }
    ensures { IfOk result (λ e. frame_in nodes.new.items (images.now ++ e ∷ [])
        ≡ with_copy given (Some node.now.typ) (frame_in nodes.old.items images.now)) }
{
    match *node.typ() {
        AigNodeType::False => Ok(AigEdge::constant(false)),
        AigNodeType::Leaf => match given {
            Some(edge) => Ok(edge),
            None => Ok(AigEdge::from(new_leaf_node(nodes)?)),
        },
        AigNodeType::And(fanin0, fanin1) => {
            let first = image_of(images, fanin0);
            let second = image_of(images, fanin1);
            new_and_node(nodes, first, second)
        }
    }
}

/// Appends copies of the nodes, and returns the image of each node. `given` has at the place of a leaf the edge that it is, if
/// one is given; every other leaf becomes a new one.
pub(crate) fn copy_nodes(
    alloc: Global,
    nodes: &mut Vec<AigNode>,
    source: &[AigNode],
    given: &[Option<AigEdge>],
) -> Result<Vec<AigEdge>, MemoryError>
    requires sound { AreNodes nodes.old.items }
    requires source { AreNodes source.now }
    requires table { length given.now ≡ length source.now }
    requires there { All (λ g. IfSome g (IsInRange nodes.old.items)) given.now }
    ensures sound { IfOk result (λ _. AreNodes nodes.new.items) }
    ensures count { IfOk result (λ images. length images.items ≡ length source.now) }
    ensures exact { IfOk result (λ images. frame_in nodes.new.items images.items
        ≡ frame_to source.now (given_at given.now) nodes.old.items (length source.now)) }
{
    let mut images = Vec::with_capacity(alloc, source.len())?;
    for (id, node) in source.iter().enumerate() {
        let image = copy_node(nodes, node, given[id], &images)?;
        images.push(image)?;
    }
    Ok(images)
}

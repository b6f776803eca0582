//! The nodes of one step more (crate aig, `unroll`).

ghost use Rattle.std.specs.Prelude.{◌≡◌, ◌≢◌, ◌<◌, ◌≤◌, ◌++◌, ◌∷◌, [], ℕ, false, IfOk, OnErr, OnOk, All, AllPairs, length, take};
ghost use Rattle.aig_circuit.specs.declared.node.AigNodeType.TheVariants.{Leaf};
ghost use Rattle.aig_circuit.specs.Edge.{edge_to};
ghost use Rattle.aig_circuit.specs.Build.{Grows, with_node};
ghost use Rattle.aig_circuit.specs.Circuit.{AreNodes, IsInRange, latch_leaves};
ghost use Rattle.aig_unroll.specs.Places.{leaves_after};
ghost use Rattle.aig_unroll.specs.Step.{Copies, CopiesAll, CopiesBelow, HasLatchImages, MarksLatches, image_at, image_in};

use aig_base::MemoryError;
use aig_build::{new_and_node, new_leaf_node};
use aig_circuit::{AigEdge, AigLatch, AigNode, AigNodeType, CircuitView};

/// The image of an edge, where `images` has that of its node.
pub(crate) fn image_of(images: &[AigEdge], edge: AigEdge) -> AigEdge
    requires { edge.node_id < length images.now }
    ensures { result ≡ image_in images.now edge }
{
    images[edge.node_id()].not_if(edge.compl())
}

/// Sets every image to the edge of node `unset`.
fn clear(images: &mut [AigEdge], unset: usize)
    ensures { (n : ℕ) → n < length images.new
        → image_at images.new n ≡ edge_to unset false }
{
    for image in images.iter_mut() {
        *image = AigEdge::from(unset);
    }
}

/// Sets the image of each latch's leaf to the next edge of the latch in its place in `current`, and every other image to
/// the edge of node `unset`.
fn set_latch_images(images: &mut [AigEdge], latchs: &[AigLatch], current: &[AigLatch], unset: usize)
    requires lengths { length latchs.now ≡ length current.now }
    requires leaves { All (λ latch. latch.input < length images.old) latchs.now }
    requires distinct { AllPairs (λ m n. m ≢ n) (latch_leaves latchs.now) }
    ensures { HasLatchImages latchs.now current.now (length latchs.now) unset images.new }
{
    clear(images, unset);
    for (i, latch) in latchs.iter().enumerate() {
        images[latch.input()] = current[i].next();
    }
}

/// Adds a leaf that is an input. A refused one may leave the leaf.
fn new_input(nodes: &mut Vec<AigNode>, inputs: &mut Vec<usize>) -> Result<AigEdge, MemoryError>
    requires { AreNodes nodes.old.items }
    ensures edge { IfOk result (λ e. e ≡ edge_to (length nodes.old.items) false) }
    ensures leaf { IfOk result (λ _. nodes.new.items ≡ with_node nodes.old.items Leaf) }
    ensures input { IfOk result
        (λ _. inputs.new.items ≡ inputs.old.items ++ length nodes.old.items ∷ []) }
    ensures err { OnErr result (inputs.new.items ≡ inputs.old.items) }
    ensures grows { Grows nodes.old.items nodes.new.items }
{
    let leaf = new_leaf_node(nodes)?;
    inputs.push(leaf)?;
    Ok(AigEdge::from(leaf))
}

/// Makes the image of node `id` from those of smaller nodes: a gate is rebuilt, a leaf whose image is among the first
/// `start` nodes keeps it, and every other leaf becomes a new leaf that is an input. A refused one leaves the inputs.
fn copy_node(
    nodes: &mut Vec<AigNode>,
    inputs: &mut Vec<usize>,
    from: &CircuitView<'_>,
    id: usize,
    images: &[AigEdge],
    start: usize,
) -> Result<AigEdge, MemoryError>
    requires sound { AreNodes nodes.old.items }
    requires there { id < length from.now.nodes }
    requires table { length images.now ≡ length from.now.nodes }
    requires images { (n : ℕ) → n < id → IsInRange nodes.old.items (image_at images.now n) }
    requires start { start ≤ length nodes.old.items }
    ensures copies { IfOk result
        (λ e. Copies from.now id start nodes.old.items nodes.new.items images.now e) }
    ensures edge { IfOk result (λ e. IsInRange nodes.new.items e) }
    ensures inputs { IfOk result (λ _. inputs.new.items
        ≡ inputs.old.items ++ leaves_after (length nodes.old.items) nodes.new.items) }
    ensures err { OnErr result (inputs.new.items ≡ inputs.old.items) }
    ensures grows { Grows nodes.old.items nodes.new.items }
{
    match *from.nodes()[id].typ() {
        AigNodeType::False => Ok(AigEdge::constant(false)),
        AigNodeType::Leaf => {
            let image = images[id];
            if image.node_id() < start {
                return Ok(image);
            }
            new_input(nodes, inputs)
        }
        AigNodeType::And(fanin0, fanin1) => {
            let first = image_of(images, fanin0);
            let second = image_of(images, fanin1);
            new_and_node(nodes, first, second)
        }
    }
}

/// Makes the images of all nodes, in rising number.
fn copy_nodes(
    nodes: &mut Vec<AigNode>,
    inputs: &mut Vec<usize>,
    from: &CircuitView<'_>,
    images: &mut [AigEdge],
) -> Result<(), MemoryError>
    requires sound { AreNodes nodes.old.items }
    requires table { length images.old ≡ length from.now.nodes }
    requires latches { MarksLatches from.now (length nodes.old.items) images.old }
    ensures copies { OnOk result
        (CopiesBelow from.now nodes.old.items nodes.new.items images.old images.new
        (length from.now.nodes)) }
    ensures inputs { OnOk result (inputs.new.items
        ≡ inputs.old.items ++ leaves_after (length nodes.old.items) nodes.new.items) }
    ensures kept { take (length inputs.old.items) inputs.new.items ≡ inputs.old.items }
    ensures grows { Grows nodes.old.items nodes.new.items }
{
    let start = nodes.len();
    for id in 0..from.nodes().len() {
        let image = copy_node(nodes, inputs, from, id, images, start)?;
        images[id] = image;
    }
    Ok(())
}

/// Adds the nodes of one step more, in which the latches have the values of their next edges in `latchs`, and makes the
/// images of all nodes of `from`. The new leaves are inputs. A refused one leaves the nodes and the inputs that it added.
pub(crate) fn copy_step(
    nodes: &mut Vec<AigNode>,
    inputs: &mut Vec<usize>,
    latchs: &[AigLatch],
    from: &CircuitView<'_>,
    images: &mut [AigEdge],
) -> Result<(), MemoryError>
    requires sound { AreNodes nodes.old.items }
    requires next { All (λ latch. IsInRange nodes.old.items latch.next) latchs.now }
    requires leaves { latch_leaves latchs.now ≡ latch_leaves from.now.latchs }
    requires table { length images.old ≡ length from.now.nodes }
    ensures copies { OnOk result
        (CopiesAll from.now latchs.now nodes.old.items nodes.new.items images.new) }
    ensures inputs { OnOk result (inputs.new.items
        ≡ inputs.old.items ++ leaves_after (length nodes.old.items) nodes.new.items) }
    ensures kept { take (length inputs.old.items) inputs.new.items ≡ inputs.old.items }
    ensures grows { Grows nodes.old.items nodes.new.items }
{
    set_latch_images(images, from.latchs(), latchs, nodes.len());
    copy_nodes(nodes, inputs, from, images)
}

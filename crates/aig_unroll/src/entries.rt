//! The entries of one step more in the lists of a circuit (crate aig, `unroll`).

ghost use Rattle.std.specs.Prelude.{◌≡◌, ◌+◌, ◌<◌, ◌≤◌, OnOk, OnErr, All, length, take, vec_capacity, vec_len};
ghost use Rattle.aig_circuit.specs.Circuit.{IsCircuit};
ghost use Rattle.aig_circuit.specs.Properties.{AllProperties};
ghost use Rattle.aig_circuit.specs.View.{HasRoomFor, properties_of};
ghost use Rattle.aig_unroll.specs.Step.{Appends, AppendsButJustice, AppendsSets, AreNodesBelow, HaveNextImages, entries_of};

use crate::nodes::image_of;
use aig_base::MemoryError;
use aig_circuit::{AigEdge, AigLatch, CircuitLists, CircuitView, Properties};

/// Appends the images of edges. Requires room, so that no push fails.
fn append_images(list: &mut Vec<AigEdge>, edges: &[AigEdge], images: &[AigEdge])
    requires room { vec_len list.old + length edges.now ≤ vec_capacity list.old }
    requires there { AreNodesBelow (length images.now) edges.now }
    ensures { Appends images.now edges.now list.old.items list.new.items }
{
    for edge in edges {
        let _ = list.push(image_of(images, *edge));
    }
}

/// Appends the images of the entries of properties, but for justice. Requires room.
fn append_properties(all: &mut Properties<AigEdge>, added: &Properties<AigEdge>, images: &[AigEdge])
    requires room { HasRoomFor all.old (properties_of added.now) }
    requires there { AllProperties (λ e. e.node_id < length images.now) (properties_of added.now) }
    ensures { AppendsButJustice images.now (properties_of added.now)
        (properties_of all.old) (properties_of all.new) }
{
    append_images(&mut all.outputs, &added.outputs, images);
    append_images(&mut all.bads, &added.bads, images);
    append_images(&mut all.constraints, &added.constraints, images);
    append_images(&mut all.fairness, &added.fairness, images);
}

/// Appends sets of the images of edges. A refused one leaves the sets that it appended.
fn push_sets(
    list: &mut Vec<Vec<AigEdge>>,
    sets: &[Vec<AigEdge>],
    images: &[AigEdge],
) -> Result<(), MemoryError>
    requires { All (AreNodesBelow (length images.now)) (entries_of sets.now) }
    ensures ok { OnOk result
        (AppendsSets images.now (entries_of sets.now)
        (entries_of list.old.items) (entries_of list.new.items)) }
    ensures kept { take (length list.old.items) list.new.items ≡ list.old.items }
{
    for set in sets {
        let mut appended = Vec::with_capacity(*list.allocator(), set.len())?;
        append_images(&mut appended, set, images);
        list.push(appended)?;
    }
    Ok(())
}

/// Appends sets of the images of edges. A refused one leaves the sets as they were.
pub(crate) fn append_sets(
    list: &mut Vec<Vec<AigEdge>>,
    sets: &[Vec<AigEdge>],
    images: &[AigEdge],
) -> Result<(), MemoryError>
    requires { All (AreNodesBelow (length images.now)) (entries_of sets.now) }
    ensures ok { OnOk result
        (AppendsSets images.now (entries_of sets.now)
        (entries_of list.old.items) (entries_of list.new.items)) }
    ensures err { OnErr result (list.new.items ≡ list.old.items) }
{
    let before = list.len();
    let pushed = push_sets(list, sets, images);
    if pushed.is_err() {
        list.truncate(before);
    }
    pushed
}

/// Gives each latch the image of the next edge of the latch in its place among `others`.
fn set_next_images(latchs: &mut [AigLatch], others: &[AigLatch], images: &[AigEdge])
    requires lengths { length latchs.old ≡ length others.now }
    requires there { All (λ latch. latch.next.node_id < length images.now) others.now }
    ensures { HaveNextImages images.now others.now latchs.old latchs.new }
{
    for (i, latch) in latchs.iter_mut().enumerate() {
        let next = image_of(images, others[i].next());
        *latch = AigLatch::new(latch.input(), next, latch.init());
    }
}

/// Appends the entries of a step, but for justice, and replaces all next edges. Requires room.
pub(crate) fn append_step(lists: &mut CircuitLists, from: &CircuitView<'_>, images: &[AigEdge])
    requires room { HasRoomFor lists.old.properties from.now.properties }
    requires table { length images.now ≡ length from.now.nodes }
    requires latchs { length lists.old.latchs.items ≡ length from.now.latchs }
    ensures circuit { IsCircuit from.now }
    ensures nodes { lists.new.nodes.items ≡ lists.old.nodes.items }
    ensures inputs { lists.new.inputs.items ≡ lists.old.inputs.items }
    ensures latchs { HaveNextImages images.now from.now.latchs
        lists.old.latchs.items lists.new.latchs.items }
    ensures properties { AppendsButJustice images.now from.now.properties
        (properties_of lists.old.properties) (properties_of lists.new.properties) }
    ensures names { lists.new.names ≡ lists.old.names }
{
    append_properties(&mut lists.properties, from.properties(), images);
    set_next_images(&mut lists.latchs, from.latchs(), images);
}

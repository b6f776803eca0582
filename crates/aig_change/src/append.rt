//! The entries of one circuit after those of another.

ghost use Rattle.std.specs.Prelude.{◌≡◌, ◌+◌, ◌<◌, ◌≤◌, ◌^◌, ◌++◌, IfOk, OnErr, OnOk, All, length, map, vec_len, vec_capacity};
ghost use Rattle.aig_circuit.specs.Circuit.{AreNodes};
ghost use Rattle.aig_circuit.specs.Renumber.{nodes_in_order, renumbered_edge, renumbered_latch};
ghost use Rattle.aig_circuit.specs.Properties.{append_properties, map_properties};
ghost use Rattle.aig_circuit.specs.View.{HasRoomFor, lists_circuit, properties_of};
ghost use Rattle.aig_renumber.specs.Numbers.{IsEdgeIn, IsLatchIn};
ghost use Rattle.aig_change.specs.Append.{HasRoomForCircuit};
ghost use Rattle.aig_change.specs.Merge.{numbers_but_0, shifted};

use aig_base::MemoryError;
use aig_circuit::{AigEdge, AigLatch, AigNode, CircuitLists, CircuitView, Properties};
use aig_renumber::{Numbering, renumbered_edge, renumbered_latch, renumbered_node};
use std::alloc::Global;

/// The numbers of a circuit's nodes after those of another: 0 stays 0, and the others follow on.
#[derive(Drop)]
pub(crate) struct After {
    /// How many nodes come before.
    pub(crate) count: usize,
    /// How many nodes get numbers.
    pub(crate) size: usize,
    ghost fits: { count + size < 2 ^ 64 },
}

impl Numbering for After {
    ghost has = { λ after n. n < after.size };

    ghost number_of = { λ after. shifted after.count };

    fn number(&self, n: usize) -> usize {
        if n == 0 { 0 } else { n + self.count - 1 }
    }
}

/// Makes room for the entries of the other circuit, but for its sets and names.
pub(crate) fn reserve(lists: &mut CircuitLists, other: &CircuitView<'_>) -> Result<(), MemoryError>
    ensures same { lists_circuit lists.new ≡ lists_circuit lists.old }
    ensures room { IfOk result (λ _. HasRoomForCircuit lists.new other.now) }
{
    lists.nodes.reserve(other.nodes().len())?;
    lists.inputs.reserve(other.inputs().len())?;
    lists.latchs.reserve(other.latchs().len())?;
    lists.properties.reserve(other.properties())
}

/// Appends inputs, for which there is room.
pub(crate) fn inputs(all: &mut Vec<usize>, numbers: &After, added: &[usize])
    requires below { All (λ n. n < numbers.now.size) added.now }
    requires room { vec_len all.old + length added.now ≤ vec_capacity all.old }
    ensures { all.new.items ≡ all.old.items ++ map (shifted numbers.now.count) added.now }
{
    for input in added {
        all.push_reserved(numbers.number(*input));
    }
}

/// Appends edges, for which there is room.
pub(crate) fn edges(all: &mut Vec<AigEdge>, numbers: &After, added: &[AigEdge])
    requires below { All (IsEdgeIn (λ n. n < numbers.now.size)) added.now }
    requires room { vec_len all.old + length added.now ≤ vec_capacity all.old }
    ensures { all.new.items
        ≡ all.old.items ++ map (renumbered_edge (shifted numbers.now.count)) added.now }
{
    for e in added {
        all.push_reserved(renumbered_edge(numbers, *e));
    }
}

/// Appends sets with their edges under the new numbers. After an `Err` none is appended.
pub(crate) fn sets(
    all: &mut Vec<Vec<AigEdge>>,
    numbers: &After,
    added: &[Vec<AigEdge>],
) -> Result<(), MemoryError>
    requires { All (All (IsEdgeIn (λ n. n < numbers.now.size)))
        (map (λ set. set.items) added.now) }
    ensures ok { OnOk result (map (λ set. set.items) all.new.items
        ≡ map (λ set. set.items) all.old.items
        ++ map (map (renumbered_edge (shifted numbers.now.count)))
        (map (λ set. set.items) added.now)) }
    ensures err { OnErr result (all.new.items ≡ all.old.items) }
{
    let mut moved = Vec::with_capacity(*all.allocator(), added.len())?;
    push_sets(&mut moved, numbers, added)?;
    all.append(&mut moved)?;
    Ok(())
}

/// Pushes the sets with their edges under the new numbers. After an `Err` some may be pushed.
fn push_sets(
    all: &mut Vec<Vec<AigEdge>>,
    numbers: &After,
    added: &[Vec<AigEdge>],
) -> Result<(), MemoryError>
    requires { All (All (IsEdgeIn (λ n. n < numbers.now.size)))
        (map (λ set. set.items) added.now) }
    ensures { OnOk result (map (λ set. set.items) all.new.items
        ≡ map (λ set. set.items) all.old.items
        ++ map (map (renumbered_edge (shifted numbers.now.count)))
        (map (λ set. set.items) added.now)) }
{
    for set in added {
        let moved = moved_set(*all.allocator(), numbers, set)?;
        all.push(moved)?;
    }
    Ok(())
}

/// The edges under their new numbers.
fn moved_set(alloc: Global, numbers: &After, set: &[AigEdge]) -> Result<Vec<AigEdge>, MemoryError>
    requires { All (IsEdgeIn (λ n. n < numbers.now.size)) set.now }
    ensures { IfOk result (λ moved. moved.items
        ≡ map (renumbered_edge (shifted numbers.now.count)) set.now) }
{
    let mut moved = Vec::with_capacity(alloc, set.len())?;
    edges(&mut moved, numbers, set);
    Ok(moved)
}

/// Appends the edges of the other circuit's properties but justice, for which there is room.
pub(crate) fn properties(all: &mut Properties<AigEdge>, numbers: &After, other: &CircuitView<'_>)
    requires size { numbers.now.size ≡ length other.now.nodes }
    requires room { HasRoomFor all.old other.now.properties }
    ensures { properties_of all.new ≡ record (append_properties (properties_of all.old)
        (map_properties (renumbered_edge (shifted numbers.now.count)) other.now.properties))
        { justice = (properties_of all.old).justice } }
{
    edges(&mut all.outputs, numbers, other.outputs());
    edges(&mut all.bads, numbers, other.bads());
    edges(&mut all.constraints, numbers, other.constraints());
    edges(&mut all.fairness, numbers, other.fairness());
}

/// Appends latches, for which there is room.
pub(crate) fn latchs(all: &mut Vec<AigLatch>, numbers: &After, added: &[AigLatch])
    requires below { All (IsLatchIn (λ n. n < numbers.now.size)) added.now }
    requires room { vec_len all.old + length added.now ≤ vec_capacity all.old }
    ensures { all.new.items
        ≡ all.old.items ++ map (renumbered_latch (shifted numbers.now.count)) added.now }
{
    for l in added {
        all.push_reserved(renumbered_latch(numbers, *l));
    }
}

/// Appends the nodes but 0, for which there is room.
pub(crate) fn nodes(all: &mut Vec<AigNode>, added: &[AigNode])
    requires sound { AreNodes added.now }
    requires bound { length all.old.items + length added.now < 2 ^ 64 }
    requires room { vec_len all.old + length added.now ≤ vec_capacity all.old }
    ensures { all.new.items ≡ all.old.items ++ nodes_in_order added.now
        (shifted (length all.old.items)) (length all.old.items) (numbers_but_0 added.now) }
{
    let count = all.len();
    let numbers = After {
        count,
        size: added.len(),
    };
    for i in 1..added.len() {
        all.push_reserved(renumbered_node(&numbers, count + i - 1, &added[i]));
    }
}

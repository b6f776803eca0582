//! The engine that joins two circuits.

ghost use Rattle.std.specs.Prelude.{◌≡◌, ◌<◌, ◌++◌, IfOk, OnOk, All, length, map, slice_index};
ghost use Rattle.aig_circuit.specs.Circuit.{AreNodes, IsCircuit};
ghost use Rattle.aig_circuit.specs.Properties.{AllProperties, append_properties, map_properties};
ghost use Rattle.aig_circuit.specs.Renumber.{nodes_in_order, renumbered_edge, renumbered_latch};
ghost use Rattle.aig_circuit.specs.View.{lists_circuit, names_of, properties_of};
ghost use Rattle.aig_renumber.specs.Numbers.{IsEdgeIn, IsLatchIn};
ghost use Rattle.aig_join.specs.Joined.{CanShare, further_leaves, joined};
ghost use Rattle.aig_join.specs.Names.{is_taken, with_names};

use crate::names::{name_others, node_names};
use crate::numbers::{JointNumbers, first_leaves, joint_numbers, leaves};
use aig_base::MemoryError;
use aig_circuit::{AigEdge, AigLatch, AigNode, CircuitLists, CircuitView, Properties};
use aig_renumber::{renumber_latches, renumber_nodes, renumber_properties, renumbered_node};
use std::collections::HashMap;

/// Appends the nodes of these numbers.
fn push_nodes(
    all: &mut Vec<AigNode>,
    added: &[AigNode],
    numbers: &JointNumbers<'_>,
    others: &[usize],
) -> Result<(), MemoryError>
    requires sound { AreNodes added.now }
    requires table { length numbers.now.table.now ≡ length added.now }
    requires there { All (λ n. n < length added.now) others.now }
    requires no_false { All (λ n. 0 < n) others.now }
    ensures { OnOk result (all.new.items ≡ all.old.items
        ++ nodes_in_order added.now (slice_index numbers.now.table.now) (length all.old.items)
        others.now) }
{
    for n in others {
        let id = all.len();
        all.push(renumbered_node(numbers, id, &added[*n]))?;
    }
    Ok(())
}

/// Appends inputs under their new numbers.
fn push_inputs(
    all: &mut Vec<usize>,
    numbers: &JointNumbers<'_>,
    added: &[usize],
) -> Result<(), MemoryError>
    requires { All (λ n. n < length numbers.now.table.now) added.now }
    ensures { OnOk result (all.new.items
        ≡ all.old.items ++ map (slice_index numbers.now.table.now) added.now) }
{
    let mut moved = Vec::from_slice(*all.allocator(), added)?;
    renumber_nodes(numbers, &mut moved);
    all.append(&mut moved)?;
    Ok(())
}

/// Appends latches under their new numbers.
fn push_latches(
    all: &mut Vec<AigLatch>,
    numbers: &JointNumbers<'_>,
    added: &[AigLatch],
) -> Result<(), MemoryError>
    requires { All (IsLatchIn (λ n. n < length numbers.now.table.now)) added.now }
    ensures { OnOk result (all.new.items
        ≡ all.old.items ++ map (renumbered_latch (slice_index numbers.now.table.now)) added.now) }
{
    let mut moved = Vec::from_slice(*all.allocator(), added)?;
    renumber_latches(numbers, &mut moved);
    all.append(&mut moved)?;
    Ok(())
}

/// Appends the edges of the properties, list by list, under their new numbers.
fn push_properties(
    all: &mut Properties<AigEdge>,
    numbers: &JointNumbers<'_>,
    added: &Properties<AigEdge>,
) -> Result<(), MemoryError>
    requires { AllProperties (IsEdgeIn (λ n. n < length numbers.now.table.now))
        (properties_of added.now) }
    ensures { OnOk result (properties_of all.new ≡ append_properties (properties_of all.old)
        (map_properties (renumbered_edge (slice_index numbers.now.table.now))
        (properties_of added.now))) }
{
    let mut moved = added.copied(*all.outputs.allocator())?;
    renumber_properties(numbers, &mut moved);
    append_lists(all, &mut moved)
}

/// Appends the entries of the other properties, list by list.
fn append_lists(
    all: &mut Properties<AigEdge>,
    added: &mut Properties<AigEdge>,
) -> Result<(), MemoryError>
    ensures { OnOk result (properties_of all.new
        ≡ append_properties (properties_of all.old) (properties_of added.old)) }
{
    all.outputs.append(&mut added.outputs)?;
    all.bads.append(&mut added.bads)?;
    all.constraints.append(&mut added.constraints)?;
    all.justice.append(&mut added.justice)?;
    all.fairness.append(&mut added.fairness)?;
    Ok(())
}

/// Adds the names of the second circuit's further inputs and latches, behind the prefix, but those that an input or a latch
/// of the first has.
fn push_names(
    names: &mut HashMap<usize, String>,
    numbers: &JointNumbers<'_>,
    first: &CircuitView<'_>,
    second: &CircuitView<'_>,
    latches: usize,
) -> Result<(), MemoryError>
    requires can { CanShare latches first.now second.now }
    requires table { length numbers.now.table.now ≡ length second.now.nodes }
    ensures { OnOk result (names_of names.new.entries
        ≡ with_names (slice_index numbers.now.table.now) (is_taken first.now) second.now.names
        (names_of names.old.entries) (further_leaves latches first.now second.now)) }
{
    let alloc = first.allocator();
    let named = leaves(alloc, first.inputs(), first.latchs())?;
    let taken = node_names(alloc, first.names(), &named)?;
    let inputs = first.inputs().len();
    let further = leaves(
        alloc,
        &second.inputs()[inputs..],
        &second.latchs()[latches..],
    )?;
    name_others(alloc, names, numbers, &taken, second.names(), &further)
}

/// Returns the first circuit with what else the second one has after it. The second one's first inputs are the inputs of the
/// first, and its first latches, so many, are the first latches of the first. Nodes of the first keep their names, and a
/// further input or latch of the second has its name behind `other.`, where no input or latch of the first is named so. The
/// one error is refused memory.
pub fn join(
    first: &CircuitView<'_>,
    second: &CircuitView<'_>,
    latches: usize,
) -> Result<CircuitLists, MemoryError>
    requires { CanShare latches first.now second.now }
    ensures joined { IfOk result
        (λ lists. lists_circuit lists ≡ joined latches first.now second.now) }
    ensures circuit { IfOk result (λ lists. IsCircuit (lists_circuit lists)) }
{
    let alloc = first.allocator();
    let inputs = first.inputs().len();
    let theirs = first_leaves(alloc, first, inputs, latches)?;
    let shared = first_leaves(alloc, second, inputs, latches)?;
    let (table, others) = joint_numbers(
        alloc,
        first.nodes().len(),
        second.nodes(),
        &shared,
        &theirs,
    )?;
    let numbers = JointNumbers { table: &table };
    let mut lists = first.to_lists()?;
    push_nodes(&mut lists.nodes, second.nodes(), &numbers, &others)?;
    push_inputs(&mut lists.inputs, &numbers, &second.inputs()[inputs..])?;
    push_latches(&mut lists.latchs, &numbers, &second.latchs()[latches..])?;
    push_properties(&mut lists.properties, &numbers, second.properties())?;
    push_names(&mut lists.names, &numbers, first, second, latches)?;
    Ok(lists)
}

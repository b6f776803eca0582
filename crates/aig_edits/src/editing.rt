//! What is made of one file.

ghost use Rattle.std.specs.Prelude.{◌≡◌, ◌≤◌, ◌↔◌, ◌∷◌, [], IfErr, IfOk, IsTrue, OnOk, Some, slice_get};
ghost use Rattle.aig_circuit.specs.Circuit.{IsCircuit, IsInRange};
ghost use Rattle.aig_circuit.specs.View.{lists_circuit};
ghost use Rattle.aig_edit_laws.specs.Plain.{IsPlain};
ghost use Rattle.aig_edit_laws.specs.Shown.{bad_alone, output_alone};
ghost use Rattle.aig_format.specs.Writable.{IsWritable};
ghost use Rattle.aig_unroll.specs.Places.{unrolled_size};
ghost use Rattle.aig_edits.specs.EditParts.{CanEditCircuit, Edits, Yields};
ghost use Rattle.aig_edits.specs.declared.editing.Edit.TheVariants as edits;
ghost use Rattle.aig_edits.specs.declared.edit_error.EditError.TheVariants as errors;

use crate::edit_error::EditError;
use aig_base::MemoryError;
use aig_change::{aig_move, compress_property};
use aig_circuit::{AigEdge, CircuitLists, CircuitView};
use aig_cone::{coi_refine, refining_is_circuit};
use aig_edit_laws::changed_circuits_are_plain;
use aig_format_laws::binary_is_read;
use aig_renumber::{reencode, reencoding_is_circuit};
use aig_unroll::unroll_to;
use std::mem;

/// What is made of a file's circuit.
#[derive(Debug, PartialEq, Eq, Drop)]
pub enum Edit {
    /// The circuit cut to its cone of influence (`Aig::coi_refine`).
    Refine,
    /// The circuit in the numbering of the binary form (`Aig::reencode`).
    Reencode,
    /// The circuit with so many further steps (`Aig::unroll_to`).
    Unroll(usize),
    /// The circuit with its constraints joined to its bad edge and the first output (`Aig::aig_move`). Further outputs stay
    /// without them.
    Move,
    /// The circuit with its bad edges as one (`Aig::compress_property`).
    Compress,
    /// The circuit with its outputs as its bad edges, and no outputs: files from before AIGER 1.9 have no others.
    Bads,
    /// The circuit with the bad edge of this number, from 0 on, as the only one.
    Property(usize),
    /// The circuit with true as its only bad edge: bad wherever a run that meets the constraints has come.
    Possible,
    /// The circuit of what the output of this number, from 0 on, the constraints, the latches and the initial edges that aren't
    /// constant reach, with that output and the constraints as the only properties.
    Cone(usize),
}

/// Cuts a circuit to its cone of influence.
fn refined(circuit: &CircuitView<'_>) -> Result<CircuitLists, EditError>
    requires { IsWritable circuit.now }
    ensures { Yields edits.Refine circuit.now result }
{
    changed_circuits_are_plain();
    refining_is_circuit();
    let _nodes = circuit.nodes();
    let (made, _old_numbers) = coi_refine(circuit.allocator(), circuit)?;
    Ok(made)
}

/// Numbers a circuit as the binary form has it.
fn reencoded(circuit: &CircuitView<'_>) -> Result<CircuitLists, EditError>
    requires { IsWritable circuit.now }
    ensures { Yields edits.Reencode circuit.now result }
{
    binary_is_read();
    reencoding_is_circuit();
    let _nodes = circuit.nodes();
    Ok(reencode(circuit.allocator(), circuit)?)
}

/// Adds so many steps to a circuit.
fn unrolled(circuit: &CircuitView<'_>, k: usize) -> Result<CircuitLists, EditError>
    requires { IsWritable circuit.now }
    ensures { Yields (edits.Unroll k) circuit.now result }
{
    changed_circuits_are_plain();
    let _nodes = circuit.nodes();
    Ok(unroll_to(circuit, k)?)
}

/// Joins a circuit's constraints to its first bad edge and its first output.
fn moved(circuit: &CircuitView<'_>) -> Result<CircuitLists, EditError>
    requires { IsWritable circuit.now }
    ensures { Yields edits.Move circuit.now result }
{
    changed_circuits_are_plain();
    let _nodes = circuit.nodes();
    Ok(aig_move(circuit)?)
}

/// Makes one bad edge of a circuit's.
fn compressed(mut circuit: CircuitLists) -> Result<CircuitLists, EditError>
    requires circuit { IsCircuit (lists_circuit circuit) }
    requires plain { IsWritable (lists_circuit circuit) }
    ensures { Yields edits.Compress (lists_circuit circuit) result }
{
    changed_circuits_are_plain();
    compress_property(&mut circuit)?;
    Ok(circuit)
}

/// Makes bad edges of a circuit's outputs.
fn with_outputs_as_bads(mut circuit: CircuitLists) -> Result<CircuitLists, EditError>
    requires circuit { IsCircuit (lists_circuit circuit) }
    requires plain { IsWritable (lists_circuit circuit) }
    requires none { circuit.properties.bads.items ≡ [] }
    ensures { Yields edits.Bads (lists_circuit circuit) result }
{
    changed_circuits_are_plain();
    let properties = &mut circuit.properties;
    mem::swap(&mut properties.outputs, &mut properties.bads);
    Ok(circuit)
}

/// Leaves an edge alone in a list.
fn set_alone(edges: &mut Vec<AigEdge>, e: AigEdge) -> Result<(), MemoryError>
    ensures { OnOk result (edges.new.items ≡ e ∷ []) }
{
    edges.clear();
    edges.push(e)?;
    Ok(())
}

/// Makes an edge the only bad one.
fn with_bad(mut circuit: CircuitLists, bad: AigEdge) -> Result<CircuitLists, EditError>
    requires circuit { IsCircuit (lists_circuit circuit) }
    requires plain { IsWritable (lists_circuit circuit) }
    requires there { IsInRange circuit.nodes.items bad }
    ensures made { IfOk result (λ m. (lists_circuit m ≡ bad_alone (lists_circuit circuit) bad)
        × IsPlain (lists_circuit m) × IsCircuit (lists_circuit m)) }
    ensures fault { IfErr result (λ e. e ≡ errors.Memory) }
{
    changed_circuits_are_plain();
    set_alone(&mut circuit.properties.bads, bad)?;
    Ok(circuit)
}

/// Keeps of the bad edges edge `n` alone.
fn property(circuit: CircuitLists, n: usize, bad: AigEdge) -> Result<CircuitLists, EditError>
    requires circuit { IsCircuit (lists_circuit circuit) }
    requires plain { IsWritable (lists_circuit circuit) }
    requires there { slice_get circuit.properties.bads.items n ≡ Some bad }
    ensures { Yields (edits.Property n) (lists_circuit circuit) result }
{
    with_bad(circuit, bad)
}

/// Makes true the only bad edge.
fn possible(circuit: CircuitLists) -> Result<CircuitLists, EditError>
    requires circuit { IsCircuit (lists_circuit circuit) }
    requires plain { IsWritable (lists_circuit circuit) }
    ensures { Yields edits.Possible (lists_circuit circuit) result }
{
    with_bad(circuit, AigEdge::constant(true))
}

/// Keeps an output and the constraints as the only properties.
fn with_output(mut circuit: CircuitLists, output: AigEdge) -> Result<CircuitLists, MemoryError>
    ensures { IfOk result (λ m. lists_circuit m ≡ output_alone (lists_circuit circuit) output) }
{
    let properties = &mut circuit.properties;
    set_alone(&mut properties.outputs, output)?;
    properties.bads.clear();
    properties.justice.clear();
    properties.fairness.clear();
    Ok(circuit)
}

/// Keeps what output `n`, constraints and latches read, with that output and the constraints as the only properties.
fn cone(circuit: CircuitLists, n: usize, output: AigEdge) -> Result<CircuitLists, EditError>
    requires circuit { IsCircuit (lists_circuit circuit) }
    requires plain { IsWritable (lists_circuit circuit) }
    requires there { slice_get circuit.properties.outputs.items n ≡ Some output }
    ensures { Yields (edits.Cone n) (lists_circuit circuit) result }
{
    changed_circuits_are_plain();
    refining_is_circuit();
    let asked = with_output(circuit, output)?;
    let asked = CircuitView::new(&asked);
    let (made, _old_numbers) = coi_refine(asked.allocator(), &asked)?;
    Ok(made)
}

/// Whether a circuit with so many further steps has at most `limit` nodes, by the bound that `unroll_to` keeps.
fn is_within(circuit: &CircuitLists, k: usize, limit: usize) -> bool
    ensures { IsTrue result ↔ (unrolled_size (lists_circuit circuit.now) k ≤ limit) }
{
    aig_unroll::is_size_within(circuit.nodes.len(), circuit.latchs.len(), k, limit)
}

/// Whether no bad edge is left without the constraints that are joined to the first one: there is none of these, or at most one
/// bad edge.
fn is_joined(circuit: &CircuitLists) -> bool
    ensures { IsTrue result ↔ CanEditCircuit edits.Move (lists_circuit circuit.now) }
{
    circuit.properties.constraints.is_empty() || circuit.properties.bads.len() <= 1
}

/// What an edit makes of a circuit.
pub(crate) fn edited(
    edit: &Edit,
    circuit: CircuitLists,
    limit: usize,
) -> Result<CircuitLists, EditError>
    requires circuit { IsCircuit (lists_circuit circuit) }
    requires plain { IsWritable (lists_circuit circuit) }
    ensures { Edits edit.now limit (lists_circuit circuit) result }
{
    match edit {
        Edit::Refine => refined(&CircuitView::new(&circuit)),
        Edit::Reencode => reencoded(&CircuitView::new(&circuit)),
        Edit::Unroll(k) if !is_within(&circuit, *k, limit) => Err(EditError::PassesLimit),
        Edit::Unroll(k) => unrolled(&CircuitView::new(&circuit), *k),
        Edit::Move if !is_joined(&circuit) => Err(EditError::ManyBads),
        Edit::Move => moved(&CircuitView::new(&circuit)),
        Edit::Compress => compressed(circuit),
        Edit::Bads if !circuit.properties.bads.is_empty() => Err(EditError::HasBads),
        Edit::Bads => with_outputs_as_bads(circuit),
        Edit::Property(n) if *n >= circuit.properties.bads.len() => Err(EditError::NoBad),
        Edit::Property(n) => {
            let bad = circuit.properties.bads[*n];
            property(circuit, *n, bad)
        }
        Edit::Possible => possible(circuit),
        Edit::Cone(n) if *n >= circuit.properties.outputs.len() => Err(EditError::NoOutput),
        Edit::Cone(n) => {
            let output = circuit.properties.outputs[*n];
            cone(circuit, *n, output)
        }
    }
}

//! Printing what is made of one file, and reading it as lists.

ghost use Rattle.std.specs.Prelude.{◌≡◌, ◌≤◌, ◌^◌, ℕ, IfOk};
ghost use Rattle.aig_circuit.specs.Circuit.{Circuit, IsCircuit};
ghost use Rattle.aig_circuit.specs.View.{lists_circuit};
ghost use Rattle.aig_format.specs.Circuit.{IsReadAgain, circuit_of, file_of};
ghost use Rattle.aig_format.specs.declared.FileKind.TheVariants.{Text};
ghost use Rattle.aig_format.specs.File.{File};
ghost use Rattle.aig_format.specs.Fits.{Fits};
ghost use Rattle.aig_format.specs.Writable.{FitsFormat, IsWritable};
ghost use Rattle.aig_reader.specs.Reading.{AreListsOf};
ghost use Rattle.aig_reader.specs.Verdicts.{Accepted, verdict_by};
ghost use Rattle.aig_edits.specs.declared.editing.Edit.{Edit};
ghost use Rattle.aig_edit_laws.specs.Reduction.{HaveSameWitnesses};
ghost use Rattle.aig_edits.specs.Edits.{AreAsSafe, CanEdit, EditShows, GivesEdit, IsEditOwn, IsEditUnwritten, IsEdited, PrintsEdit, ReadsFile, edit_verdict};
ghost use Rattle.aig_edits.specs.EditParts.{MakesEdit};

use crate::edit_error::EditError;
use crate::editing::{Edit, edited};
use crate::format::fits_format;
use aig_base::{Sink, Source};
use aig_circuit::{CircuitLists, CircuitView};
use aig_cone::{refining_is_circuit, refining_keeps_runs};
use aig_edit_laws::{
    always_bad_runs_are_runs, changed_circuits_keep_witnesses, cones_show_their_output,
    outputs_become_bads, properties_show_their_bad, runs_keep_witnesses,
    shown_runs_are_machine_runs, unrolled_witnesses_are_runs, written_circuits_have_outputs,
    written_circuits_have_witnesses,
};
use aig_format_laws::{files_are_circuits, written_is_read};
use aig_reader::read;
use aig_renumber::reencoding_keeps_runs;
use aig_runs::safe_circuits_are_safe_machines;
use aig_writer::write_text;
use std::alloc::Global;

/// Law: the machine of a file that is read again as a circuit is as safe as that of a file whose circuit has the same witnesses.
pub(crate) fn same_witnesses_are_as_safe()
    ensures { (f : File) (limit : ℕ) (m : Circuit) → Fits f limit → IsReadAgain m (file_of Text m)
        → HaveSameWitnesses (circuit_of f) m → AreAsSafe f (file_of Text m) }
{
    safe_circuits_are_safe_machines();
    written_circuits_have_witnesses();
}

/// Law: the machine of a file that is read again as an edited circuit shows what the edit says.
fn edited_files_show()
    ensures { (edit : Edit) (f : File) (limit : ℕ) (m : Circuit) → Fits f limit
        → CanEdit edit f → IsEdited edit (circuit_of f) m → IsReadAgain m (file_of Text m)
        → EditShows edit f (file_of Text m) }
{
    files_are_circuits();
    same_witnesses_are_as_safe();
    refining_is_circuit();
    refining_keeps_runs();
    reencoding_keeps_runs();
    runs_keep_witnesses();
    changed_circuits_keep_witnesses();
    unrolled_witnesses_are_runs();
    outputs_become_bads();
    properties_show_their_bad();
    always_bad_runs_are_runs();
    cones_show_their_output();
    shown_runs_are_machine_runs();
    written_circuits_have_witnesses();
    written_circuits_have_outputs();
}

/// What an edit makes of a circuit, if it fits the format.
fn fitting(edit: &Edit, circuit: CircuitLists, limit: usize) -> Result<CircuitLists, EditError>
    requires circuit { IsCircuit (lists_circuit circuit) }
    requires plain { IsWritable (lists_circuit circuit) }
    ensures { MakesEdit edit.now limit (lists_circuit circuit) result }
{
    written_is_read();
    let made = edited(edit, circuit, limit)?;
    if !fits_format(&CircuitView::new(&made)) {
        return Err(EditError::TooLarge);
    }
    Ok(made)
}

/// What an edit makes of a circuit, if its text is a file.
fn edited_file_of(
    edit: &Edit,
    circuit: CircuitLists,
    limit: usize,
) -> Result<CircuitLists, EditError>
    requires circuit { IsCircuit (lists_circuit circuit) }
    requires plain { IsWritable (lists_circuit circuit) }
    ensures gives { (f : File) (bound : ℕ) → Fits f bound → AreListsOf f circuit
        → GivesEdit edit.now limit f result }
    ensures circuit { IfOk result (λ lists. IsCircuit (lists_circuit lists)) }
    ensures small { IfOk result (λ lists. FitsFormat (lists_circuit lists)) }
    ensures never_read { verdict_by edit_verdict result ≡ Accepted }
{
    edited_files_show();
    fitting(edit, circuit, limit)
}

/// Writes the text form of the circuit that an edit makes of this one to `w`. It doesn't flush `w`. Requires a circuit with a written
/// form.
///
/// # Errors
///
/// Those of `print_edit` but `Read`.
pub fn write_edit<W: Sink>(
    edit: &Edit,
    circuit: CircuitLists,
    limit: usize,
    w: &mut W,
) -> Result<(), EditError>
    requires circuit { IsCircuit (lists_circuit circuit) }
    requires plain { IsWritable (lists_circuit circuit) }
    // Of each file whose circuit it is, what is written is the text form of the edited circuit.
    ensures prints { (f : File) (bound : ℕ) → Fits f bound → AreListsOf f circuit
        → PrintsEdit W.held W.failed edit.now limit w.old w.new f result }
    ensures never_read { verdict_by edit_verdict result ≡ Accepted }
    ensures kept { IsEditUnwritten result → w.new ≡ w.old }
{
    let made = edited_file_of(edit, circuit, limit)?;
    Ok(write_text(w, &CircuitView::new(&made))?)
}

/// Reads a file in the AIGER format, and writes the text form of the circuit that an edit makes of its circuit to `w`. It doesn't
/// flush `w`.
///
/// # Requirements
///
/// - `1 <= limit <= 2^31`.
///
/// # Errors
///
/// After `Write` a beginning of the text was written. Every other refusal leaves the writer as it was.
///
/// - `Read`: the file is refused.
/// - `ManyBads`: constraints would be joined to the first bad literal, and the file has a constraint and more than one bad literal.
/// - `HasBads`: outputs would become bad literals, and the file has some.
/// - `NoBad`: the file has no bad literal of the number that is asked for.
/// - `NoOutput`: the file has no output of the number whose cone is asked for.
/// - `PassesLimit`: `n + k * (n - 1 - l)` passes `limit`, for `k` further steps of the `n` nodes and `l` latches of the circuit.
/// - `TooLarge`: the circuit that was made has more than 2^31 nodes, or more than 2^32 - 1 entries in a list or a justice set.
/// - `Memory`: memory was refused after the reading.
/// - `Write`: the writer failed in this call.
pub fn print_edit<R: Source, W: Sink>(
    alloc: Global,
    edit: &Edit,
    r: &mut R,
    limit: usize,
    w: &mut W,
) -> Result<(), EditError>
    requires some { 1 ≤ limit }
    requires few { limit ≤ 2 ^ 31 }
    // The bytes that were read are a file, and what is written is the text form of the edited circuit.
    ensures reads { ReadsFile R.left R.failed limit
        (PrintsEdit W.held W.failed edit.now limit w.old w.new) edit_verdict IsEditOwn r.old result
        r.new }
    ensures kept { IsEditUnwritten result → w.new ≡ w.old }
{
    files_are_circuits();
    let lists = read(alloc, r, limit)?;
    write_edit(edit, lists, limit, w)
}

/// Reads a file in the AIGER format, and makes the lists of the circuit that an edit makes of its circuit. Requires
/// `1 <= limit <= 2^31`.
///
/// # Errors
///
/// Those of `print_edit` but `Write`.
pub fn read_edit<R: Source>(
    alloc: Global,
    edit: &Edit,
    r: &mut R,
    limit: usize,
) -> Result<CircuitLists, EditError>
    requires some { 1 ≤ limit }
    requires few { limit ≤ 2 ^ 31 }
    // The bytes that were read are a file, and the lists are those of the edited circuit.
    ensures reads { ReadsFile R.left R.failed limit (GivesEdit edit.now limit) edit_verdict
        IsEditOwn r.old result r.new }
    ensures circuit { IfOk result (λ lists. IsCircuit (lists_circuit lists)) }
{
    files_are_circuits();
    let lists = read(alloc, r, limit)?;
    edited_file_of(edit, lists, limit)
}

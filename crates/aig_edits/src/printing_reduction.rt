//! Printing what of one file its query needs.

ghost use Rattle.std.specs.Prelude.{◌≡◌, ◌≤◌, ◌^◌, ℕ};
ghost use Rattle.aig_circuit.specs.Circuit.{Circuit, IsCircuit};
ghost use Rattle.aig_format.specs.Circuit.{circuit_of};
ghost use Rattle.aig_format.specs.File.{File};
ghost use Rattle.aig_format.specs.Fits.{Fits};
ghost use Rattle.aig_format.specs.Writable.{AreTexts, IsWritable};
ghost use Rattle.aig_edit_laws.specs.Reduction.{IsReduced};
ghost use Rattle.aig_reader.specs.Verdicts.{Accepted, verdict_by};
ghost use Rattle.aig_edits.specs.Edits.{IsEditOwn, IsEditUnwritten, ReadsFile, edit_verdict};
ghost use Rattle.aig_edits.specs.Reductions.{IsReductionOf, PrintsReduction};

use crate::edit_error::EditError;
use crate::printing_edits::same_witnesses_are_as_safe;
use crate::reducing::reduced;
use aig_base::{Sink, Source};
use aig_circuit::CircuitView;
use aig_edit_laws::reductions_are_writable;
use aig_format_laws::{files_are_circuits, written_is_read};
use aig_writer::write_text;
use std::alloc::Global;

/// Law: the text of a reduction of a file's circuit is a file, which is as safe.
fn reductions_show()
    ensures { (f : File) (limit : ℕ) (m : Circuit) → Fits f limit → IsWritable (circuit_of f)
        → IsCircuit m → AreTexts m.names → IsReduced (circuit_of f) m → IsReductionOf f m }
{
    files_are_circuits();
    reductions_are_writable();
    written_is_read();
    same_witnesses_are_as_safe();
}

/// Writes the text form of what of a circuit its query needs to `w`, as `print_reduction` does. It doesn't flush `w`. Requires a
/// circuit with a written form.
///
/// # Errors
///
/// Those of `print_reduction` but `Read`.
pub fn write_reduction<W: Sink>(
    alloc: Global,
    circuit: &CircuitView<'_>,
    w: &mut W,
) -> Result<(), EditError>
    requires { IsWritable circuit.now }
    // Of each file whose circuit it is, what is written is the text form of its reduction.
    ensures prints { (f : File) (bound : ℕ) → Fits f bound → circuit.now ≡ circuit_of f
        → PrintsReduction W.held W.failed w.old w.new f result }
    ensures never_read { verdict_by edit_verdict result ≡ Accepted }
    ensures kept { IsEditUnwritten result → w.new ≡ w.old }
{
    reductions_show();
    let made = reduced(alloc, circuit)?;
    Ok(write_text(w, &CircuitView::new(&made))?)
}

/// Reads a file in the AIGER format, and writes the text form of what its query needs to `w`: no outputs, justice or
/// fairness, and of the latches those alone that the bad literals, the constraints and the starts reach. Gates whose trees
/// are equal are one. It doesn't flush `w`. Requires `1 <= limit <= 2^31`.
///
/// # Errors
///
/// After `Write` a beginning of the text was written. Every other refusal leaves the writer as it was.
///
/// - `Read`: the file is refused.
/// - `Memory`: memory was refused after the reading.
/// - `Write`: the writer failed in this call.
pub fn print_reduction<R: Source, W: Sink>(
    alloc: Global,
    r: &mut R,
    limit: usize,
    w: &mut W,
) -> Result<(), EditError>
    requires some { 1 ≤ limit }
    requires few { limit ≤ 2 ^ 31 }
    // The bytes that were read are a file, and what is written is the text form of its reduction.
    ensures reads { ReadsFile R.left R.failed limit
        (PrintsReduction W.held W.failed w.old w.new) edit_verdict IsEditOwn r.old result r.new }
    ensures kept { IsEditUnwritten result → w.new ≡ w.old }
{
    files_are_circuits();
    let lists = aig_reader::read(alloc, r, limit)?;
    write_reduction(alloc, &CircuitView::new(&lists), w)
}

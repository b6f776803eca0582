//! Printing the question of a bounded check of one file.

ghost use Rattle.std.specs.Prelude.{◌≡◌, ◌≢◌, ◌≤◌, ◌↔◌, ◌^◌, ℕ, [], All, length};
ghost use Rattle.aig_circuit.specs.Circuit.{Circuit, IsCircuit};
ghost use Rattle.aig_circuit.specs.Edges.{HasConstantInit};
ghost use Rattle.aig_circuit.specs.View.{lists_circuit};
ghost use Rattle.aig_format.specs.Circuit.{circuit_of};
ghost use Rattle.aig_format.specs.File.{File};
ghost use Rattle.aig_format.specs.Fits.{Fits};
ghost use Rattle.aig_reader.specs.Verdicts.{Accepted, verdict_by};
ghost use Rattle.aig_edits.specs.Edits.{IsEditOwn, IsEditUnwritten, ReadsFile, edit_verdict};
ghost use Rattle.aig_edits.specs.Questions.{IsQuestionOf, PrintsQuestion};
ghost use Rattle.aig_edits.specs.QuestionParts.{AsksOf, IsPlainQuestion, unnamed};

use crate::edit_error::EditError;
use aig_base::{Sink, Source};
use aig_bounded::{bounded_question, questions_ask_for_witnesses};
use aig_circuit::{CircuitLists, CircuitView};
use aig_edit_laws::{shown_runs_are_machine_runs, written_circuits_have_outputs};
use aig_format_laws::{files_are_circuits, written_is_read};
use aig_writer::write_text;
use std::alloc::Global;
use std::collections::HashMap;

/// Law: the text of a question of a file's circuit is a file, which shows what it should.
fn questions_show()
    ensures { (k limit bound : ℕ) (f : File) (m : Circuit) → limit ≤ 2 ^ 31 → Fits f bound
        → IsPlainQuestion k limit (circuit_of f) m → IsQuestionOf k limit f m }
{
    files_are_circuits();
    written_is_read();
    questions_ask_for_witnesses();
    shown_runs_are_machine_runs();
    written_circuits_have_outputs();
}

/// The lists without names.
fn without_names(alloc: Global, mut lists: CircuitLists) -> CircuitLists
    ensures { lists_circuit result ≡ unnamed (lists_circuit lists) }
{
    lists.names = HashMap::new(alloc);
    lists
}

/// The question of a circuit, which has a bad edge.
fn asked(
    alloc: Global,
    circuit: &CircuitView<'_>,
    k: usize,
    limit: usize,
) -> Result<CircuitLists, EditError>
    requires starts { All HasConstantInit circuit.now.latchs }
    requires bads { circuit.now.properties.bads ≢ [] }
    requires some { 1 ≤ limit }
    requires few { limit ≤ 2 ^ 31 }
    ensures { AsksOf k limit circuit.now result }
{
    let question = bounded_question(alloc, circuit, k, limit)?;
    Ok(without_names(alloc, question.circuit))
}

/// The question of a circuit, unless nothing is asked of it.
fn question_of(
    alloc: Global,
    circuit: &CircuitView<'_>,
    k: usize,
    limit: usize,
) -> Result<CircuitLists, EditError>
    requires starts { All HasConstantInit circuit.now.latchs }
    requires some { 1 ≤ limit }
    requires few { limit ≤ 2 ^ 31 }
    ensures { AsksOf k limit circuit.now result }
{
    if circuit.bads().is_empty() {
        return Err(EditError::NoBads);
    }
    asked(alloc, circuit, k, limit)
}

/// Writes the text form of the question of a bounded check of a circuit to `w`, as `print_question` does. It doesn't flush `w`.
/// Requires initial edges that are constant, and `1 <= limit <= 2^31`.
///
/// # Errors
///
/// Those of `print_question` but `Read`.
pub fn write_question<W: Sink>(
    alloc: Global,
    k: usize,
    circuit: &CircuitView<'_>,
    limit: usize,
    w: &mut W,
) -> Result<(), EditError>
    requires starts { All HasConstantInit circuit.now.latchs }
    requires some { 1 ≤ limit }
    requires few { limit ≤ 2 ^ 31 }
    // Of each file whose circuit it is, what is written is the text form of its question.
    ensures prints { (f : File) (bound : ℕ) → Fits f bound → circuit.now ≡ circuit_of f
        → PrintsQuestion W.held W.failed k limit w.old w.new f result }
    ensures never_read { verdict_by edit_verdict result ≡ Accepted }
    ensures kept { IsEditUnwritten result → w.new ≡ w.old }
{
    questions_show();
    let made = question_of(alloc, circuit, k, limit)?;
    Ok(write_text(w, &CircuitView::new(&made))?)
}

/// Reads a file in the AIGER format, and writes the text form of the question of a bounded check of it to `w`: a circuit
/// without latches and with one output, which can be true exactly where a bad state is reached at a step from 0 to `k` by a
/// run from an initial state that meets the constraints up to there (`bounded_question` of the crate `aig_bounded`). It doesn't
/// flush `w`. Requires `1 <= limit <= 2^31`.
///
/// # Errors
///
/// After `Write` a beginning of the text was written. Every other refusal leaves the writer as it was.
///
/// - `Read`: the file is refused.
/// - `NoBads`: the file has no bad literal.
/// - `QuestionTooLarge`: the question has more than `limit` nodes while it is made. Never where the bound `question_size` of
///   `aig_bounded` is within the limit.
/// - `Memory`: memory was refused after the reading.
/// - `Write`: the writer failed in this call.
pub fn print_question<R: Source, W: Sink>(
    alloc: Global,
    k: usize,
    r: &mut R,
    limit: usize,
    w: &mut W,
) -> Result<(), EditError>
    requires some { 1 ≤ limit }
    requires few { limit ≤ 2 ^ 31 }
    // The bytes that were read are a file, and what is written is the text form of its question.
    ensures reads { ReadsFile R.left R.failed limit
        (PrintsQuestion W.held W.failed k limit w.old w.new) edit_verdict IsEditOwn r.old result
        r.new }
    ensures kept { IsEditUnwritten result → w.new ≡ w.old }
{
    let lists = aig_reader::read(alloc, r, limit)?;
    write_question(alloc, k, &CircuitView::new(&lists), limit, w)
}

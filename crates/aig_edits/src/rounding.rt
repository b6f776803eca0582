//! The file whose bad states are rounds of one file: its circuit, and printing it.

ghost use Rattle.std.specs.Prelude.{◌≡◌, ◌≤◌, ◌^◌, ◌↔◌, ℕ, IfOk, IsTrue};
ghost use Rattle.aig_circuit.specs.Circuit.{Circuit, IsCircuit};
ghost use Rattle.aig_circuit.specs.View.{lists_circuit};
ghost use Rattle.aig_edit_laws.specs.declared.fairness.Fairness.{Fairness};
ghost use Rattle.aig_format.specs.Circuit.{circuit_of};
ghost use Rattle.aig_format.specs.File.{File};
ghost use Rattle.aig_format.specs.Fits.{Fits};
ghost use Rattle.aig_format.specs.Writable.{IsWritable};
ghost use Rattle.aig_live.specs.Rounds.{rounds_size};
ghost use Rattle.aig_reader.specs.Verdicts.{Accepted, verdict_by};
ghost use Rattle.aig_edits.specs.Edits.{IsEditOwn, IsEditUnwritten, ReadsFile, edit_verdict};
ghost use Rattle.aig_edits.specs.Rounds.{GivesRounds, IsRoundsFile, PrintsRounds};
ghost use Rattle.aig_edits.specs.RoundsParts.{IsRoundsCircuit, MakesRounds};

use crate::edit_error::EditError;
use crate::format::MOST_NODES;
use crate::living::asked_edges;
use aig_base::{Sink, Source};
use aig_circuit::{CircuitLists, CircuitView};
use aig_edit_laws::{Fairness, small_rounds_circuits_fit, written_rounds_circuits_show_rounds};
use aig_format_laws::files_are_circuits;
use aig_live::{rounds, rounds_circuits_are_circuits};
use aig_writer::write_text;
use std::alloc::Global;

/// Law: the text of the circuit that counts rounds of a file's circuit is a file, which shows the rounds.
fn rounds_files_show()
    ensures { (fairness : Fairness) (count limit : ℕ) (f : File) (m : Circuit) → Fits f limit
        → IsWritable (circuit_of f) → IsRoundsCircuit fairness count (circuit_of f) m
        → IsRoundsFile fairness count f m }
{
    files_are_circuits();
    small_rounds_circuits_fit();
    written_rounds_circuits_show_rounds();
}

/// Whether the circuit that counts so many rounds of so many edges has at most 2^31 nodes, by the bound of its size.
fn is_within(circuit: &CircuitView<'_>, edges: usize, count: usize) -> bool
    ensures { IsTrue result ↔ (rounds_size circuit.now edges count ≤ 2 ^ 31) }
{
    let nodes = circuit.nodes().len();
    if nodes > MOST_NODES || edges > MOST_NODES || count > MOST_NODES {
        return false;
    }
    nodes + 5 * edges + 3 * count <= MOST_NODES
}

/// The circuit that counts rounds of these edges, if there is such a justice property and the circuit isn't too large.
fn rounds_of(
    alloc: Global,
    circuit: &CircuitView<'_>,
    fairness: Fairness,
    count: usize,
) -> Result<CircuitLists, EditError>
    ensures { MakesRounds fairness count circuit.now result }
{
    let edges = asked_edges(alloc, circuit, fairness)?;
    if !is_within(circuit, edges.len(), count) {
        return Err(EditError::TooLarge);
    }
    Ok(rounds(circuit, &edges, count)?)
}

/// The circuit that counts rounds of a circuit with a written form, if there is one and it isn't too large.
fn rounds_file_of(
    alloc: Global,
    circuit: &CircuitView<'_>,
    fairness: Fairness,
    count: usize,
) -> Result<CircuitLists, EditError>
    requires { IsWritable circuit.now }
    ensures gives { (f : File) (bound : ℕ) → Fits f bound → circuit.now ≡ circuit_of f
        → GivesRounds fairness count f result }
    ensures circuit { IfOk result (λ lists. IsCircuit (lists_circuit lists)) }
    ensures never_read { verdict_by edit_verdict result ≡ Accepted }
{
    rounds_circuits_are_circuits();
    rounds_files_show();
    let _nodes = circuit.nodes();
    rounds_of(alloc, circuit, fairness, count)
}

/// Writes the text form of the circuit that counts rounds of a circuit to `w`, as `print_rounds` does. It doesn't flush `w`. Requires
/// a circuit with a written form.
///
/// # Errors
///
/// Those of `print_rounds` but `Read`.
pub fn write_rounds<W: Sink>(
    alloc: Global,
    fairness: Fairness,
    count: usize,
    circuit: &CircuitView<'_>,
    w: &mut W,
) -> Result<(), EditError>
    requires { IsWritable circuit.now }
    // Of each file whose circuit it is, what is written is the text form of the circuit that counts its rounds.
    ensures prints { (f : File) (bound : ℕ) → Fits f bound → circuit.now ≡ circuit_of f
        → PrintsRounds W.held W.failed fairness count w.old w.new f result }
    ensures never_read { verdict_by edit_verdict result ≡ Accepted }
    ensures kept { IsEditUnwritten result → w.new ≡ w.old }
{
    let made = rounds_file_of(alloc, circuit, fairness, count)?;
    Ok(write_text(w, &CircuitView::new(&made))?)
}

/// Reads a file in the AIGER format, and writes the text form of a circuit that counts `count` rounds to `w` (k-liveness): in a
/// round each literal that `fairness` asks for is true, and its bad state is reached at a step exactly where so many rounds ended by
/// then. Where that is never, there is no fair run. Names stay, and what is added has its own: the latches `met 0` and so on for the
/// edges that are asked for, and `round 1` and so on for the rounds. It doesn't flush `w`. Requires `1 <= limit <= 2^31`.
///
/// # Errors
///
/// After `Write` a beginning of the text was written. Every other refusal leaves the writer as it was.
///
/// - `Read`: the file is refused.
/// - `NoJustice`: the file has no justice property of this number.
/// - `TooLarge`: `n + 5 * e + 3 * count` passes 2^31, for the `n` nodes of the circuit and the `e` edges that are asked for.
/// - `Memory`: memory was refused after the reading.
/// - `Write`: the writer failed in this call.
pub fn print_rounds<R: Source, W: Sink>(
    alloc: Global,
    fairness: Fairness,
    count: usize,
    r: &mut R,
    limit: usize,
    w: &mut W,
) -> Result<(), EditError>
    requires some { 1 ≤ limit }
    requires few { limit ≤ 2 ^ 31 }
    // The bytes that were read are a file, and what is written is the text form of the circuit that counts its rounds.
    ensures reads { ReadsFile R.left R.failed limit
        (PrintsRounds W.held W.failed fairness count w.old w.new) edit_verdict IsEditOwn r.old
        result r.new }
    ensures kept { IsEditUnwritten result → w.new ≡ w.old }
{
    files_are_circuits();
    let lists = aig_reader::read(alloc, r, limit)?;
    write_rounds(alloc, fairness, count, &CircuitView::new(&lists), w)
}

/// Reads a file in the AIGER format, and makes the lists of the circuit that counts `count` rounds. Requires `1 <= limit <= 2^31`.
///
/// # Errors
///
/// Those of `print_rounds` but `Write`.
pub fn read_rounds<R: Source>(
    alloc: Global,
    fairness: Fairness,
    count: usize,
    r: &mut R,
    limit: usize,
) -> Result<CircuitLists, EditError>
    requires some { 1 ≤ limit }
    requires few { limit ≤ 2 ^ 31 }
    // The bytes that were read are a file, and the lists are those of the circuit that counts its rounds.
    ensures reads { ReadsFile R.left R.failed limit (GivesRounds fairness count) edit_verdict
        IsEditOwn r.old result r.new }
    ensures circuit { IfOk result (λ lists. IsCircuit (lists_circuit lists)) }
{
    files_are_circuits();
    let lists = aig_reader::read(alloc, r, limit)?;
    rounds_file_of(alloc, &CircuitView::new(&lists), fairness, count)
}

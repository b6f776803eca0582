//! The file whose bad states are the fair lassos of one file: its circuit, and printing it.

ghost use Rattle.std.specs.Prelude.{◌≡◌, ◌≤◌, ◌^◌, ◌↔◌, ◌++◌, ℕ, All, IsTrue, IfErr, IfOk, Some};
ghost use Rattle.aig_circuit.specs.Circuit.{Circuit, IsCircuit, IsInRange};
ghost use Rattle.aig_circuit.specs.View.{lists_circuit};
ghost use Rattle.aig_edit_laws.specs.Fair.{AreAsked, own_of};
ghost use Rattle.aig_edit_laws.specs.declared.fairness.Fairness.{Fairness};
ghost use Rattle.aig_format.specs.Circuit.{circuit_of};
ghost use Rattle.aig_format.specs.File.{File};
ghost use Rattle.aig_format.specs.Fits.{Fits};
ghost use Rattle.aig_format.specs.Writable.{IsWritable};
ghost use Rattle.aig_live.specs.Live.{live_size};
ghost use Rattle.aig_reader.specs.Verdicts.{Accepted, verdict_by};
ghost use Rattle.aig_edits.specs.Edits.{IsEditOwn, IsEditUnwritten, ReadsFile, edit_verdict};
ghost use Rattle.aig_edits.specs.LiveParts.{IsLiveCircuit, MakesLive};
ghost use Rattle.aig_edits.specs.Lives.{GivesLive, IsLiveFile, IsUnasked, PrintsLive};

use crate::edit_error::EditError;
use crate::format::MOST_NODES;
use aig_base::{MemoryError, Sink, Source};
use aig_circuit::{AigEdge, CircuitLists, CircuitView};
use aig_edit_laws::{Fairness, small_live_circuits_fit, written_live_circuits_show_lassos};
use aig_format_laws::files_are_circuits;
use aig_live::{live, live_circuits_are_circuits};
use aig_writer::write_text;
use std::alloc::Global;

/// Law: the text of the live circuit of a file's circuit is a file, which shows the fair lassos.
fn live_files_show()
    ensures { (fairness : Fairness) (limit : ℕ) (f : File) (m : Circuit) → Fits f limit
        → IsWritable (circuit_of f) → IsLiveCircuit fairness (circuit_of f) m
        → IsLiveFile fairness f m }
{
    files_are_circuits();
    small_live_circuits_fit();
    written_live_circuits_show_lassos();
}

/// Whether the live circuit for so many edges has at most 2^31 nodes, by the bound of its size.
fn is_small(circuit: &CircuitView<'_>, count: usize) -> bool
    ensures { IsTrue result ↔ (live_size circuit.now count ≤ 2 ^ 31) }
{
    let nodes = circuit.nodes().len();
    let latches = circuit.latchs().len();
    if nodes > MOST_NODES || latches > MOST_NODES || count > MOST_NODES {
        return false;
    }
    nodes + 3 + 8 * latches + 4 * count <= MOST_NODES
}

/// The own edges that `fairness` asks for: those of the justice property, if there is such a one.
fn own_edges<'a>(circuit: &CircuitView<'a>, fairness: Fairness) -> Result<&'a [AigEdge], EditError>
    ensures made { IfOk result (λ own. own_of circuit.now.properties fairness ≡ Some own.now) }
    ensures none { IfErr result (IsUnasked circuit.now.properties fairness) }
{
    let Fairness::Justice(j) = fairness else {
        return Ok(&[]);
    };
    let sets = circuit.justice();
    if j >= sets.len() {
        return Err(EditError::NoJustice);
    }
    Ok(&sets[j])
}

/// The edges of both lists.
fn joined(alloc: Global, first: &[AigEdge], second: &[AigEdge]) -> Result<Vec<AigEdge>, MemoryError>
    ensures { IfOk result (λ edges. edges.items ≡ first.now ++ second.now) }
{
    let mut edges = Vec::new(alloc);
    edges.extend_from_slice(first)?;
    edges.extend_from_slice(second)?;
    Ok(edges)
}

/// The edges that `fairness` asks for again and again: its own, and those of fairness.
pub(crate) fn asked_edges(
    alloc: Global,
    circuit: &CircuitView<'_>,
    fairness: Fairness,
) -> Result<Vec<AigEdge>, EditError>
    ensures made { IfOk result (λ edges. AreAsked circuit.now.properties fairness edges.items) }
    ensures there { IfOk result (λ edges. All (IsInRange circuit.now.nodes) edges.items) }
    ensures none { IfErr result (IsUnasked circuit.now.properties fairness) }
{
    let own = own_edges(circuit, fairness)?;
    Ok(joined(alloc, own, circuit.fairness())?)
}

/// The live circuit of these edges, if there is such a justice property and the circuit isn't too large.
fn live_of(
    alloc: Global,
    circuit: &CircuitView<'_>,
    fairness: Fairness,
) -> Result<CircuitLists, EditError>
    ensures { MakesLive fairness circuit.now result }
{
    let edges = asked_edges(alloc, circuit, fairness)?;
    if !is_small(circuit, edges.len()) {
        return Err(EditError::TooLarge);
    }
    Ok(live(circuit, &edges)?)
}

/// The live circuit of a circuit with a written form, if there is one and it isn't too large.
fn live_file_of(
    alloc: Global,
    circuit: &CircuitView<'_>,
    fairness: Fairness,
) -> Result<CircuitLists, EditError>
    requires { IsWritable circuit.now }
    ensures gives { (f : File) (bound : ℕ) → Fits f bound → circuit.now ≡ circuit_of f
        → GivesLive fairness f result }
    ensures circuit { IfOk result (λ lists. IsCircuit (lists_circuit lists)) }
    ensures never_read { verdict_by edit_verdict result ≡ Accepted }
{
    live_circuits_are_circuits();
    live_files_show();
    let _nodes = circuit.nodes();
    live_of(alloc, circuit, fairness)
}

/// Writes the text form of the live circuit of a circuit to `w`, as `print_live` does. It doesn't flush `w`. Requires a circuit with a
/// written form.
///
/// # Errors
///
/// Those of `print_live` but `Read`.
pub fn write_live<W: Sink>(
    alloc: Global,
    fairness: Fairness,
    circuit: &CircuitView<'_>,
    w: &mut W,
) -> Result<(), EditError>
    requires { IsWritable circuit.now }
    // Of each file whose circuit it is, what is written is the text form of its live circuit.
    ensures prints { (f : File) (bound : ℕ) → Fits f bound → circuit.now ≡ circuit_of f
        → PrintsLive W.held W.failed fairness w.old w.new f result }
    ensures never_read { verdict_by edit_verdict result ≡ Accepted }
    ensures kept { IsEditUnwritten result → w.new ≡ w.old }
{
    let made = live_file_of(alloc, circuit, fairness)?;
    Ok(write_text(w, &CircuitView::new(&made))?)
}

/// Reads a file in the AIGER format, and writes the text form of its live circuit to `w`: its bad state is reached at a step
/// exactly where a fair lasso ends there (liveness to safety): each literal that `fairness` asks for is true in its loop. Names
/// stay, and what is added has its own: the input `save`, and the latches `saved`, `saved X` for each latch named X, and `seen 0`
/// and so on for the edges that are asked for. It doesn't flush `w`. Requires `1 <= limit <= 2^31`.
///
/// # Errors
///
/// After `Write` a beginning of the text was written. Every other refusal leaves the writer as it was.
///
/// - `Read`: the file is refused.
/// - `NoJustice`: the file has no justice property of this number.
/// - `TooLarge`: `n + 3 + 8 * l + 4 * e` passes 2^31, for the `n` nodes and `l` latches of the circuit and the `e` edges that are
///   asked for.
/// - `Memory`: memory was refused after the reading.
/// - `Write`: the writer failed in this call.
pub fn print_live<R: Source, W: Sink>(
    alloc: Global,
    fairness: Fairness,
    r: &mut R,
    limit: usize,
    w: &mut W,
) -> Result<(), EditError>
    requires some { 1 ≤ limit }
    requires few { limit ≤ 2 ^ 31 }
    // The bytes that were read are a file, and what is written is the text form of its live circuit.
    ensures reads { ReadsFile R.left R.failed limit
        (PrintsLive W.held W.failed fairness w.old w.new) edit_verdict IsEditOwn r.old result
        r.new }
    ensures kept { IsEditUnwritten result → w.new ≡ w.old }
{
    files_are_circuits();
    let lists = aig_reader::read(alloc, r, limit)?;
    write_live(alloc, fairness, &CircuitView::new(&lists), w)
}

/// Reads a file in the AIGER format, and makes the lists of its live circuit. Requires `1 <= limit <= 2^31`.
///
/// # Errors
///
/// Those of `print_live` but `Write`.
pub fn read_live<R: Source>(
    alloc: Global,
    fairness: Fairness,
    r: &mut R,
    limit: usize,
) -> Result<CircuitLists, EditError>
    requires some { 1 ≤ limit }
    requires few { limit ≤ 2 ^ 31 }
    // The bytes that were read are a file, and the lists are those of its live circuit.
    ensures reads { ReadsFile R.left R.failed limit (GivesLive fairness) edit_verdict IsEditOwn
        r.old result r.new }
    ensures circuit { IfOk result (λ lists. IsCircuit (lists_circuit lists)) }
{
    files_are_circuits();
    let lists = aig_reader::read(alloc, r, limit)?;
    live_file_of(alloc, &CircuitView::new(&lists), fairness)
}

//! Printing the counts of one file.

ghost use Rattle.std.specs.Prelude.{◌≡◌, ◌<◌, ◌≤◌, ◌^◌, ℕ, IfOk, count_by, length};
ghost use Rattle.aig_circuit.specs.Circuit.{AreNodes};
ghost use Rattle.aig_circuit.specs.Node.{is_gate};
ghost use Rattle.aig_format.specs.Circuit.{circuit_of};
ghost use Rattle.aig_format.specs.File.{File};
ghost use Rattle.aig_output.specs.Sinks.{BuffersOrStops, WritesOrStops};
ghost use Rattle.aig_reader.specs.Verdicts.{Accepted, verdict_by};
ghost use Rattle.aig_edits.specs.Edits.{IsEditOwn, IsEditUnwritten, ReadsFile, edit_verdict};
ghost use Rattle.aig_edits.specs.Info.{IsDepth, PrintsInfo, count_line, counts_of, info_text};
ghost use Rattle.aig_edits.specs.Levels.{AreLevels, IsLevel};

use crate::edit_error::EditError;
use aig_base::{MemoryError, Sink, Source, StreamFault};
use aig_circuit::{AigNode, AigNodeType, CircuitView};
use aig_output::OutputBuffer;
use std::alloc::Global;

/// How many of the nodes are gates.
fn gate_count(nodes: &[AigNode]) -> usize
    ensures { result ≡ count_by (λ node. is_gate node.typ) nodes.now }
{
    nodes
        .iter()
        .filter(|node| matches!(node.typ(), AigNodeType::And(_, _)))
        .count()
}

/// The greatest number of gates on a path to node `n`, by those of the nodes before it.
fn level(nodes: &[AigNode], n: usize, levels: &[usize]) -> usize
    requires nodes { AreNodes nodes.now }
    requires there { n < length nodes.now }
    requires levels { AreLevels nodes.now n levels.now }
    ensures { IsLevel nodes.now n result }
{
    match *nodes[n].typ() {
        AigNodeType::And(fanin0, fanin1) => {
            let first = levels[fanin0.node_id()];
            let second = levels[fanin1.node_id()];
            if first < second {
                second + 1
            } else {
                first + 1
            }
        }
        AigNodeType::False | AigNodeType::Leaf => 0,
    }
}

/// The greatest number of gates on a path.
fn depth(alloc: Global, nodes: &[AigNode]) -> Result<usize, MemoryError>
    requires { AreNodes nodes.now }
    ensures { IfOk result (IsDepth nodes.now) }
{
    let mut levels = Vec::with_capacity(alloc, nodes.len())?;
    let mut greatest = 0;
    for n in 0..nodes.len() {
        let level = level(nodes, n, &levels);
        levels.push(level)?;
        if greatest < level {
            greatest = level;
        }
    }
    Ok(greatest)
}

/// The counts of a circuit.
#[derive(Clone, Copy)]
pub struct Counts {
    /// Inputs.
    pub inputs: usize,
    /// Latches.
    pub latches: usize,
    /// Outputs.
    pub outputs: usize,
    /// Gates.
    pub gates: usize,
    /// Bad state properties.
    pub bads: usize,
    /// Invariant constraints.
    pub constraints: usize,
    /// Justice properties, a set each.
    pub justice: usize,
    /// Fairness constraints.
    pub fairness: usize,
    /// The greatest number of gates on a path.
    pub levels: usize,
}

/// The counts of a circuit.
fn counts_of(alloc: Global, circuit: &CircuitView<'_>) -> Result<Counts, MemoryError>
    ensures { IfOk result (λ counts. (levels : ℕ) × IsDepth circuit.now.nodes levels
        × (counts ≡ counts_of circuit.now levels)) }
{
    let levels = depth(alloc, circuit.nodes())?;
    Ok(Counts {
        inputs: circuit.inputs().len(),
        latches: circuit.latchs().len(),
        outputs: circuit.outputs().len(),
        gates: gate_count(circuit.nodes()),
        bads: circuit.bads().len(),
        constraints: circuit.constraints().len(),
        justice: circuit.justice().len(),
        fairness: circuit.fairness().len(),
        levels,
    })
}

/// Buffers the line of a count.
fn write_count<W: Sink>(
    buffer: &mut OutputBuffer,
    w: &mut W,
    word: &[u8],
    count: usize,
) -> Result<(), StreamFault>
    ensures { let text = count_line word.now count in
        BuffersOrStops W.held W.failed buffer.old w.old result text buffer.new w.new }
{
    buffer.write_bytes(w, word)?;
    buffer.write_number(w, count, b'\n')
}

/// Buffers the lines of counts.
fn write_lines<W: Sink>(
    buffer: &mut OutputBuffer,
    w: &mut W,
    counts: &Counts,
) -> Result<(), StreamFault>
    ensures { let text = info_text counts.now in
        BuffersOrStops W.held W.failed buffer.old w.old result text buffer.new w.new }
{
    write_count(buffer, w, b"inputs ", counts.inputs)?;
    write_count(buffer, w, b"latches ", counts.latches)?;
    write_count(buffer, w, b"outputs ", counts.outputs)?;
    write_count(buffer, w, b"gates ", counts.gates)?;
    write_count(buffer, w, b"bads ", counts.bads)?;
    write_count(buffer, w, b"constraints ", counts.constraints)?;
    write_count(buffer, w, b"justice ", counts.justice)?;
    write_count(buffer, w, b"fairness ", counts.fairness)?;
    write_count(buffer, w, b"levels ", counts.levels)
}

/// Writes the lines of counts.
fn write_counts<W: Sink>(w: &mut W, counts: &Counts) -> Result<(), StreamFault>
    ensures { WritesOrStops W.held W.failed w.old result (info_text counts.now) w.new }
{
    let mut buffer = OutputBuffer::new();
    write_lines(&mut buffer, w, counts)?;
    buffer.flush(w)
}

/// Writes a line for each of the counts of a circuit to `w`, as `print_info` does. It doesn't flush `w`.
///
/// # Errors
///
/// Those of `print_info` but `Read`.
pub fn write_info<W: Sink>(
    alloc: Global,
    circuit: &CircuitView<'_>,
    w: &mut W,
) -> Result<(), EditError>
    // Of each file whose circuit it is, what is written tells the counts.
    ensures prints { (f : File) → circuit.now ≡ circuit_of f
        → PrintsInfo W.held W.failed w.old w.new f result }
    ensures never_read { verdict_by edit_verdict result ≡ Accepted }
    ensures kept { IsEditUnwritten result → w.new ≡ w.old }
{
    let counts = counts_of(alloc, circuit)?;
    Ok(write_counts(w, &counts)?)
}

/// Reads a file in the AIGER format, and writes a line for each of these counts of its circuit to `w`: inputs, latches, outputs,
/// gates, bad states, constraints, justice properties, fairness constraints, and levels, which is the greatest number of
/// gates on a path. It doesn't flush `w`. Requires `1 <= limit <= 2^31`.
///
/// # Errors
///
/// After `Write` a beginning of the text was written. Every other refusal leaves the writer as it was.
///
/// - `Read`: the file is refused.
/// - `Memory`: memory was refused after the reading.
/// - `Write`: the writer failed in this call.
pub fn print_info<R: Source, W: Sink>(
    alloc: Global,
    r: &mut R,
    limit: usize,
    w: &mut W,
) -> Result<(), EditError>
    requires some { 1 ≤ limit }
    requires few { limit ≤ 2 ^ 31 }
    // The bytes that were read are a file, and what is written tells its counts.
    ensures reads { ReadsFile R.left R.failed limit (PrintsInfo W.held W.failed w.old w.new)
        edit_verdict IsEditOwn r.old result r.new }
    ensures kept { IsEditUnwritten result → w.new ≡ w.old }
{
    let lists = aig_reader::read(alloc, r, limit)?;
    write_info(alloc, &CircuitView::new(&lists), w)
}

//! Both forms of a circuit.

ghost use Rattle.std.specs.Prelude.{◌≤◌, ◌^◌, length};
ghost use Rattle.aig_circuit.specs.Circuit.{IsClosed};
ghost use Rattle.aig_format.specs.Circuit.{binary_of, text_of};
ghost use Rattle.aig_output.specs.Sinks.{WritesOrStops};
ghost use Rattle.aig_output.specs.Writing.{WritesPieces};
ghost use Rattle.aig_writer.specs.Forms.{FitsForm, form_of};
ghost use Rattle.aig_writer.specs.Numbering.{IsBinaryNumbering};

use crate::header::write_header;
use crate::names::write_names;
use crate::sections::{write_gates, write_inputs, write_latches, write_properties};
use aig_base::{Sink, StreamFault};
use aig_circuit::CircuitView;
use aig_format::FileKind;
use aig_output::{BufferedSink, TextOut};

/// Writes the header and the sections of the form of this kind.
pub(crate) fn write_sections<O: TextOut>(
    out: &mut O,
    kind: FileKind,
    numbers: &[usize],
    circuit: &CircuitView<'_>,
) -> Result<(), O::Error>
    requires { FitsForm kind circuit.now numbers.now }
    ensures { WritesPieces O.wrote O.stopped out.old result (form_of kind circuit.now) out.new }
{
    write_header(out, kind, circuit)?;
    write_inputs(out, kind, numbers, circuit)?;
    write_latches(out, kind, numbers, circuit)?;
    write_properties(out, numbers, circuit)?;
    write_gates(out, kind, numbers, circuit)?;
    write_names(out, circuit)
}

/// Writes the form of this kind to a sink, through a buffer of 32,768 bytes and with no allocation.
fn write_form<W: Sink>(
    w: &mut W,
    kind: FileKind,
    numbers: &[usize],
    circuit: &CircuitView<'_>,
) -> Result<(), StreamFault>
    requires { FitsForm kind circuit.now numbers.now }
    ensures { let form = form_of kind circuit.now in
        WritesOrStops W.held W.failed w.old result form w.new }
{
    let mut out = BufferedSink::new(w);
    write_sections(&mut out, kind, numbers, circuit)?;
    out.flush()
}

/// Writes the text form of a circuit to a sink (AIGER format 20071012 and AIGER 1.9), through a buffer of 32,768 bytes and
/// with no allocation. Its names are those of inputs and latches. It fails where the sink fails.
pub fn write_text<W: Sink>(w: &mut W, circuit: &CircuitView<'_>) -> Result<(), StreamFault>
    requires { length circuit.now.nodes ≤ 2 ^ 63 }
    ensures { WritesOrStops W.held W.failed w.old result (text_of circuit.now) w.new }
{
    write_form(w, FileKind::Text, &[], circuit)
}

/// Writes the binary form of a closed circuit to a sink (AIGER format 20071012, "Binary encoding"), as `write_text` does.
/// `numbers` are those of `binary_numbers`.
pub fn write_binary<W: Sink>(
    w: &mut W,
    circuit: &CircuitView<'_>,
    numbers: &[usize],
) -> Result<(), StreamFault>
    requires closed { IsClosed circuit.now }
    requires few { length circuit.now.nodes ≤ 2 ^ 31 }
    requires numbers { IsBinaryNumbering circuit.now numbers.now }
    ensures { WritesOrStops W.held W.failed w.old result (binary_of circuit.now) w.new }
{
    write_form(w, FileKind::Binary, numbers, circuit)
}

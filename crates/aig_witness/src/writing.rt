//! Writing witnesses, through a buffer of 32,768 bytes.

ghost use Rattle.std.specs.Prelude.{◌++◌, ◌∷◌, [], codes, decimal, map};
ghost use Rattle.std.specs.List.{flat_map};
ghost use Rattle.aig_witness.specs.Witness.{letter_of, row_text, rows_of, said_by, witness_text};
ghost use Rattle.aig_output.specs.Sinks.{BuffersOrStops, WritesOrStops};

use crate::witness::Witness;
use aig_base::{Lbool, Sink, StreamFault};
use aig_output::OutputBuffer;

/// Writes the letter of a value.
fn write_value<W: Sink>(
    buffer: &mut OutputBuffer,
    w: &mut W,
    value: Lbool,
) -> Result<(), StreamFault>
    ensures { let text = letter_of value ∷ [] in
        BuffersOrStops W.held W.failed buffer.old w.old result text buffer.new w.new }
{
    match value {
        Lbool::FALSE => buffer.write_bytes(w, b"0"),
        Lbool::TRUE => buffer.write_bytes(w, b"1"),
        Lbool::NONE => buffer.write_bytes(w, b"x"),
    }
}

/// Writes a line of values.
fn write_row<W: Sink>(
    buffer: &mut OutputBuffer,
    w: &mut W,
    values: &[Lbool],
) -> Result<(), StreamFault>
    ensures { let text = row_text values.now in
        BuffersOrStops W.held W.failed buffer.old w.old result text buffer.new w.new }
{
    for value in values {
        write_value(buffer, w, *value)?;
    }
    buffer.write_bytes(w, b"\n")
}

/// Writes a line for each step.
fn write_steps<W: Sink>(
    buffer: &mut OutputBuffer,
    w: &mut W,
    steps: &[Vec<Lbool>],
) -> Result<(), StreamFault>
    ensures { let text = flat_map row_text (rows_of steps.now) in
        BuffersOrStops W.held W.failed buffer.old w.old result text buffer.new w.new }
{
    for step in steps {
        write_row(buffer, w, step)?;
    }
    Ok(())
}

/// Writes the lines of a witness.
fn write_lines<W: Sink>(
    buffer: &mut OutputBuffer,
    w: &mut W,
    witness: &Witness,
) -> Result<(), StreamFault>
    ensures { let text = witness_text (said_by witness.now) in
        BuffersOrStops W.held W.failed buffer.old w.old result text buffer.new w.new }
{
    buffer.write_bytes(w, b"1\nb")?;
    buffer.write_number(w, witness.bad as usize, b'\n')?;
    write_row(buffer, w, &witness.state)?;
    write_steps(buffer, w, &witness.steps)?;
    buffer.write_bytes(w, b".\n")
}

/// Writes a witness in the form of AIGER 1.9 ("Witness format"), as `read_witness` reads it.
///
/// It takes no memory, and doesn't flush the sink.
pub fn write_witness<W: Sink>(w: &mut W, witness: &Witness) -> Result<(), StreamFault>
    // After Ok the writer holds what it held and the text, and after Err what it held and a beginning of it.
    ensures { let text = witness_text (said_by witness.now) in
        WritesOrStops W.held W.failed w.old result text w.new }
{
    let mut buffer = OutputBuffer::new();
    write_lines(&mut buffer, w, witness)?;
    buffer.flush(w)
}

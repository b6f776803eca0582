//! The names of inputs and latches.

ghost use Rattle.std.specs.List.{flat_map};
ghost use Rattle.std.specs.FinMap.{get};
ghost use Rattle.aig_format.specs.Written.{name_text};
ghost use Rattle.aig_format.specs.declared.FileKind.TheVariants.{Text};
ghost use Rattle.aig_format.specs.Circuit.{file_of};
ghost use Rattle.aig_output.specs.Writing.{WritesPieces};
ghost use Rattle.aig_writer.specs.TextParts.{text_of_name};

use aig_circuit::CircuitView;
use aig_output::{SHORT_PIECE, TextOut};
use itoa::write_digits;

/// The letter of an input's name.
const INPUT: u8 = b'i';

/// The letter of a latch's name.
const LATCH: u8 = b'l';

/// Room for the letter of a name, the digits of its position and a space.
const HEAD: usize = 22;

/// Writes a name line: the letter, the position, the name.
fn write_name_line<O: TextOut>(
    out: &mut O,
    letter: u8,
    position: usize,
    name: &[u8],
) -> Result<(), O::Error>
    ensures { let text = name_text
        (record { letter = letter; position = position; name = name.now }) in
        WritesPieces O.wrote O.stopped out.old result text out.new }
{
    let mut head = [b' '; HEAD + SHORT_PIECE];
    let start = write_digits(position as u64, &mut head, HEAD - 1) - 1;
    head[start] = letter;
    out.write_front(&head[start..], HEAD - start)?;
    out.write_bytes(name)?;
    out.write_bytes(b"\n")
}

/// Writes the name line of a node, if the node has a name.
fn write_node_name<O: TextOut>(
    out: &mut O,
    circuit: &CircuitView<'_>,
    letter: u8,
    position: usize,
    node: usize,
) -> Result<(), O::Error>
    ensures { let text = text_of_name letter position (get circuit.now.names node) in
        WritesPieces O.wrote O.stopped out.old result text out.new }
{
    match circuit.names().get(&node) {
        Some(name) => write_name_line(out, letter, position, name.as_bytes()),
        None => Ok(()),
    }
}

/// Writes the names of inputs, and then those of latches, by position.
pub(crate) fn write_names<O: TextOut>(
    out: &mut O,
    circuit: &CircuitView<'_>,
) -> Result<(), O::Error>
    ensures { let text = flat_map name_text (file_of Text circuit.now).names in
        WritesPieces O.wrote O.stopped out.old result text out.new }
{
    for (i, n) in circuit.inputs().iter().enumerate() {
        write_node_name(out, circuit, INPUT, i, *n)?;
    }
    for (i, latch) in circuit.latchs().iter().enumerate() {
        write_node_name(out, circuit, LATCH, i, latch.input())?;
    }
    Ok(())
}

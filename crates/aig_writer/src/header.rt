//! The header of a file.

ghost use Rattle.std.specs.Prelude.{◌≡◌, ◌<◌, ◌≤◌, length, take, filter_map};
ghost use Rattle.aig_circuit.specs.Circuit.{IsCircuit};
ghost use Rattle.aig_format.specs.File.{header_of};
ghost use Rattle.aig_format.specs.Spells.{magic, numbers_in};
ghost use Rattle.aig_format.specs.Written.{shortened, header_line_of, line_text};
ghost use Rattle.aig_format.specs.Circuit.{file_of, gate_line};
ghost use Rattle.aig_output.specs.Writing.{WritesPieces};

use crate::line::put_line;
use aig_circuit::{AigNode, CircuitView};
use aig_format::FileKind;
use aig_output::{SHORT_PIECE, TextOut};

/// How many numbers a header has at least: M I L O A.
const FEWEST_NUMBERS: usize = 5;

/// How many of the nodes are gates.
fn gate_count(nodes: &[AigNode]) -> usize
    ensures { result ≡ length (filter_map gate_line nodes.now) }
{
    let mut count = 0;
    for node in nodes {
        if node.is_and() {
            count += 1;
        }
    }
    count
}

/// The numbers of the header: M I L O A B C J F.
fn header_numbers(circuit: &CircuitView<'_>) -> [usize; 9]
    ensures value { (kind : FileKind) → result ≡ numbers_in (header_of (file_of kind circuit.now)) }
    ensures circuit { IsCircuit circuit.now }
{
    [
        circuit.nodes().len().saturating_sub(1),
        circuit.inputs().len(),
        circuit.latchs().len(),
        circuit.outputs().len(),
        gate_count(circuit.nodes()),
        circuit.bads().len(),
        circuit.constraints().len(),
        circuit.justice().len(),
        circuit.fairness().len(),
    ]
}

/// How many of the numbers stand up to the last that is not 0.
fn written_count(numbers: &[usize]) -> usize
    ensures within { result ≤ length numbers.now }
    ensures value { take result numbers.now ≡ shortened numbers.now }
{
    let mut count = numbers.len();
    while count > 0 && numbers[count - 1] == 0 {
        count -= 1;
    }
    count
}

/// The word that a file begins with.
fn magic_word(kind: FileKind) -> &'static [u8]
    ensures { result.now ≡ magic kind }
{
    match kind {
        FileKind::Text => b"aag ",
        FileKind::Binary => b"aig ",
    }
}

/// Room for nine numbers with a byte after each.
const HEADER_LINE: usize = 192;

/// Writes a line of numbers, one at least and nine at most, apart by one space each.
fn write_numbers<O: TextOut>(out: &mut O, numbers: &[usize]) -> Result<(), O::Error>
    requires some { 0 < length numbers.now }
    requires few { length numbers.now ≤ 9 }
    ensures { WritesPieces O.wrote O.stopped out.old result (line_text numbers.now) out.new }
{
    let mut text = [b' '; HEADER_LINE + SHORT_PIECE];
    let start = put_line(&mut text, HEADER_LINE, numbers);
    out.write_front(&text[start..], HEADER_LINE - start)
}

/// Writes the header line.
pub(crate) fn write_header<O: TextOut>(
    out: &mut O,
    kind: FileKind,
    circuit: &CircuitView<'_>,
) -> Result<(), O::Error>
    ensures writes { let text = header_line_of (file_of kind circuit.now) in
        WritesPieces O.wrote O.stopped out.old result text out.new }
    ensures circuit { IsCircuit circuit.now }
{
    let numbers = header_numbers(circuit);
    let written = FEWEST_NUMBERS + written_count(&numbers[FEWEST_NUMBERS..]);
    out.write_bytes(magic_word(kind))?;
    write_numbers(out, &numbers[..written])
}

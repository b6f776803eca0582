//! The text form, written to a formatter.

ghost use Rattle.std.specs.Prelude.{◌^◌, ◌≤◌, length};
ghost use Rattle.std.specs.Fmt.{WritesStyledOnOk};
ghost use Rattle.aig_format.specs.Circuit.{text_of};

use crate::form::write_sections;
use aig_circuit::CircuitView;
use aig_format::FileKind;
use std::fmt;
use std::fmt::{Formatter, Write};

/// Writes the text form of a circuit to a formatter (AIGER format 20071012 and AIGER 1.9), piece by piece and with no
/// allocation. Its names are those of inputs and latches. It fails where the formatter fails.
pub fn fmt_text<W: Write>(circuit: &CircuitView<'_>, f: &mut Formatter<W>) -> fmt::Result
    requires { length circuit.now.nodes ≤ 2 ^ 63 }
    // All of the text was written, whatever options the formatter has.
    ensures { WritesStyledOnOk W.write_str_gives f.old result (text_of circuit.now) f.new }
{
    write_sections(f, FileKind::Text, &[], circuit)
}

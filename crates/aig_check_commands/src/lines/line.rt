//! What stands in a line about an input, a latch or a bad state property.

ghost use Rattle.std.specs.Prelude.{◌++◌};
ghost use Rattle.aig_output.specs.Sinks.{BuffersOrStops};
ghost use Rattle.aig_check_commands.specs.Comments.{named_text};

use aig_base::{Sink, StreamFault};
use aig_output::OutputBuffer;

/// Buffers a letter and a number, as `b0`, a step, and the byte `end` after it.
pub(crate) fn buffer_named<W: Sink>(
    buffer: &mut OutputBuffer,
    w: &mut W,
    letter: &[u8],
    number: usize,
    step: usize,
    end: u8,
) -> Result<(), StreamFault>
    ensures { let text = named_text letter.now number step end in
        BuffersOrStops W.held W.failed buffer.old w.old result text buffer.new w.new }
{
    buffer.write_bytes(w, letter)?;
    buffer.write_number(w, number, b' ')?;
    buffer.write_bytes(w, b"at step ")?;
    buffer.write_number(w, step, end)
}

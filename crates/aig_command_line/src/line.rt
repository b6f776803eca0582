//! Lines that are written.

ghost use Rattle.std.specs.Prelude.{◌++◌, ◌∷◌, []};
ghost use Rattle.aig_output.specs.Sinks.{BuffersOrStops, WritesOrStops};

use aig_base::{Sink, StreamFault};
use aig_output::OutputBuffer;

/// Buffers a text and a line feed.
fn buffer_text<W: Sink>(
    buffer: &mut OutputBuffer,
    w: &mut W,
    text: &[u8],
) -> Result<(), StreamFault>
    ensures { let line = text.now ++ 10 ∷ [] in
        BuffersOrStops W.held W.failed buffer.old w.old result line buffer.new w.new }
{
    buffer.write_bytes(w, text)?;
    buffer.write_bytes(w, b"\n")
}

/// Writes a text and a line feed.
pub fn write_text<W: Sink>(w: &mut W, text: &[u8]) -> Result<(), StreamFault>
    ensures { let line = text.now ++ 10 ∷ [] in
        WritesOrStops W.held W.failed w.old result line w.new }
{
    let mut buffer = OutputBuffer::new();
    buffer_text(&mut buffer, w, text)?;
    buffer.flush(w)
}

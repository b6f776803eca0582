//! Pieces of bytes, put into a sink whole.

ghost use Rattle.aig_output.specs.Sinks.{WritesOrStops};

use aig_base::{Sink, StreamFault};

/// Puts all of a text into a sink, also an empty text.
pub fn put_all<W: Sink>(w: &mut W, text: &[u8]) -> Result<(), StreamFault>
    ensures { WritesOrStops W.held W.failed w.old result text.now w.new }
{
    let mut at = 0;
    loop {
        at += w.put(&text[at..])?;
        if at == text.len() {
            return Ok(());
        }
    }
}

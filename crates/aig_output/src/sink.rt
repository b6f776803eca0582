//! A sink with a buffer before it, as what a text is written to.

ghost use Rattle.std.specs.Prelude.{◌≡◌, ◌++◌, []};
ghost use Rattle.aig_output.specs.Sinks.{Buffers, Stops, WritesOrStops};

use crate::buffer::OutputBuffer;
use crate::out::TextOut;
use aig_base::{Sink, StreamFault};

/// A sink, and the bytes that wait for it.
#[derive(Drop)]
pub struct BufferedSink<'a, W> {
    /// What waits.
    pub buffer: OutputBuffer,
    /// The sink.
    pub sink: &'a mut W,
}

impl<'a, W: Sink> BufferedSink<'a, W> {
    /// The sink, with nothing that waits.
    pub fn new(sink: &'a mut W) -> Self
        ensures same { result.sink.ghost_name ≡ sink.entry.ghost_name }
        ensures sink { result.sink.now ≡ sink.old }
        ensures empty { result.buffer ≡ [] }
    {
        BufferedSink {
            buffer: OutputBuffer::new(),
            sink,
        }
    }

    /// Puts what waits into the sink.
    pub fn flush(&mut self) -> Result<(), StreamFault>
        ensures same { self.new.sink.ghost_name ≡ self.old.sink.ghost_name }
        ensures writes { let waited = self.old.buffer in
            WritesOrStops W.held W.failed self.old.sink.now result waited self.new.sink.now }
    {
        self.buffer.flush(self.sink)
    }
}

impl<'a, W: Sink> TextOut for BufferedSink<'a, W> {
    type Error = StreamFault;

    ghost wrote = { λ a text b. (b.sink.ghost_name ≡ a.sink.ghost_name)
        × Buffers a.buffer (W.held a.sink.now) b.buffer (W.held b.sink.now) text };

    ghost stopped = { λ a text b. (b.sink.ghost_name ≡ a.sink.ghost_name)
        × Stops (W.held a.sink.now) (W.held b.sink.now) (W.failed b.sink.now) (a.buffer ++ text) };

    fn write_bytes(&mut self, piece: &[u8]) -> Result<(), StreamFault> {
        self.buffer.write_bytes(self.sink, piece)
    }

    #[inline(always)]
    fn write_front(&mut self, piece: &[u8], count: usize) -> Result<(), StreamFault> {
        self.buffer.write_front(self.sink, piece, count)
    }
}

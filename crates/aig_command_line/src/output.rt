//! Standard output.

ghost use Rattle.std.specs.Prelude.{◌≡◌, Bool, IsTrue, OnOk, false, is_err};
ghost use Rattle.std.specs.Io.KnownBytes.{Keeps};

use aig_base::{Sink, StreamFault};
use std::io::Write;

/// A sink that may keep bytes back until it is flushed.
pub trait Flush: Sink {
    /// Whether all that it holds is where it belongs.
    ghost flushed: { Self → Bool };

    /// Passes on what was kept back.
    fn flush(&mut self) -> Result<(), StreamFault>
        ensures kept { Keeps (Self.held self.old) (Self.held self.new) }
        ensures tells { Self.failed self.new ≡ is_err result }
        ensures done { OnOk result (IsTrue (flushed self.new)) };
}

/// A writer of std that is flushed at the end.
#[derive(Drop)]
pub struct FlushedWriter<W> {
    inner: W,
    failed: bool,
    flushed: bool,
}

impl<W: Write> FlushedWriter<W> {
    /// The sink over a writer.
    pub fn new(inner: W) -> Self
        ensures held { ⟦<FlushedWriter<W> as Sink>⟧.held result ≡ W.contents inner }
        ensures sound { ⟦<FlushedWriter<W> as Sink>⟧.failed result ≡ false }
    {
        FlushedWriter {
            inner,
            failed: false,
            flushed: false,
        }
    }

    /// The writer under it.
    pub fn into_inner(self) -> W
        ensures { W.contents result ≡ ⟦<FlushedWriter<W> as Sink>⟧.held self }
    {
        let FlushedWriter {
            inner,
            failed: _,
            flushed: _,
        } = self;
        inner
    }
}

impl<W: Write> Sink for FlushedWriter<W> {
    ghost held = { λ s. W.contents s.inner };

    ghost failed = { λ s. s.failed };

    fn put(&mut self, piece: &[u8]) -> Result<usize, StreamFault> {
        if self.failed {
            return Err(StreamFault::Failed);
        }
        self.flushed = false;
        match self.inner.write(piece) {
            Ok(n) if n > 0 || piece.is_empty() => Ok(n),
            _ => {
                self.failed = true;
                Err(StreamFault::Failed)
            }
        }
    }
}

impl<W: Write> Flush for FlushedWriter<W> {
    ghost flushed = { λ s. s.flushed };

    fn flush(&mut self) -> Result<(), StreamFault> {
        if self.failed || self.inner.flush().is_err() {
            self.failed = true;
            return Err(StreamFault::Failed);
        }
        self.flushed = true;
        Ok(())
    }
}

//! Sources and sinks over std's readers and writers.

ghost use Rattle.std.specs.Prelude.{◌≡◌, ◌+◌, ◌-◌, ◌^◌, ◌<◌, ◌≤◌, false, is_err, length, take, IfOk, OnOk, IsErr, IsTrue};
ghost use Rattle.std.specs.Io.KnownBytes.{Consumes, IsAtEnd};
ghost use Rattle.aig_base.specs.Wrapped.{pulls_of, read_failed, reader_of, writer_of};

use crate::stream::{Sink, Source, StreamFault};
use std::io::{Read, Write};

/// A reader of std as a source: its bytes are those that the reader has left.
///
/// A read that is interrupted is a failure, as any other `Err` is, and so is every pull after the first 2^64 - 1.
#[derive(Drop)]
pub struct FromRead<R> {
    inner: R,
    pulls: u64,
    failed: bool,
}

impl<R: Read> FromRead<R> {
    /// Returns the source over a reader.
    pub fn new(inner: R) -> Self
        ensures reader { reader_of result ≡ inner }
        ensures sound { read_failed result ≡ false }
        ensures pulls { pulls_of result ≡ 2 ^ 64 - 1 }
    {
        FromRead {
            inner,
            pulls: u64::MAX,
            failed: false,
        }
    }

    /// Returns the reader under it.
    pub fn into_inner(self) -> R
        ensures { result ≡ reader_of self }
    {
        let FromRead {
            inner,
            pulls: _,
            failed: _,
        } = self;
        inner
    }
}

impl<R: Read> Source for FromRead<R> {
    ghost use Rattle.aig_base.specs.Wrapped.{pulls_of, read_failed};

    ghost left = { λ s. R.remaining s.inner };

    ghost failed = { read_failed };

    ghost pulls = { pulls_of };

    fn pull(&mut self, buf: &mut [u8]) -> Result<usize, StreamFault>
        ensures bound { IfOk result (λ n. n ≤ length buf.new) }
        ensures moved { IfOk result (λ n. Consumes (⟦<FromRead<R> as Source>⟧.left self.old)
            (⟦<FromRead<R> as Source>⟧.left self.new) (take n buf.new)) }
        ensures end { IfOk result
            (λ n. n ≡ 0 → 0 < length buf.new → IsAtEnd (⟦<FromRead<R> as Source>⟧.left self.new)) }
        ensures fewer { IfOk result (λ n. 0 < n → pulls_of self.new < pulls_of self.old) }
        ensures tells { read_failed self.new ≡ is_err result }
        ensures for_good { IsTrue (read_failed self.old) → IsErr result }

        // Each pull is counted once, also one of nothing, and after the last one it fails.
        ensures counted { OnOk result (pulls_of self.old ≡ pulls_of self.new + 1) }
        ensures spent { pulls_of self.old ≡ 0 → IsErr result }
    {
        if self.failed || self.pulls == 0 {
            self.failed = true;
            return Err(StreamFault::Failed);
        }
        self.pulls -= 1;
        match self.inner.read(buf) {
            Ok(n) => Ok(n),
            Err(_) => {
                self.failed = true;
                Err(StreamFault::Failed)
            }
        }
    }
}

/// A writer of std as a sink: the bytes that it holds are those that the writer holds.
///
/// A write that is interrupted is a failure, as any other `Err` is, and so is one that takes no byte of a piece that
/// isn't empty.
#[derive(Drop)]
pub struct ToWrite<W> {
    inner: W,
    failed: bool,
}

impl<W: Write> ToWrite<W> {
    /// Returns the sink over a writer.
    pub fn new(inner: W) -> Self
        ensures writer { writer_of result ≡ inner }
        ensures sound { ⟦<ToWrite<W> as Sink>⟧.failed result ≡ false }
    {
        ToWrite {
            inner,
            failed: false,
        }
    }

    /// Returns the writer under it. What that keeps in a buffer isn't flushed.
    pub fn into_inner(self) -> W
        ensures { result ≡ writer_of self }
    {
        let ToWrite { inner, failed: _ } = self;
        inner
    }
}

impl<W: Write> Sink for ToWrite<W> {
    ghost held = { λ s. W.contents s.inner };

    ghost failed = { λ s. s.failed };

    fn put(&mut self, piece: &[u8]) -> Result<usize, StreamFault> {
        if self.failed {
            return Err(StreamFault::Failed);
        }
        match self.inner.write(piece) {
            Ok(n) if n > 0 || piece.is_empty() => Ok(n),
            _ => {
                self.failed = true;
                Err(StreamFault::Failed)
            }
        }
    }
}

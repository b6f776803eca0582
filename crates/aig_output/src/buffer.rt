//! A buffer of bytes in front of a sink.

ghost use Rattle.std.specs.Prelude.{◌≡◌, ◌+◌, ◌≤◌, ◌++◌, ◌∷◌, [], List, ℕ, length, take, decimal, OnOk};
ghost use Rattle.aig_output.specs.Sinks.{BuffersOrStops, WritesOrStops};

use crate::put::put_all;
use aig_base::{Sink, StreamFault};
use itoa::write_digits;
use std::marker::Model;

/// How many bytes a buffer has room for.
const SIZE: usize = 1 << 15;

/// How many bytes of a short piece are copied at once.
pub const SHORT_PIECE: usize = 32;

/// How many digits a number has at most.
const DIGITS: usize = 20;

/// Bytes that wait for a sink, in order, until 32,768 are there. A text that is written waits here, or goes to the sink
/// after what waited.
#[derive(Drop)]
pub struct OutputBuffer {
    bytes: [u8; SIZE],
    len: usize,
}

impl Model for OutputBuffer {
    ghost Value = { List ℕ };

    ghost view = { λ b. take b.len b.bytes };

    ghost invariant = { λ b. b.len ≤ 32768 };
}

impl OutputBuffer {
    /// A buffer in which nothing waits.
    pub fn new() -> Self
        ensures { result ≡ [] }
    {
        OutputBuffer {
            bytes: [0; SIZE],
            len: 0,
        }
    }

    /// Puts what waits into the sink.
    pub fn flush<W: Sink>(&mut self, w: &mut W) -> Result<(), StreamFault>
        ensures writes { WritesOrStops W.held W.failed w.old result self.old w.new }
        ensures empty { OnOk result (self.new ≡ []) }
    {
        put_all(w, &self.bytes[..self.len])?;
        self.len = 0;
        Ok(())
    }

    /// Appends a piece for which there is room.
    fn push(&mut self, piece: &[u8])
        requires { length self.old + length piece.now ≤ 32768 }
        ensures { self.new ≡ self.old ++ piece.now }
    {
        let end = self.len + piece.len();
        self.bytes[self.len..end].copy_from_slice(piece);
        self.len = end;
    }

    /// Appends the first `count` bytes of a piece, by a copy of as many bytes as a short piece has.
    #[inline(always)]
    fn push_short(&mut self, piece: &[u8], count: usize)
        requires room { length self.old + 32 ≤ 32768 }
        requires long { 32 ≤ length piece.now }
        requires short { count ≤ 32 }
        ensures { self.new ≡ self.old ++ take count piece.now }
    {
        self.bytes[self.len..self.len + SHORT_PIECE].copy_from_slice(&piece[..SHORT_PIECE]);
        self.len += count;
    }

    /// Writes a piece for which there is no room before what waits is put.
    #[cold]
    fn flush_and_push<W: Sink>(&mut self, w: &mut W, piece: &[u8]) -> Result<(), StreamFault>
        ensures { BuffersOrStops W.held W.failed self.old w.old result piece.now self.new w.new }
    {
        self.flush(w)?;
        if piece.len() > SIZE {
            return put_all(w, piece);
        }
        self.push(piece);
        Ok(())
    }

    /// Writes a piece of text.
    // Short pieces go by `write_front`, which stands where it is called, and leaves this one outside.
    #[inline(never)]
    pub fn write_bytes<W: Sink>(&mut self, w: &mut W, piece: &[u8]) -> Result<(), StreamFault>
        ensures { BuffersOrStops W.held W.failed self.old w.old result piece.now self.new w.new }
    {
        if piece.len() > SIZE - self.len {
            return self.flush_and_push(w, piece);
        }
        self.push(piece);
        Ok(())
    }

    /// Writes the first `count` bytes of a piece. What stands after them makes the copy of a short piece quicker.
    #[inline(always)]
    pub fn write_front<W: Sink>(
        &mut self,
        w: &mut W,
        piece: &[u8],
        count: usize,
    ) -> Result<(), StreamFault>
        requires { count ≤ length piece.now }
        ensures { let text = take count piece.now in
            BuffersOrStops W.held W.failed self.old w.old result text self.new w.new }
    {
        if count > SHORT_PIECE || piece.len() < SHORT_PIECE || SIZE - self.len < SHORT_PIECE {
            return self.write_bytes(w, &piece[..count]);
        }
        self.push_short(piece, count);
        Ok(())
    }

    /// Writes a number in decimal, and the byte `end` after it.
    pub fn write_number<W: Sink>(&mut self, w: &mut W, n: usize, end: u8) -> Result<(), StreamFault>
        ensures { let text = decimal n ++ end ∷ [] in
            BuffersOrStops W.held W.failed self.old w.old result text self.new w.new }
    {
        let mut digits = [end; DIGITS + SHORT_PIECE];
        let start = write_digits(n as u64, &mut digits, DIGITS);
        self.write_front(w, &digits[start..], DIGITS + 1 - start)
    }
}

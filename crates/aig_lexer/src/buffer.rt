//! A buffer of bytes in front of a source.

ghost use Rattle.std.specs.Io.KnownBytes.{Consumes, IsAtEnd};
ghost use Rattle.std.specs.Prelude.{◌≡◌, ◌<◌, ◌≤◌, [], List, ℕ, drop, length, slice_range, take, true, IfOk, OnErr, OnOk};
ghost use Rattle.aig_lexer.specs.Bytes.{Fills, Pops};
ghost use Rattle.aig_lexer.specs.Takes.{StepsOrFails, feed};
ghost use Rattle.aig_lexer.specs.declared.buffer.TheConstants.{SIZE};

use aig_base::{Source, StreamFault};
use std::marker::Model;

/// How many bytes a buffer has room for.
const SIZE: usize = 1 << 14;

/// Pulls bytes until there are this many, or the source ends, and returns how many there are.
fn pull_front<R: Source>(r: &mut R, bytes: &mut [u8], count: usize) -> Result<usize, StreamFault>
    requires { count ≤ length bytes.old }
    ensures bound { IfOk result (λ n. n ≤ count) }
    ensures room { OnOk result (count ≤ length bytes.new) }
    ensures moved { IfOk result (λ n. Consumes (R.left r.old) (R.left r.new) (take n bytes.new)) }
    ensures enough { IfOk result (λ n. n < count → IsAtEnd (R.left r.new)) }
    ensures failed { OnErr result (R.failed r.new ≡ true) }
{
    let mut end = 0;
    while end < count {
        let pulled = r.pull(&mut bytes[end..count])?;
        if pulled == 0 {
            break;
        }
        end += pulled;
    }
    Ok(end)
}

/// Bytes of a source, in order, that were pulled and not yet taken.
pub struct InputBuffer {
    bytes: [u8; SIZE],
    at: usize,
    end: usize,
}

impl Drop for InputBuffer {
    fn drop(self) {
        let InputBuffer {
            bytes: _,
            at: _,
            end: _,
        } = self;
    }
}

impl Model for InputBuffer {
    ghost Value = { List ℕ };

    ghost view = { λ b. slice_range b.bytes b.at b.end };

    ghost invariant = { λ b. (b.at ≤ b.end) × (b.end ≤ SIZE) };
}

impl InputBuffer {
    /// A buffer in which there is no byte.
    pub fn new() -> Self
        ensures { result ≡ [] }
    {
        InputBuffer {
            bytes: [0; SIZE],
            at: 0,
            end: 0,
        }
    }

    /// Takes the first byte, if there is one.
    #[inline(always)]
    fn pop(&mut self) -> Option<u8>
        ensures { Pops self.old result self.new }
    {
        if self.at == self.end {
            return None;
        }
        let byte = self.bytes[self.at];
        self.at += 1;
        Some(byte)
    }

    /// Pulls the next bytes of the source, where no byte is left. At its end there is none after that.
    #[cold]
    fn fill<R: Source>(&mut self, r: &mut R) -> Result<(), StreamFault>
        requires { self.old ≡ [] }
        ensures { Fills (feed R.left R.failed R.pulls self.old r.old)
            (feed R.left R.failed R.pulls self.new r.new) result self.new }
    {
        self.at = 0;
        self.end = 0;
        self.end = r.pull(&mut self.bytes)?;
        Ok(())
    }

    /// Pulls bytes of the source until there are `count`, or it ends, and takes none. Requires that no byte is in the buffer, and
    /// that it has room for so many.
    pub fn hold<R: Source>(&mut self, r: &mut R, count: usize) -> Result<(), StreamFault>
        requires none { self.old ≡ [] }
        requires room { count ≤ SIZE }
        ensures moved { OnOk result (Consumes (R.left r.old) (R.left r.new) self.new) }
        ensures few { OnOk result (length self.new ≤ count) }
        ensures enough { OnOk result (length self.new < count → IsAtEnd (R.left r.new)) }
        ensures failed { OnErr result (R.failed r.new ≡ true) }
    {
        self.at = 0;
        self.end = 0;
        self.end = pull_front(r, &mut self.bytes, count)?;
        Ok(())
    }

    /// Takes the next byte, from the source where there is none in the buffer, or returns none at the end.
    ///
    /// Returns an error where a read failed. No byte is in the buffer after that, so that none is given again.
    #[inline(always)]
    pub fn next<R: Source>(&mut self, r: &mut R) -> Result<Option<u8>, StreamFault>
        ensures steps { StepsOrFails (feed R.left R.failed R.pulls self.old r.old)
            (feed R.left R.failed R.pulls self.new r.new) result }
        ensures empty { OnErr result (self.new ≡ []) }
    {
        if let Some(byte) = self.pop() {
            return Ok(Some(byte));
        }
        self.fill(r)?;
        Ok(self.pop())
    }

    /// Returns the bytes that are in the buffer, and takes none of them.
    pub fn window(&self) -> &[u8]
        ensures { result.now ≡ self.now }
    {
        &self.bytes[self.at..self.end]
    }

    /// Takes the first `count` bytes. Requires that there are so many in the buffer.
    #[inline(always)]
    pub fn consume(&mut self, count: usize)
        requires { count ≤ length self.old }
        ensures { self.new ≡ drop count self.old }
    {
        self.at += count;
    }
}

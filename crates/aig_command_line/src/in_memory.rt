//! A source of bytes that lie in memory.

ghost use Rattle.std.specs.Prelude.{◌≡◌, ℕ, List};

use aig_base::{Source, StreamFault};
use std::marker::Model;

/// Gives the bytes of a slice. It never fails.
#[derive(Drop)]
pub struct InMemory<'a> {
    bytes: &'a [u8],
}

impl<'a> Model for InMemory<'a> {
    ghost Value = { List ℕ };

    ghost view = { λ s. s.bytes.now };
}

impl<'a> InMemory<'a> {
    /// Returns the source of these bytes.
    pub fn new(bytes: &'a [u8]) -> Self
        ensures { result ≡ bytes.now }
    {
        InMemory { bytes }
    }
}

impl<'a> Source for InMemory<'a> {
    ghost use Rattle.std.specs.Prelude.{Some, false, length};

    ghost left = { λ bytes. Some bytes };

    ghost failed = { λ _. false };

    ghost pulls = { length };

    fn pull(&mut self, buf: &mut [u8]) -> Result<usize, StreamFault> {
        let n = self.bytes.len().min(buf.len());
        let (front, rest) = self.bytes.split_at(n);
        buf[..n].copy_from_slice(front);
        self.bytes = rest;
        Ok(n)
    }
}

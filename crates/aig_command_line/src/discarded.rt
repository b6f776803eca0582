//! A sink for what nobody reads.

use aig_base::{Sink, StreamFault};

/// Takes all bytes, and keeps none.
#[derive(Clone, Copy)]
pub struct Discarded;

impl Sink for Discarded {
    ghost use Rattle.std.specs.Prelude.{None, false};

    ghost held = { λ _. None };

    ghost failed = { λ _. false };

    fn put(&mut self, piece: &[u8]) -> Result<usize, StreamFault> {
        Ok(piece.len())
    }
}

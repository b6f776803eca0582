//! A source whose bytes are summed as they pass.

ghost use Rattle.std.specs.Prelude.{◌≡◌, false};
ghost use Rattle.std.specs.Io.KnownBytes.{IsAtEnd};
ghost use Rattle.aig_check_commands.specs.Sums.{IsSum, Sums};

use aig_base::{Source, StreamFault};
use aig_command_line::Origin;
use sha2::{Digest, Sha256};
use std::marker::PhantomData;

/// A source over another one. It passes on its bytes, and sums them by SHA-256.
#[derive(Drop)]
pub struct Summed<R: Source, B: Origin> {
    source: R,
    hasher: Sha256,
    of: PhantomData<B>,
    ghost sums: { ∥ Sums B.bytes (R.left source) (R.failed source) hasher ∥₁ },
}

impl<R: Source, B: Origin> Summed<R, B> {
    ghost use Rattle.aig_check_commands.specs.Under.{source_of};

    /// A source none of whose bytes came. Requires that the origin is its bytes.
    pub fn new(source: R) -> Self
        requires { R.left source ≡ B.bytes }
        ensures { source_of result ≡ source }
    {
        Summed {
            source,
            hasher: Sha256::new(),
            of: PhantomData,
        }
    }

    /// The sum of the bytes that came: of all of the origin's, where the source is at its end and no read failed.
    pub fn finish(self) -> [u8; 32]
    where
        R: Drop,
        ensures { ⟦<Summed<R, B> as Source>⟧.failed self ≡ false
            → IsAtEnd (⟦<Summed<R, B> as Source>⟧.left self) → IsSum B.bytes result }
    {
        self.hasher.finalize()
    }
}

impl<R: Source, B: Origin> Source for Summed<R, B> {
    ghost left = { λ s. R.left s.source };

    ghost failed = { λ s. R.failed s.source };

    ghost pulls = { λ s. R.pulls s.source };

    fn pull(&mut self, buf: &mut [u8]) -> Result<usize, StreamFault> {
        let count = self.source.pull(buf)?;
        self.hasher.update(&buf[..count]);
        Ok(count)
    }
}

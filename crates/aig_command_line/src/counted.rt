//! A source whose bytes are counted.

ghost use Rattle.std.specs.Prelude.{◌≡◌, false};
ghost use Rattle.std.specs.Io.KnownBytes.{prepend_known};
ghost use Rattle.aig_command_line.specs.Came.{Came, IsPlaceIn};
ghost use Rattle.aig_lexer.specs.Takes.{feed};

use crate::tally::{Measure, Place, Tally};
use aig_base::{Source, StreamFault};
use aig_lexer::InputBuffer;
use std::marker::{Brand, PhantomData};

/// Names the bytes that a source has to give, where they are known.
pub trait Origin {
    ghost use Rattle.std.specs.Prelude.{ℕ, List, Option};

    ghost bytes: { Option (List ℕ) };
}

/// Each call picks them.
impl Origin for Brand {
    ghost use Rattle.std.specs.Prelude.{None};

    ghost bytes = { None };
}

/// A source over another one. It gives one byte a pull and counts it, so that the bytes that came are those that were
/// asked for.
#[derive(Drop)]
pub struct Counted<R: Source, B: Origin> {
    source: R,
    buffer: InputBuffer,
    tally: Tally,
    failed: bool,
    of: PhantomData<B>,
    ghost came: { Came B.bytes (prepend_known buffer (R.left source)) failed tally },
}

impl<R: Source, B: Origin> Counted<R, B> {
    /// A source none of whose bytes came. Requires that the origin is its bytes.
    pub fn new(source: R) -> Self
        requires { R.left source ≡ B.bytes }
        ensures { ⟦<Counted<R, B> as Source>⟧.left result ≡ B.bytes }
    {
        Counted {
            source,
            buffer: InputBuffer::new(),
            tally: Tally::new(),
            failed: false,
            of: PhantomData,
        }
    }

    /// The place of the last byte that came.
    pub fn place(&self, measure: Measure) -> Place
        ensures { IsPlaceIn B.bytes measure result }
    {
        self.tally.place(measure)
    }
}

impl<R: Source, B: Origin> Source for Counted<R, B> {
    ghost left = { λ s. (feed R.left R.failed R.pulls s.buffer s.source).coming };

    ghost failed = { λ s. s.failed };

    ghost pulls = { λ s. (feed R.left R.failed R.pulls s.buffer s.source).most };

    fn pull(&mut self, buf: &mut [u8]) -> Result<usize, StreamFault> {
        if self.failed || self.tally.is_full() {
            self.failed = true;
            return Err(StreamFault::Failed);
        }
        if buf.is_empty() {
            return Ok(0);
        }
        match self.buffer.next(&mut self.source) {
            Ok(Some(byte)) => {
                self.tally = self.tally.with(byte);
                buf[0] = byte;
                Ok(1)
            }
            Ok(None) => Ok(0),
            Err(fault) => {
                self.failed = true;
                Err(fault)
            }
        }
    }
}

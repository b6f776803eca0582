//! A source whose bytes are passed on in pieces, and counted.

ghost use Rattle.std.specs.Io.KnownBytes.{Consumes, IsAtEnd};
ghost use Rattle.std.specs.Prelude.{◌≡◌, ◌<◌, ◌≤◌, ◌^◌, length, take, IfOk, IsErr, IsTrue, is_err};
ghost use Rattle.aig_command_line.specs.Came.{Follows, IsPlaceOf};
ghost use Rattle.aig_command_line.specs.Counts.{CountsWith};

use crate::counted::Origin;
use crate::piece::{MOST, Piece};
use crate::tally::{Measure, Place, Tally};
use aig_base::{Source, StreamFault};
use std::marker::PhantomData;

/// Pulls some bytes, at most 2^14.
fn pull_piece<R: Source>(r: &mut R, buf: &mut [u8]) -> Result<usize, StreamFault>
    ensures few { IfOk result (λ n. n ≤ 2 ^ 14) }
    ensures bound { IfOk result (λ n. n ≤ length buf.new) }
    ensures moved { IfOk result (λ n. Consumes (R.left r.old) (R.left r.new) (take n buf.new)) }
    ensures end { IfOk result (λ n. n ≡ 0 → 0 < length buf.new → IsAtEnd (R.left r.new)) }
    ensures fewer { IfOk result (λ n. 0 < n → R.pulls r.new < R.pulls r.old) }
    ensures tells { R.failed r.new ≡ is_err result }
    ensures for_good { IsTrue (R.failed r.old) → IsErr result }
{
    let room = buf.len().min(MOST);
    r.pull(&mut buf[..room])
}

/// The counts of the bytes before a piece, and of the piece.
fn with_last(before: Option<Tally>, piece: &[u8]) -> Option<Tally>
    ensures { CountsWith before piece.now result }
{
    before?.with_piece(piece)
}

/// A source over another one. It passes on its bytes, and keeps the last piece of them and the counts of those before.
#[derive(Drop)]
pub struct Followed<R: Source, B: Origin> {
    source: R,
    before: Option<Tally>,
    piece: Piece,
    of: PhantomData<B>,
    ghost came: { Follows B.bytes (R.left source) (R.failed source) before piece },
}

impl<R: Source, B: Origin> Followed<R, B> {
    /// A source none of whose bytes came. Requires that the origin is its bytes.
    pub fn new(source: R) -> Self
        requires { R.left source ≡ B.bytes }
        ensures { ⟦<Followed<R, B> as Source>⟧.left result ≡ B.bytes }
    {
        Followed {
            source,
            before: Some(Tally::new()),
            piece: Piece::new(),
            of: PhantomData,
        }
    }

    /// The place of the last byte that came before the last `held` ones, which are of the last piece.
    pub fn place(&self, held: usize, measure: Measure) -> Place
        ensures { IsPlaceOf B.bytes (⟦<Followed<R, B> as Source>⟧.left self.now)
            (⟦<Followed<R, B> as Source>⟧.failed self.now) measure result }
    {
        let piece = self.piece.bytes();
        let end = piece.len().saturating_sub(held);
        match with_last(self.before, &piece[..end]) {
            Some(tally) => tally.place(measure),
            None => Place::Whole,
        }
    }
}

impl<R: Source, B: Origin> Source for Followed<R, B> {
    ghost left = { λ s. R.left s.source };

    ghost failed = { λ s. R.failed s.source };

    ghost pulls = { λ s. R.pulls s.source };

    fn pull(&mut self, buf: &mut [u8]) -> Result<usize, StreamFault> {
        let count = pull_piece(&mut self.source, buf)?;
        self.before = with_last(self.before, self.piece.bytes());
        self.piece.set(&buf[..count]);
        Ok(count)
    }
}

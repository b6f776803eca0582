//! A source and a sink for tests, which give and take bytes in parts and fail where they are told to.

ghost use Rattle.std.specs.Prelude.{◌≡◌, ◌<◌, ◌≤◌, ◌+◌, ◌⊎◌, [], Some, false, take, length, vec_capacity, vec_len, IfOk, IfNone, IfSome, IsSomeAnd, IsTrue, IsErr, OnErr, is_err};
ghost use Rattle.std.specs.Io.KnownBytes.{Consumes, Appends, Keeps, IsAtEnd};
ghost use Rattle.std.specs.Option.{ForSome};

use crate::memory::MemoryError;
use crate::stream::{Sink, Source, StreamFault};
use std::alloc::Global;

/// A source over memory, for tests: it gives a few bytes a call, and may fail.
#[derive(Drop)]
pub struct Parts {
    bytes: Vec<u8>,
    given: usize,
    most: usize,
    limit: Option<usize>,
    failed: bool,
    ghost in_range: { given ≤ vec_len bytes },
    ghost some: { 0 < most },
}

impl Parts {
    ghost use Rattle.aig_base.specs.Devices.{left_of, given_of, most_given, fails_after, source_failed, IsRoom};

    /// Returns a source of these bytes that gives at most `p` of them a call, and fails after `j` bytes where `j` is
    /// given.
    ///
    /// With `j` past the bytes it ends and doesn't fail.
    ///
    /// # Requirements
    ///
    /// - `p` is not 0.
    pub fn new(bytes: Vec<u8>, p: usize, j: Option<usize>) -> Self
        requires { 0 < p }
        ensures left { left_of result ≡ Some bytes.items }
        ensures sound { source_failed result ≡ false }
        ensures given { given_of result ≡ 0 }
        ensures most { most_given result ≡ p }
        ensures fails { fails_after result ≡ j }
    {
        Parts {
            bytes,
            given: 0,
            most: p,
            limit: j,
            failed: false,
        }
    }

    /// Returns how many bytes are left up to the end and to where it fails, or `None` where it has to fail.
    fn room(&self) -> Option<usize>
        ensures none { IfNone result (IsTrue (source_failed self.now)
            ⊎ IsSomeAnd (fails_after self.now) (λ j. j ≤ given_of self.now)) }
        ensures some { IfSome result (λ n. IsRoom self.now n) }
    {
        if self.failed {
            return None;
        }
        let left = self.bytes.len() - self.given;
        match self.limit {
            None => Some(left),
            Some(j) if self.given < j => Some(left.min(j - self.given)),
            Some(_) => None,
        }
    }
}

impl Source for Parts {
    ghost use Rattle.aig_base.specs.Devices.{left_of, left_count, given_of, most_given, fails_after, source_failed};

    ghost left = { left_of };

    ghost failed = { source_failed };

    ghost pulls = { left_count };

    fn pull(&mut self, buf: &mut [u8]) -> Result<usize, StreamFault>
        ensures bound { IfOk result (λ n. n ≤ length buf.new) }
        ensures moved { IfOk result
            (λ n. Consumes (left_of self.old) (left_of self.new) (take n buf.new)) }
        ensures end { IfOk result (λ n. n ≡ 0 → 0 < length buf.new → IsAtEnd (left_of self.new)) }
        ensures fewer { IfOk result (λ n. 0 < n → left_count self.new < left_count self.old) }
        ensures tells { source_failed self.new ≡ is_err result }
        ensures for_good { IsTrue (source_failed self.old) → IsErr result }

        // At most p bytes move in a call.
        ensures most { IfOk result (λ n. n ≤ most_given self.old) }
        ensures counted { IfOk result (λ n. given_of self.new ≡ given_of self.old + n) }

        // It fails once it gave j bytes, never gives more, and fails for no other reason.
        ensures within { IfOk result
            (λ n. ForSome (fails_after self.old) (λ j. given_of self.new ≤ j)) }
        ensures spent { IsSomeAnd (fails_after self.old) (λ j. j ≤ given_of self.old)
            → IsErr result }
        ensures reason { OnErr result (IsTrue (source_failed self.old)
            ⊎ IsSomeAnd (fails_after self.old) (λ j. j ≤ given_of self.old)) }
        ensures same_most { most_given self.new ≡ most_given self.old }
        ensures same_limit { fails_after self.new ≡ fails_after self.old }
    {
        let Some(room) = self.room() else {
            self.failed = true;
            return Err(StreamFault::Failed);
        };
        let n = room.min(self.most).min(buf.len());
        let end = self.given + n;
        buf[..n].copy_from_slice(&self.bytes[self.given..end]);
        self.given = end;
        Ok(n)
    }
}

/// A sink over memory, for tests: it takes a few bytes a call, and fails after some.
#[derive(Drop)]
pub struct Taker {
    taken: Vec<u8>,
    most: usize,
    room: usize,
    failed: bool,
    ghost some: { 0 < most },
    ghost roomy: { vec_len taken + room ≤ vec_capacity taken },
}

impl Taker {
    ghost use Rattle.aig_base.specs.Devices.{held_by, most_taken, room_of, sink_failed};

    /// Returns a sink that takes at most `p` bytes a call, and fails after `j` bytes, for which it has room from the
    /// start.
    ///
    /// # Requirements
    ///
    /// - `p` is not 0.
    ///
    /// # Errors
    ///
    /// - `Memory`: memory was refused.
    pub fn new(alloc: Global, p: usize, j: usize) -> Result<Self, MemoryError>
        requires { 0 < p }
        ensures held { IfOk result (λ t. held_by t ≡ Some []) }
        ensures sound { IfOk result (λ t. sink_failed t ≡ false) }
        ensures most { IfOk result (λ t. most_taken t ≡ p) }
        ensures room { IfOk result (λ t. room_of t ≡ j) }
    {
        Ok(Taker {
            taken: Vec::with_capacity(alloc, j)?,
            most: p,
            room: j,
            failed: false,
        })
    }

    /// Returns the bytes that it holds.
    pub fn bytes(&self) -> &[u8]
        ensures { held_by self.now ≡ Some result.now }
    {
        self.taken.as_slice()
    }
}

impl Sink for Taker {
    ghost use Rattle.aig_base.specs.Devices.{held_by, most_taken, room_of, sink_failed};

    ghost held = { held_by };

    ghost failed = { sink_failed };

    fn put(&mut self, piece: &[u8]) -> Result<usize, StreamFault>
        ensures bound { IfOk result (λ n. n ≤ length piece.now) }
        ensures moved { IfOk result
            (λ n. Appends (held_by self.old) (held_by self.new) (take n piece.now)) }
        ensures some { IfOk result (λ n. n ≡ 0 → length piece.now ≡ 0) }
        ensures kept { OnErr result (Keeps (held_by self.old) (held_by self.new)) }
        ensures tells { sink_failed self.new ≡ is_err result }
        ensures for_good { IsTrue (sink_failed self.old) → IsErr result }

        // At most p bytes move in a call.
        ensures most { IfOk result (λ n. n ≤ most_taken self.old) }
        ensures counted { IfOk result (λ n. room_of self.old ≡ room_of self.new + n) }

        // It fails at a byte past the j that it took, and for no other reason.
        ensures full { 0 < length piece.now → room_of self.old ≡ 0 → IsErr result }
        ensures reason { OnErr result
            (IsTrue (sink_failed self.old) ⊎ (room_of self.old ≡ 0) × (0 < length piece.now)) }
        ensures same_most { most_taken self.new ≡ most_taken self.old }
    {
        if self.failed || (self.room == 0 && !piece.is_empty()) {
            self.failed = true;
            return Err(StreamFault::Failed);
        }
        let n = piece.len().min(self.most).min(self.room);
        if self.taken.extend_from_slice(&piece[..n]).is_err() {
            unreachable!();
        }
        self.room -= n;
        Ok(n)
    }
}

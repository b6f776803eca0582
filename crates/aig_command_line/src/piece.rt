//! The bytes that came last.

ghost use Rattle.std.specs.Prelude.{◌≡◌, ◌≤◌, ◌^◌, [], List, ℕ, length, take};

use std::marker::Model;

/// How many bytes a piece has at most.
pub(crate) const MOST: usize = 1 << 14;

/// Writes these bytes over the first ones.
fn write_front(bytes: &mut [u8], piece: &[u8])
    requires { length piece.now ≤ length bytes.old }
    ensures { take (length piece.now) bytes.new ≡ piece.now }
{
    bytes[..piece.len()].copy_from_slice(piece);
}

/// The bytes that came last, at most 2^14.
pub(crate) struct Piece {
    bytes: [u8; MOST],
    len: usize,
}

impl Drop for Piece {
    fn drop(self) {
        let Piece { bytes: _, len: _ } = self;
    }
}

impl Model for Piece {
    ghost Value = { List ℕ };

    ghost view = { λ p. take p.len p.bytes };

    ghost invariant = { λ p. p.len ≤ 2 ^ 14 };
}

impl Piece {
    /// No bytes.
    pub(crate) fn new() -> Self
        ensures { result ≡ [] }
    {
        Piece {
            bytes: [0; MOST],
            len: 0,
        }
    }

    /// The bytes.
    pub(crate) fn bytes(&self) -> &[u8]
        ensures value { result.now ≡ self.now }
        ensures few { length result.now ≤ 2 ^ 14 }
    {
        &self.bytes[..self.len]
    }

    /// Puts these bytes in their place.
    pub(crate) fn set(&mut self, piece: &[u8])
        requires { length piece.now ≤ 2 ^ 14 }
        ensures { self.new ≡ piece.now }
    {
        write_front(&mut self.bytes, piece);
        self.len = piece.len();
    }
}

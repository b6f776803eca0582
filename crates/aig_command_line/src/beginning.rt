//! The first bytes of a file.

ghost use Rattle.std.specs.Prelude.{◌≤◌, [], ◌≡◌, ◌++◌, IfSome, length, take};

use aig_base::FromRead;
use aig_lexer::{Header, InputBuffer, header_line};

/// How many bytes are kept: more than a header line has, unless its numbers begin with zeros.
const SIZE: usize = 256;

/// The first bytes of a piece.
fn front(piece: &[u8], count: usize) -> &[u8]
    ensures exact { result.now ≡ take count piece.now }
    ensures short { length result.now ≤ count }
{
    if count < piece.len() {
        &piece[..count]
    } else {
        piece
    }
}

/// The first bytes of a file.
#[derive(Clone, Copy)]
pub struct Beginning {
    bytes: [u8; SIZE],
    len: usize,
    ghost few: { len ≤ 256 },
}

impl Beginning {
    ghost use Rattle.aig_command_line.specs.Beginnings.{HasHeader, beginning_of};

    /// No bytes.
    pub fn new() -> Self
        ensures { beginning_of result ≡ [] }
    {
        Beginning {
            bytes: [0; SIZE],
            len: 0,
        }
    }

    /// The first bytes, where a piece comes after these.
    pub fn with(self, piece: &[u8]) -> Self
        ensures { beginning_of result ≡ take 256 (beginning_of self ++ piece.now) }
    {
        let piece = front(piece, SIZE - self.len);
        let mut bytes = self.bytes;
        let end = self.len + piece.len();
        bytes[self.len..end].copy_from_slice(piece);
        Beginning { bytes, len: end }
    }

    /// The header of an AIGER file that begins so, where these bytes have all of it.
    // It is never inlined: else its buffer is on the stack of whoever calls it from the start.
    #[inline(never)]
    pub fn header(&self) -> Option<Header>
        ensures { IfSome result (HasHeader (beginning_of self.now)) }
    {
        let mut source = FromRead::new(&self.bytes[..self.len]);
        match header_line(&mut InputBuffer::new(), &mut source) {
            Ok(header) => Some(header),
            Err(_) => None,
        }
    }
}

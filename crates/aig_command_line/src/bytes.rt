//! Single bytes of a piece.

ghost use Rattle.std.specs.List.{list_any};
ghost use Rattle.std.specs.Prelude.{◌≡◌, ◌==◌, ◌≤◌, get_or, length, take};
ghost use Rattle.aig_command_line.specs.Counts.{feeds_in};

/// How many bytes are counted in a byte.
const FEW: usize = 128;

/// How many line feeds there are in a few bytes. They are counted in a byte, so that a processor may count many of them at once.
fn feeds_in_few(bytes: &[u8]) -> u8
    requires { length bytes.now ≤ 128 }
    ensures count { result ≡ feeds_in bytes.now }
    ensures few { result ≤ length bytes.now }
{
    let mut feeds = 0;
    for byte in bytes {
        feeds += u8::from(*byte == b'\n');
    }
    feeds
}

/// How many line feeds there are.
pub(crate) fn feeds_in(bytes: &[u8]) -> u64
    ensures count { result ≡ feeds_in bytes.now }
    ensures few { result ≤ length bytes.now }
{
    let mut feeds = 0;
    for few in bytes.chunks(FEW) {
        feeds += u64::from(feeds_in_few(few));
    }
    feeds
}

/// The byte at a place, or 0 past the last.
pub(crate) fn byte_at(bytes: &[u8], i: usize) -> u8
    ensures { result ≡ get_or bytes.now i 0 }
{
    if i < bytes.len() { bytes[i] } else { 0 }
}

/// Whether a byte 0 is among so many at the front.
pub(crate) fn has_zero(bytes: &[u8], count: usize) -> bool
    ensures { result ≡ list_any (λ b. b == 0) (take count bytes.now) }
{
    bytes.iter().take(count).any(|b| *b == 0)
}

//! Paths as they are told.

ghost use Rattle.std.specs.Prelude.{◌≡◌, ◌<◌, Some};
ghost use Rattle.aig_command_line.specs.Shown.{hex_digit, shown_byte, shown_path};

use std::fmt::{self, Display};

/// A hexadecimal digit.
fn hex_digit(value: u8) -> char
    requires { value < 16 }
    ensures { result ≡ hex_digit value }
{
    char::from(if value < 10 {
        b'0' + value
    } else {
        b'a' - 10 + value
    })
}

/// A byte of a path as it is told.
#[derive(Clone, Copy)]
struct ShownByte {
    byte: u8,
}

impl Display for ShownByte {
    ghost output = { λ shown. Some (shown_byte shown.byte) };

    fn fmt<W: fmt::Write>(&self, f: &mut fmt::Formatter<W>) -> fmt::Result {
        let byte = self.byte;
        if 32 <= byte && byte <= 126 {
            write!(f, "{}", char::from(byte))
        } else {
            write!(f, "\\x{}{}", hex_digit(byte / 16), hex_digit(byte % 16))
        }
    }
}

/// A path as it is told: each byte that isn't printable ASCII as `\x` and two hexadecimal digits, so that no name drives a terminal or
/// looks like another line.
#[derive(Clone, Copy)]
pub struct ShownPath<'a> {
    /// The path.
    pub path: &'a str,
}

impl<'a> Display for ShownPath<'a> {
    ghost output = { λ shown. Some (shown_path shown.path.now) };

    fn fmt<W: fmt::Write>(&self, f: &mut fmt::Formatter<W>) -> fmt::Result {
        for byte in self.path.as_bytes() {
            let byte = *byte;
            ShownByte { byte }.fmt(f)?;
        }
        Ok(())
    }
}

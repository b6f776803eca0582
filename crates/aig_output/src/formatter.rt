//! A formatter, as what a text is written to.

ghost use Rattle.std.specs.Prelude.{⊤};
ghost use Rattle.std.specs.Fmt.{HasWrittenStyled, IsFlush};

use crate::out::TextOut;
use std::fmt;
use std::fmt::{Formatter, Write};
use std::str::from_utf8;

/// It takes UTF-8 alone, which each piece of a text form is, and passes over the options of a placeholder.
impl<W: Write> TextOut for Formatter<W> {
    type Error = fmt::Error;

    // If it indents nothing, the text was written.
    ghost wrote = { λ f text g. IsFlush f → HasWrittenStyled W.write_str_gives f text g };

    // Of a failed write nothing is known.
    ghost stopped = { λ _ _ _. ⊤ };

    fn write_bytes(&mut self, piece: &[u8]) -> fmt::Result {
        match from_utf8(piece) {
            Ok(text) => self.write_str(text),
            Err(_) => Err(fmt::Error),
        }
    }

    fn write_front(&mut self, piece: &[u8], count: usize) -> fmt::Result {
        self.write_bytes(&piece[..count])
    }
}

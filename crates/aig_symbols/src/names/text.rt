//! A name's bytes, and the comment.

ghost use Rattle.std.specs.Prelude.{string_bytes};
ghost use Rattle.std.specs.Str.{is_utf8};
ghost use Rattle.aig_format.specs.Parse.{parse_if, parse_text};
ghost use Rattle.aig_lexer.specs.Takes.{Gives, Makes, feed};
ghost use Rattle.aig_symbols.specs.Names.{name_cause};
ghost use Rattle.aig_symbols.specs.NameSteps.{TakesRest};

use aig_base::{Source, StreamFault};
use aig_lexer::{InputBuffer, LineError, append};
use std::alloc::Global;

/// Reads a name that is kept, up to the line feed, which is not of it: it has to be UTF-8.
pub fn kept_text<R: Source>(
    alloc: Global,
    buffer: &mut InputBuffer,
    r: &mut R,
) -> Result<String, LineError>
    ensures { Gives name_cause (λ text. string_bytes text)
        (feed R.left R.failed R.pulls buffer.old r.old)
        (feed R.left R.failed R.pulls buffer.new r.new) result (parse_if parse_text is_utf8) }
{
    let mut bytes = Vec::new(alloc);
    loop {
        match buffer.next(r) {
            Ok(Some(b'\n')) => return String::from_utf8(bytes).or(Err(LineError::Syntax)),
            Ok(Some(byte)) => append(&mut bytes, byte)?,
            Ok(None) => return Err(LineError::Syntax),
            Err(_) => return Err(LineError::Stream),
        }
    }
}

/// Reads a name that is dropped, up to the line feed, and holds none of it.
pub fn skip_text<R: Source>(buffer: &mut InputBuffer, r: &mut R) -> Result<(), LineError>
    ensures { Makes name_cause (λ _ _. Unit {0})
        (feed R.left R.failed R.pulls buffer.old r.old)
        (feed R.left R.failed R.pulls buffer.new r.new) result parse_text }
{
    loop {
        match buffer.next(r) {
            Ok(Some(b'\n')) => return Ok(()),
            Ok(Some(_)) => {}
            Ok(None) => return Err(LineError::Syntax),
            Err(_) => return Err(LineError::Stream),
        }
    }
}

/// Reads up to the end of the stream.
pub fn skip_rest<R: Source>(buffer: &mut InputBuffer, r: &mut R) -> Result<(), StreamFault>
    ensures { TakesRest (feed R.left R.failed R.pulls buffer.old r.old)
        (feed R.left R.failed R.pulls buffer.new r.new) result }
{
    loop {
        match buffer.next(r) {
            Ok(Some(_)) => {}
            Ok(None) => return Ok(()),
            Err(fault) => return Err(fault),
        }
    }
}

//! Words of a line of a solver's answer.

ghost use Rattle.std.specs.Prelude.{◌≡◌};
ghost use Rattle.aig_lexer.specs.Takes.{feed};
ghost use Rattle.aig_witness.specs.Lines.{GivesNumber, GivesWord, end_of};
ghost use Rattle.aig_witness.specs.SolverAnswers.{is_blank, is_end};

use crate::solutions::error::SolutionError;
use aig_base::Source;
use aig_lexer::{InputBuffer, LexError, digits_from};

/// How a word ends.
#[derive(Clone, Copy, Debug, PartialEq, Eq)]
pub(crate) enum End {
    /// A blank comes.
    Blank,
    /// A line feed comes.
    Line,
    /// The stream ends.
    Stream,
}

/// Whether a byte may stand between words: a space, a tab or a carriage return.
pub(crate) fn is_blank(byte: u8) -> bool
    ensures { result ≡ is_blank byte }
{
    matches!(byte, b' ' | b'\t' | b'\r')
}

/// How a byte ends a word, if it does.
pub(crate) fn end_of(byte: u8) -> Option<End>
    ensures { result ≡ end_of byte }
{
    if byte == b'\n' {
        Some(End::Line)
    } else if is_blank(byte) {
        Some(End::Blank)
    } else {
        None
    }
}

/// A literal of a solution.
#[derive(Clone, Copy)]
pub(crate) struct Word {
    /// The number of its variable, from 1 on, or 0 for the end of the solution.
    pub(crate) number: u32,
    /// Whether it has no minus in front.
    pub(crate) positive: bool,
    /// How it ends.
    pub(crate) end: End,
}

impl Word {
    /// Whether it is the 0 after the last literal.
    pub(crate) fn is_end(&self) -> bool
        ensures { result ≡ is_end (self.now.positive, self.now.number) }
    {
        self.positive && self.number == 0
    }
}

/// Reads the digits of a number of which this is the first: their value, and how they end.
fn read_digits<R: Source>(
    buffer: &mut InputBuffer,
    r: &mut R,
    first: u8,
) -> Result<(u32, End), SolutionError>
    ensures { GivesNumber first (feed R.left R.failed R.pulls buffer.old r.old)
        (feed R.left R.failed R.pulls buffer.new r.new) result }
{
    if !first.is_ascii_digit() {
        return Err(SolutionError::Literal);
    }
    let (number, next) = match digits_from(buffer, r, (first - b'0') as u64) {
        Ok(number) => number,
        Err(LexError::Stream) => return Err(SolutionError::Stream),
        Err(LexError::Shape) => return Err(SolutionError::Literal),
    };
    let Some(b) = next else {
        return Ok((number, End::Stream));
    };
    let Some(end) = end_of(b) else {
        return Err(SolutionError::Literal);
    };
    Ok((number, end))
}

/// Reads the literal that begins with this byte.
pub(crate) fn read_word<R: Source>(
    buffer: &mut InputBuffer,
    r: &mut R,
    first: u8,
) -> Result<Word, SolutionError>
    ensures { GivesWord first (feed R.left R.failed R.pulls buffer.old r.old)
        (feed R.left R.failed R.pulls buffer.new r.new) result }
{
    if first == b'-' {
        return read_inverted(buffer, r);
    }
    let (number, end) = read_digits(buffer, r, first)?;
    Ok(Word {
        number,
        positive: true,
        end,
    })
}

/// Reads the literal that begins with a minus, which was read before.
fn read_inverted<R: Source>(buffer: &mut InputBuffer, r: &mut R) -> Result<Word, SolutionError>
    ensures { GivesWord 45 (feed R.left R.failed R.pulls buffer.old r.old)
        (feed R.left R.failed R.pulls buffer.new r.new) result }
{
    let Some(digit) = buffer.next(r)? else {
        return Err(SolutionError::Literal);
    };
    let (number, end) = read_digits(buffer, r, digit)?;
    Ok(Word {
        number,
        positive: false,
        end,
    })
}

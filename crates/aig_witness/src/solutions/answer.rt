//! The line of a solver's answer.

ghost use Rattle.std.specs.Prelude.{◌≡◌, ◌<◌, length};
ghost use Rattle.aig_lexer.specs.Takes.{feed};
ghost use Rattle.aig_witness.specs.declared.solutions.words.End.TheVariants as ends;
ghost use Rattle.aig_witness.specs.Lines.{EndsAnswer, FindsName, GivesName, TakesAnswer};
ghost use Rattle.aig_witness.specs.SolverAnswers.{take_name};

use crate::solutions::error::SolutionError;
use crate::solutions::words::{End, end_of, is_blank};
use aig_base::Source;
use aig_lexer::InputBuffer;

/// The most bytes that are held of the name of an answer, more than any has.
const LONGEST: usize = 16;

/// Whether the answer of this name is `SATISFIABLE`.
fn take_name(name: &[u8]) -> Result<(), SolutionError>
    ensures { result ≡ take_name name.now }
{
    if name == b"SATISFIABLE".as_slice() {
        Ok(())
    } else if name == b"UNSATISFIABLE".as_slice() {
        Err(SolutionError::Unsatisfiable)
    } else if name == b"UNKNOWN".as_slice() {
        Err(SolutionError::Unknown)
    } else {
        Err(SolutionError::Answer)
    }
}

/// Reads past blanks to the first byte of a name, in the line of an answer after its first byte.
fn read_gap<R: Source>(buffer: &mut InputBuffer, r: &mut R) -> Result<u8, SolutionError>
    ensures { FindsName (feed R.left R.failed R.pulls buffer.old r.old)
        (feed R.left R.failed R.pulls buffer.new r.new) result }
{
    let Some(gap) = buffer.next(r)? else {
        return Err(SolutionError::Answer);
    };
    if !is_blank(gap) {
        return Err(SolutionError::Answer);
    }
    while let Some(b) = buffer.next(r)? {
        if b == b'\n' {
            return Err(SolutionError::Answer);
        }
        if !is_blank(b) {
            return Ok(b);
        }
    }
    Err(SolutionError::Answer)
}

/// Reads the name that begins with this byte: how many bytes it has, and how it ends. Requires room for the first.
fn read_name<R: Source>(
    buffer: &mut InputBuffer,
    r: &mut R,
    first: u8,
    name: &mut [u8],
) -> Result<(usize, End), SolutionError>
    requires { 0 < length name.old }
    ensures name { GivesName first (feed R.left R.failed R.pulls buffer.old r.old)
        (feed R.left R.failed R.pulls buffer.new r.new) result name.new }
    ensures room { length name.new ≡ length name.old }
{
    name[0] = first;
    let mut count = 1;
    while let Some(b) = buffer.next(r)? {
        if let Some(end) = end_of(b) {
            return Ok((count, end));
        }
        if count >= name.len() {
            return Err(SolutionError::Answer);
        }
        name[count] = b;
        count += 1;
    }
    Ok((count, End::Stream))
}

/// Reads blanks up to the end of the line of an answer, and says whether a line feed ends it.
fn read_blanks<R: Source>(buffer: &mut InputBuffer, r: &mut R) -> Result<bool, SolutionError>
    ensures { EndsAnswer ends.Blank (feed R.left R.failed R.pulls buffer.old r.old)
        (feed R.left R.failed R.pulls buffer.new r.new) result }
{
    while let Some(b) = buffer.next(r)? {
        if b == b'\n' {
            return Ok(true);
        }
        if !is_blank(b) {
            return Err(SolutionError::Answer);
        }
    }
    Ok(false)
}

/// Reads the rest of the line of an answer, after its name, and says whether a line feed ends it.
fn end_answer<R: Source>(
    buffer: &mut InputBuffer,
    r: &mut R,
    end: End,
) -> Result<bool, SolutionError>
    ensures { EndsAnswer end (feed R.left R.failed R.pulls buffer.old r.old)
        (feed R.left R.failed R.pulls buffer.new r.new) result }
{
    match end {
        End::Blank => read_blanks(buffer, r),
        End::Line => Ok(true),
        End::Stream => Ok(false),
    }
}

/// Reads the line of an answer after its `s`, and says whether a line feed ends it. Other answers than `SATISFIABLE` are
/// refused.
pub(crate) fn read_answer<R: Source>(
    buffer: &mut InputBuffer,
    r: &mut R,
) -> Result<bool, SolutionError>
    ensures { TakesAnswer (feed R.left R.failed R.pulls buffer.old r.old)
        (feed R.left R.failed R.pulls buffer.new r.new) result }
{
    let mut name = [0; LONGEST];
    let first = read_gap(buffer, r)?;
    let (count, end) = read_name(buffer, r, first, &mut name)?;
    let is_line = end_answer(buffer, r, end)?;
    take_name(&name[..count])?;
    Ok(is_line)
}

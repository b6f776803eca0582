//! Lines of values of a solver's answer.

ghost use Rattle.std.specs.Prelude.{◌≡◌, ◌≢◌, [], ◌∷◌, IfOk, MatchResult};
ghost use Rattle.aig_lexer.specs.Takes.{feed};
ghost use Rattle.aig_witness.specs.Lines.{TakesValues, reached_by, said_from, words_said};
ghost use Rattle.aig_witness.specs.SolverAnswers.{with_literal};

use crate::solutions::error::SolutionError;
use crate::solutions::words::{End, Word, end_of, read_word};
use aig_base::{Lbool, Source};
use aig_lexer::InputBuffer;

/// How far a line of values was read.
#[derive(Clone, Copy, Debug, PartialEq, Eq)]
pub(crate) enum Reached {
    /// To the end of a word.
    Word,
    /// To the 0 after the last literal.
    Zero,
    /// To its end.
    Line,
    /// To the end of the stream.
    Stream,
}

/// Gives the variable of a literal its value.
fn set_value(values: &mut [Lbool], word: &Word) -> Result<(), SolutionError>
    ensures { let said = with_literal values.old (word.now.positive, word.now.number) in
        MatchResult result (λ _. said ≡ Ok values.new) (λ e. said ≡ Err e) }
{
    let Some(variable) = word.number.checked_sub(1) else {
        return Err(SolutionError::Literal);
    };
    let variable = variable as usize;
    if variable >= values.len() {
        return Err(SolutionError::Variable);
    }
    let value = if word.positive {
        Lbool::TRUE
    } else {
        Lbool::FALSE
    };
    if values[variable] == !value {
        return Err(SolutionError::Clash);
    }
    values[variable] = value;
    Ok(())
}

/// How far a line was read where this comes after a word.
fn reached_by(end: End) -> Reached
    ensures { result ≡ reached_by end }
{
    match end {
        End::Blank => Reached::Word,
        End::Line => Reached::Line,
        End::Stream => Reached::Stream,
    }
}

/// Reads the literal that begins with this byte, and gives its variable its value.
fn read_literal<R: Source>(
    buffer: &mut InputBuffer,
    r: &mut R,
    values: &mut [Lbool],
    first: u8,
) -> Result<Reached, SolutionError>
    ensures { TakesValues (words_said (first ∷ []))
        (feed R.left R.failed R.pulls buffer.old r.old)
        (feed R.left R.failed R.pulls buffer.new r.new) values.old result values.new }
{
    let word = read_word(buffer, r, first)?;
    if word.is_end() {
        return Ok(Reached::Zero);
    }
    set_value(values, &word)?;
    Ok(reached_by(word.end))
}

/// Reads on in a line from this byte: past a blank, or a literal.
fn read_from<R: Source>(
    buffer: &mut InputBuffer,
    r: &mut R,
    values: &mut [Lbool],
    first: u8,
) -> Result<Reached, SolutionError>
    ensures { TakesValues (λ answered values bytes. words_said [] answered values (first ∷ bytes))
        (feed R.left R.failed R.pulls buffer.old r.old)
        (feed R.left R.failed R.pulls buffer.new r.new) values.old result values.new }
{
    match end_of(first) {
        Some(end) => Ok(reached_by(end)),
        None => read_literal(buffer, r, values, first),
    }
}

/// Reads the literals of a line, up to the 0 or to the end of the line.
fn read_literals<R: Source>(
    buffer: &mut InputBuffer,
    r: &mut R,
    values: &mut [Lbool],
) -> Result<Reached, SolutionError>
    ensures values { TakesValues (words_said [])
        (feed R.left R.failed R.pulls buffer.old r.old)
        (feed R.left R.failed R.pulls buffer.new r.new) values.old result values.new }
    ensures ends { IfOk result (λ reached. reached ≢ Reached.Word) }
{
    while let Some(b) = buffer.next(r)? {
        match read_from(buffer, r, values, b)? {
            Reached::Word => {}
            reached => return Ok(reached),
        }
    }
    Ok(Reached::Stream)
}

/// Reads a line of values after its `v`, up to the 0 or to its end.
pub(crate) fn read_values<R: Source>(
    buffer: &mut InputBuffer,
    r: &mut R,
    values: &mut [Lbool],
) -> Result<Reached, SolutionError>
    ensures values { TakesValues (said_from (118 ∷ []))
        (feed R.left R.failed R.pulls buffer.old r.old)
        (feed R.left R.failed R.pulls buffer.new r.new) values.old result values.new }
    ensures ends { IfOk result (λ reached. reached ≢ Reached.Word) }
{
    let Some(b) = buffer.next(r)? else {
        return Ok(Reached::Stream);
    };
    let Some(end) = end_of(b) else {
        return Err(SolutionError::Line);
    };
    match end {
        End::Blank => read_literals(buffer, r, values),
        _ => Ok(reached_by(end)),
    }
}

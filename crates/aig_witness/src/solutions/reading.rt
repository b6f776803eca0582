//! Reading solvers' answers, as in the SAT competitions.

ghost use Rattle.std.specs.Prelude.{◌≡◌, false, IfOk, replicate};
ghost use Rattle.aig_base.specs.declared.logic.three.Lbool.TheVariants.{NONE};
ghost use Rattle.aig_lexer.specs.Takes.{feed};
ghost use Rattle.aig_witness.specs.Lines.{SaysAnswer, AnswersLast, FindsLine, GoesOnAnswered, TakesValueLine};
ghost use Rattle.aig_witness.specs.SolverAnswers.{GivesSolution, lines_of, solution_from, wrong_end};

use crate::solutions::answer::read_answer;
use crate::solutions::error::SolutionError;
use crate::solutions::values::{Reached, read_values};
use crate::solutions::words::end_of;
use aig_base::{Lbool, MemoryError, Source, StreamFault};
use aig_lexer::InputBuffer;
use std::alloc::Global;

/// The first byte of the next line that is neither empty nor a comment, past blanks, if there is one.
fn first_byte<R: Source>(buffer: &mut InputBuffer, r: &mut R) -> Result<Option<u8>, StreamFault>
    ensures { FindsLine (feed R.left R.failed R.pulls buffer.old r.old)
        (feed R.left R.failed R.pulls buffer.new r.new) result }
{
    let mut is_comment = false;
    while let Some(b) = buffer.next(r)? {
        if is_comment {
            is_comment = b != b'\n';
        } else if b == b'c' {
            is_comment = true;
        } else {
            match end_of(b) {
                Some(_) => {}
                None => return Ok(Some(b)),
            }
        }
    }
    Ok(None)
}

/// Reads the line of the answer after all values, past lines that say nothing.
fn read_last_answer<R: Source>(buffer: &mut InputBuffer, r: &mut R) -> Result<(), SolutionError>
    ensures { AnswersLast (feed R.left R.failed R.pulls buffer.old r.old)
        (feed R.left R.failed R.pulls buffer.new r.new) result }
{
    let Some(first) = first_byte(buffer, r)? else {
        return Err(SolutionError::Answer);
    };
    if first != b's' {
        return Err(SolutionError::Answer);
    }
    read_answer(buffer, r)?;
    Ok(())
}

/// What is wrong where the lines end, by whether an answer was read.
fn wrong_end(is_answered: bool) -> SolutionError
    ensures { result ≡ wrong_end is_answered }
{
    if is_answered {
        SolutionError::Unfinished
    } else {
        SolutionError::Answer
    }
}

/// Reads the line of the answer after its first byte, which other lines are to follow.
fn read_answered<R: Source>(buffer: &mut InputBuffer, r: &mut R) -> Result<(), SolutionError>
    ensures { GoesOnAnswered (feed R.left R.failed R.pulls buffer.old r.old)
        (feed R.left R.failed R.pulls buffer.new r.new) result }
{
    if !read_answer(buffer, r)? {
        return Err(SolutionError::Unfinished);
    }
    Ok(())
}

/// Reads a line of values after its first byte, and says whether all lines were read up to the answer and to the 0.
fn read_value_line<R: Source>(
    buffer: &mut InputBuffer,
    r: &mut R,
    values: &mut [Lbool],
    is_answered: bool,
) -> Result<bool, SolutionError>
    ensures { TakesValueLine is_answered (feed R.left R.failed R.pulls buffer.old r.old)
        (feed R.left R.failed R.pulls buffer.new r.new) values.old result values.new }
{
    match read_values(buffer, r, values)? {
        Reached::Stream => Err(wrong_end(is_answered)),
        Reached::Zero if is_answered => Ok(true),
        Reached::Zero => {
            read_last_answer(buffer, r)?;
            Ok(true)
        }
        _ => Ok(false),
    }
}

/// Reads lines up to the answer and to the 0 of the values, whichever comes last.
fn read_lines<R: Source>(
    buffer: &mut InputBuffer,
    r: &mut R,
    values: &mut [Lbool],
) -> Result<(), SolutionError>
    ensures { SaysAnswer (λ bytes. solution_from false values.old (lines_of bytes))
        (feed R.left R.failed R.pulls buffer.old r.old)
        (feed R.left R.failed R.pulls buffer.new r.new) result values.new }
{
    let mut is_answered = false;
    while let Some(first) = first_byte(buffer, r)? {
        if first == b'v' {
            if read_value_line(buffer, r, values, is_answered)? {
                return Ok(());
            }
        } else if is_answered {
            return Err(SolutionError::Line);
        } else if first == b's' {
            read_answered(buffer, r)?;
            is_answered = true;
        } else {
            return Err(SolutionError::Answer);
        }
    }
    Err(wrong_end(is_answered))
}

/// No values.
fn no_values(alloc: Global, variables: usize) -> Result<Vec<Lbool>, MemoryError>
    ensures { IfOk result (λ values. values.items ≡ replicate variables NONE) }
{
    Ok(vec![in alloc; Lbool::NONE; variables]?)
}

/// Reads a solver's answer to clauses of so many variables, and returns the value of each: unknown where the solver says
/// nothing of it.
///
/// The answer is a line `s SATISFIABLE`, and lines of `v` and literals, of which a 0 ends the last, after it or before it; what
/// follows both is not read. A literal is the number of its variable and one more, with a minus where it is inverted. Blanks
/// are spaces, tabs and carriage returns; lines of these alone, and those that begin with `c`, are passed over. (The output of
/// the SAT competitions.) It takes memory for the values, and reads through a buffer of 16,384 bytes.
///
/// # Errors
///
/// `Unsatisfiable` and `Unknown` where the solver answers so, `Answer` where a line that is none of these, or the end, comes
/// before the answer; `Line`, `Literal`, `Variable` and `Clash` name the first fault of other lines, and `Unfinished` a missing
/// 0; `Stream` where a read failed; `Memory`.
#[inline(never)]
pub fn read_solution<R: Source>(
    alloc: Global,
    r: &mut R,
    variables: usize,
) -> Result<Vec<Lbool>, SolutionError>
    // Of known bytes, memory and the stream aside, these are the values that they say, or the error is theirs.
    ensures { GivesSolution (R.left r.old) variables (R.failed r.new) result }
{
    let mut buffer = InputBuffer::new();
    let mut values = no_values(alloc, variables)?;
    read_lines(&mut buffer, r, &mut values)?;
    Ok(values)
}

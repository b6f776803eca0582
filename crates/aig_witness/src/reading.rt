//! Reading witnesses.

ghost use Rattle.std.specs.Prelude.{◌≡◌, ◌∷◌, []};
ghost use Rattle.aig_lexer.specs.Takes.{Gives, feed};
ghost use Rattle.aig_witness.specs.Faults.{EndsLine, GivesClaim, GivesNext, GivesOr, IsFault, IsFaultAfterStatus, property_cause, values_cause};
ghost use Rattle.aig_witness.specs.Reading.{kind_of_letter, parse_claim, parse_kind, parse_parts, parse_property, parse_row_after, parse_steps_after, parse_values, value_of_letter};
ghost use Rattle.aig_witness.specs.Witness.{claim_by, parts_of, rows_of, values_of};

use crate::error::WitnessError;
use crate::witness::{Claim, PropertyKind, Witness};
use aig_base::{Lbool, Source, StreamFault};
use aig_lexer::{InputBuffer, LexError, append, ended};
use std::alloc::Global;

/// The value of a letter, if it is that of one.
fn value_of(letter: u8) -> Option<Lbool>
    ensures { result ≡ value_of_letter letter }
{
    match letter {
        b'0' => Some(Lbool::FALSE),
        b'1' => Some(Lbool::TRUE),
        b'x' => Some(Lbool::NONE),
        _ => None,
    }
}

/// Reads a line of values whose first byte, which was read before, is `first`.
fn read_row<R: Source>(
    alloc: Global,
    buffer: &mut InputBuffer,
    r: &mut R,
    first: u8,
) -> Result<Vec<Lbool>, WitnessError>
    ensures { Gives values_cause (λ row. row.items)
        (feed R.left R.failed R.pulls buffer.old r.old)
        (feed R.left R.failed R.pulls buffer.new r.new) result
        (λ bs. parse_row_after [] (first ∷ bs)) }
{
    let mut row = Vec::new(alloc);
    let mut letter = first;
    while letter != b'\n' {
        let Some(value) = value_of(letter) else {
            return Err(WitnessError::Values);
        };
        append(&mut row, value)?;
        let Some(next) = buffer.next(r)? else {
            return Err(WitnessError::Values);
        };
        letter = next;
    }
    Ok(row)
}

/// Reads a line of values.
fn read_state<R: Source>(
    alloc: Global,
    buffer: &mut InputBuffer,
    r: &mut R,
) -> Result<Vec<Lbool>, WitnessError>
    ensures { Gives values_cause (λ row. row.items)
        (feed R.left R.failed R.pulls buffer.old r.old)
        (feed R.left R.failed R.pulls buffer.new r.new) result (parse_row_after []) }
{
    let Some(first) = buffer.next(r)? else {
        return Err(WitnessError::Values);
    };
    read_row(alloc, buffer, r, first)
}

/// Whether the next byte is a line feed, which is read.
fn ends_line<R: Source>(buffer: &mut InputBuffer, r: &mut R) -> Result<bool, StreamFault>
    ensures { EndsLine (feed R.left R.failed R.pulls buffer.old r.old)
        (feed R.left R.failed R.pulls buffer.new r.new) result }
{
    match buffer.next(r)? {
        Some(b'\n') => Ok(true),
        _ => Ok(false),
    }
}

/// Reads lines of values, up to the line of a point.
fn read_steps<R: Source>(
    alloc: Global,
    buffer: &mut InputBuffer,
    r: &mut R,
) -> Result<Vec<Vec<Lbool>>, WitnessError>
    ensures { Gives values_cause (λ steps. rows_of steps.items)
        (feed R.left R.failed R.pulls buffer.old r.old)
        (feed R.left R.failed R.pulls buffer.new r.new) result (parse_steps_after [] []) }
{
    let mut steps = Vec::new(alloc);
    while let Some(first) = buffer.next(r)? {
        if first == b'.' {
            if !ends_line(buffer, r)? {
                return Err(WitnessError::Values);
            }
            return Ok(steps);
        }
        let row = read_row(alloc, buffer, r, first)?;
        append(&mut steps, row)?;
    }
    Err(WitnessError::Values)
}

/// The kind of property of a letter, if it is that of one; those of justice may be left out.
fn kind_of(letter: u8, justice: bool) -> Option<PropertyKind>
    ensures { result ≡ kind_of_letter justice letter }
{
    match letter {
        b'b' => Some(PropertyKind::Bad),
        b'j' => {
            if justice {
                Some(PropertyKind::Justice)
            } else {
                None
            }
        }
        _ => None,
    }
}

/// Reads the letter of a kind of property.
fn read_kind<R: Source>(
    buffer: &mut InputBuffer,
    r: &mut R,
    justice: bool,
) -> Result<PropertyKind, WitnessError>
    ensures { Gives property_cause (λ kind. kind)
        (feed R.left R.failed R.pulls buffer.old r.old)
        (feed R.left R.failed R.pulls buffer.new r.new) result (parse_kind justice) }
{
    let Some(letter) = buffer.next(r)? else {
        return Err(WitnessError::Property);
    };
    match kind_of(letter, justice) {
        Some(kind) => Ok(kind),
        None => Err(WitnessError::Property),
    }
}

/// Reads the line of a property: the letter of its kind, and its number.
fn read_property<R: Source>(
    buffer: &mut InputBuffer,
    r: &mut R,
    justice: bool,
) -> Result<(PropertyKind, u32), WitnessError>
    ensures { Gives property_cause (λ property. property)
        (feed R.left R.failed R.pulls buffer.old r.old)
        (feed R.left R.failed R.pulls buffer.new r.new) result (parse_property justice) }
{
    let kind = read_kind(buffer, r, justice)?;
    match ended(buffer, r, b'\n') {
        Ok(number) => Ok((kind, number)),
        Err(LexError::Stream) => Err(WitnessError::Stream),
        Err(LexError::Shape) => Err(WitnessError::Property),
    }
}

/// Reads the lines of values: the state, and the inputs at each step.
fn read_values<R: Source>(
    alloc: Global,
    buffer: &mut InputBuffer,
    r: &mut R,
) -> Result<(Vec<Lbool>, Vec<Vec<Lbool>>), WitnessError>
    ensures { Gives values_cause values_of
        (feed R.left R.failed R.pulls buffer.old r.old)
        (feed R.left R.failed R.pulls buffer.new r.new) result parse_values }
{
    let state = read_state(alloc, buffer, r)?;
    let steps = read_steps(alloc, buffer, r)?;
    Ok((state, steps))
}

/// Reads the lines after the status line.
fn read_parts<R: Source>(
    alloc: Global,
    buffer: &mut InputBuffer,
    r: &mut R,
    justice: bool,
) -> Result<Claim, WitnessError>
    ensures { GivesOr (IsFaultAfterStatus justice) parts_of
        (feed R.left R.failed R.pulls buffer.old r.old)
        (feed R.left R.failed R.pulls buffer.new r.new) result (parse_parts justice) }
{
    let (kind, bad) = read_property(buffer, r, justice)?;
    let (state, steps) = read_values(alloc, buffer, r)?;
    let witness = Witness { bad, state, steps };
    Ok(Claim { kind, witness })
}

/// Reads a witness whose first byte, which was read before, is `first`.
fn read_after<R: Source>(
    alloc: Global,
    buffer: &mut InputBuffer,
    r: &mut R,
    justice: bool,
    first: u8,
) -> Result<Claim, WitnessError>
    ensures { GivesOr (λ e bs. IsFault justice e (first ∷ bs)) claim_by
        (feed R.left R.failed R.pulls buffer.old r.old)
        (feed R.left R.failed R.pulls buffer.new r.new) result
        (λ bs. parse_claim justice (first ∷ bs)) }
{
    if first != b'1' {
        return Err(WitnessError::Status);
    }
    if !ends_line(buffer, r)? {
        return Err(WitnessError::Status);
    }
    read_parts(alloc, buffer, r, justice)
}

/// Reads the next witness of a stream, after comments, or returns none where only comments are left (AIGER 1.9, "Witness
/// format"). It is of a bad state property, or, where `justice` says that these are taken, of a justice property.
///
/// A witness is the line `1`, a line `b` or `j` and the number of one property of that kind, a line of a value for each latch, a
/// line of a value for each input for every step, and the line `.`. A value is `0`, `1` or `x`. A comment is a line that begins
/// with `c`; it stands between witnesses, and its line may be ended by the stream. Other statuses than `1` and lists of
/// properties are refused.
///
/// # Errors
///
/// `Status`, `Property` and `Values` name the first line that is malformed or cut; `Stream` where a read failed; `Memory`.
pub fn read_claim<R: Source>(
    alloc: Global,
    buffer: &mut InputBuffer,
    r: &mut R,
    justice: bool,
) -> Result<Option<Claim>, WitnessError>
    // A witness stands after comments in the bytes that were taken, whatever follows them; or these are comments alone, and
    // nothing follows; or the error names the first line after comments that is malformed in known bytes, or a read failed.
    ensures { GivesClaim justice (feed R.left R.failed R.pulls buffer.old r.old)
        (feed R.left R.failed R.pulls buffer.new r.new) result }
{
    let mut inside = false;
    while let Some(b) = buffer.next(r)? {
        if inside {
            inside = b != b'\n';
        } else if b == b'c' {
            inside = true;
        } else {
            let claim = read_after(alloc, buffer, r, justice, b)?;
            return Ok(Some(claim));
        }
    }
    Ok(None)
}

/// Reads the next witness of a bad state of a stream, after comments, or returns none where only comments are left (AIGER 1.9,
/// "Witness format").
///
/// It is read as `read_claim` reads it, and witnesses of justice properties are refused.
///
/// # Errors
///
/// `Status`, `Property` and `Values` name the first line that is malformed or cut; `Stream` where a read failed; `Memory`.
pub fn read_witness<R: Source>(
    alloc: Global,
    buffer: &mut InputBuffer,
    r: &mut R,
) -> Result<Option<Witness>, WitnessError>
    // As of `read_claim`, of a bad state property alone.
    ensures { GivesNext (feed R.left R.failed R.pulls buffer.old r.old)
        (feed R.left R.failed R.pulls buffer.new r.new) result }
{
    match read_claim(alloc, buffer, r, false)? {
        Some(claim) => Ok(Some(claim.witness)),
        None => Ok(None),
    }
}

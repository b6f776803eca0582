//! Latches, a line each.

ghost use Rattle.std.specs.Prelude.{◌≡◌, ℕ, ◌+◌, ◌^◌, ◌<◌, ◌≤◌, List, Option, [], ◌∷◌, ◌++◌, length, map};
ghost use Rattle.aig_format.specs.declared.FileKind.{FileKind};
ghost use Rattle.aig_format.specs.Parse.{parse_entries};
ghost use Rattle.aig_format.specs.File.{LatchLine};
ghost use Rattle.aig_lexer.specs.Faults.{Tested, line_cause};
ghost use Rattle.aig_lexer.specs.Takes.{Makes, feed};
ghost use Rattle.aig_reader.specs.Rules.{allows, edge_of_reset, greatest_by, latch_from, parse_latch_by};
ghost use Rattle.aig_reader.specs.Variables.{AreDefined, HasNext};

use crate::edges::edge_within;
use crate::variables::DefinedVariables;
use aig_base::Source;
use aig_circuit::{AigEdge, AigLatch};
use aig_lexer::{InputBuffer, LineError, append, next_line};

/// Which resets a latch may have, beside none and its own literal.
#[derive(Clone, Copy)]
pub enum Resets {
    /// 0 and 1, as AIGER 1.9 says.
    Values,
    /// Any literal, as certificates have them.
    Functions,
}

impl Resets {
    /// The greatest variable of a reset, where this is that of the file.
    fn greatest(self, greatest: u32) -> u32
        ensures { result ≡ greatest_by self greatest }
    {
        match self {
            Resets::Values => 0,
            Resets::Functions => greatest,
        }
    }
}

/// The initial edge of a latch with this literal and reset: none where the reset is the latch's literal, else that of the reset, which is
/// 0 where none is written.
fn initial_edge(
    resets: Resets,
    greatest: u32,
    literal: u32,
    reset: Option<u32>,
) -> Result<Option<AigEdge>, LineError>
    ensures { (next : ℕ)
        → let l : LatchLine = record { literal = literal; next = next; reset = reset } in
        Tested line_cause (allows resets greatest l) (λ init. init ≡ edge_of_reset l) result }
{
    let reset = reset.unwrap_or(0);
    if reset == literal {
        return Ok(None);
    }
    Ok(Some(edge_within(resets.greatest(greatest), reset)?))
}

/// Reads a latch line, and defines the latch's variable.
fn latch_line<R: Source>(
    buffer: &mut InputBuffer,
    r: &mut R,
    resets: Resets,
    greatest: u32,
    variables: &mut DefinedVariables,
) -> Result<AigLatch, LineError>
    requires { HasNext variables.old }
    ensures { (kind : FileKind) (inputs : List ℕ) (before : List LatchLine)
        → AreDefined kind greatest variables.old (inputs ++ map (λ l. l.literal) before)
        → Makes line_cause (λ latch line. (latch ≡ latch_from line)
        × AreDefined kind greatest variables.new
        ((inputs ++ map (λ l. l.literal) before) ++ line.literal ∷ []))
        (feed R.left R.failed R.pulls buffer.old r.old)
        (feed R.left R.failed R.pulls buffer.new r.new) result
        (parse_latch_by resets kind greatest inputs before) }
{
    let literal = variables.own_literal(buffer, r, b' ')?;
    let (next, reset) = next_line(buffer, r)?;
    let input = variables.define(literal)?;
    let next = edge_within(greatest, next)?;
    let init = initial_edge(resets, greatest, literal, reset)?;
    Ok(AigLatch::new(input, next, init))
}

/// Reads the latches, defines their variables, and appends them. `greatest` is the greatest variable.
pub fn read_latches<R: Source>(
    buffer: &mut InputBuffer,
    r: &mut R,
    count: u32,
    resets: Resets,
    greatest: u32,
    variables: &mut DefinedVariables,
    latchs: &mut Vec<AigLatch>,
) -> Result<(), LineError>
    requires { (kind : FileKind) × (inputs : List ℕ) × (greatest < 2 ^ 31)
        × (length inputs + count ≤ greatest) × AreDefined kind greatest variables.old inputs }
    ensures { (kind : FileKind) (inputs : List ℕ) → AreDefined kind greatest variables.old inputs
        → Makes line_cause
        (λ _ lines. (latchs.new.items ≡ latchs.old.items ++ map latch_from lines)
        × AreDefined kind greatest variables.new (inputs ++ map (λ l. l.literal) lines))
        (feed R.left R.failed R.pulls buffer.old r.old)
        (feed R.left R.failed R.pulls buffer.new r.new) result
        (parse_entries (parse_latch_by resets kind greatest inputs) [] count) }
{
    for _ in 0..count {
        let latch = latch_line(buffer, r, resets, greatest, variables)?;
        append(latchs, latch)?;
    }
    Ok(())
}

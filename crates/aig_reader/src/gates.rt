//! Gates: in a text file a line each, in a binary file two differences each.

ghost use Rattle.std.specs.Prelude.{◌≡◌, ℕ, ◌+◌, ◌^◌, ◌<◌, ◌≤◌, [], ◌∷◌, ◌++◌, List, length};
ghost use Rattle.aig_format.specs.ParseTested.{may_use, parse_gate_entry};
ghost use Rattle.aig_format.specs.declared.FileKind.{FileKind};
ghost use Rattle.aig_format.specs.declared.FileKind.TheVariants.{Binary};
ghost use Rattle.aig_format.specs.File.{GateLine};
ghost use Rattle.aig_lexer.specs.Faults.{line_cause, word_cause};
ghost use Rattle.aig_lexer.specs.Takes.{Gives, Makes, feed};
ghost use Rattle.aig_reader.specs.Gates.{AreGates, line_of, literals_of};
ghost use Rattle.aig_reader.specs.Variables.{AreDefined};
ghost use Rattle.aig_format.specs.Parse.{parse_entries, parse_operands};

use crate::gate_store::GateStore;
use crate::variables::DefinedVariables;
use aig_base::Source;
use aig_lexer::{InputBuffer, LexError, LineError, delta, pair};
use aig_ordering::Operands;
use std::alloc::Global;

/// Reads two differences: from a gate's literal to its first operand, and from this to its second.
fn differences<R: Source>(
    buffer: &mut InputBuffer,
    r: &mut R,
    lhs: u32,
) -> Result<(u32, u32), LexError>
    ensures { Gives word_cause (λ x. (x.0, x.1))
        (feed R.left R.failed R.pulls buffer.old r.old)
        (feed R.left R.failed R.pulls buffer.new r.new) result (parse_operands Binary lhs) }
{
    let first = delta(buffer, r)?;
    let second = delta(buffer, r)?;
    if first > lhs || second > lhs - first {
        return Err(LexError::Shape);
    }
    Ok((lhs - first, lhs - first - second))
}

/// Reads the operands of the gate that defines this literal.
fn operands<R: Source>(
    buffer: &mut InputBuffer,
    r: &mut R,
    variables: &DefinedVariables,
    lhs: u32,
) -> Result<(u32, u32), LexError>
    ensures { (kind : FileKind) (greatest : ℕ) (before : List ℕ)
        → AreDefined kind greatest variables.now before
        → Gives word_cause (λ x. (x.0, x.1))
        (feed R.left R.failed R.pulls buffer.old r.old)
        (feed R.left R.failed R.pulls buffer.new r.new) result (parse_operands kind lhs) }
{
    match variables {
        DefinedVariables::Text(_) => pair(buffer, r),
        DefinedVariables::Binary(_) => differences(buffer, r, lhs),
    }
}

/// Whether a gate's operands may be used: in a text file each literal of a variable up to the greatest, in a binary file where the
/// first is below the gate's literal.
fn are_usable(variables: &DefinedVariables, lhs: u32, operands: Operands) -> bool
    ensures { (kind : FileKind) (greatest : ℕ) (before : List ℕ)
        → AreDefined kind greatest variables.now before
        → result ≡ may_use kind greatest (line_of lhs operands) }
{
    match variables {
        DefinedVariables::Text(marks) => {
            operands.rhs0 / 2 <= marks.greatest && operands.rhs1 / 2 <= marks.greatest
        }
        DefinedVariables::Binary(_) => operands.rhs0 < lhs,
    }
}

/// Reads a gate, defines its variable, and puts it in its place.
fn gate_line<R: Source>(
    alloc: Global,
    buffer: &mut InputBuffer,
    r: &mut R,
    variables: &mut DefinedVariables,
    gates: &mut GateStore,
) -> Result<(), LineError>
    requires { (kind : FileKind) × (greatest : ℕ) × (leaves : List ℕ) × (before : List GateLine)
        × (greatest < 2 ^ 31) × (length (leaves ++ literals_of before) < greatest)
        × AreGates kind greatest leaves before variables.old gates.old }
    ensures { (kind : FileKind) (greatest : ℕ) (leaves : List ℕ) (before : List GateLine)
        → length (leaves ++ literals_of before) < greatest
        → AreGates kind greatest leaves before variables.old gates.old
        → Makes line_cause
        (λ _ gate. AreGates kind greatest leaves (before ++ gate ∷ []) variables.new gates.new)
        (feed R.left R.failed R.pulls buffer.old r.old)
        (feed R.left R.failed R.pulls buffer.new r.new) result
        (parse_gate_entry kind greatest leaves before) }
{
    let lhs = variables.own_literal(buffer, r, b' ')?;
    let (rhs0, rhs1) = operands(buffer, r, variables, lhs)?;
    let operands = Operands { rhs0, rhs1 };
    if !are_usable(variables, lhs, operands) {
        return Err(LineError::Literal);
    }
    variables.define(lhs)?;
    gates.put(alloc, variables, lhs, operands)?;
    Ok(())
}

/// Reads the gates, defines their variables, and puts them in their places.
// In a frame of its own, so that the registers are its loop's alone.
#[inline(never)]
pub fn read_gates<R: Source>(
    alloc: Global,
    buffer: &mut InputBuffer,
    r: &mut R,
    count: u32,
    variables: &mut DefinedVariables,
) -> Result<GateStore, LineError>
    requires { (kind : FileKind) × (greatest : ℕ) × (leaves : List ℕ) × (greatest < 2 ^ 31)
        × (length leaves + count ≤ greatest) × AreDefined kind greatest variables.old leaves }
    ensures { (kind : FileKind) (greatest : ℕ) (leaves : List ℕ)
        → length leaves + count ≤ greatest → AreDefined kind greatest variables.old leaves
        → Makes line_cause
        (λ held gates. AreGates kind greatest leaves gates variables.new held)
        (feed R.left R.failed R.pulls buffer.old r.old)
        (feed R.left R.failed R.pulls buffer.new r.new) result
        (parse_entries (parse_gate_entry kind greatest leaves) [] count) }
{
    let mut gates = GateStore::new(alloc)?;
    for _ in 0..count {
        gate_line(alloc, buffer, r, variables, &mut gates)?;
    }
    Ok(gates)
}

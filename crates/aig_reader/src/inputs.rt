//! Inputs: in a text file a line each, in a binary file the first variables.

ghost use Rattle.std.specs.Prelude.{◌≡◌, ℕ, ◌^◌, ◌<◌, ◌≤◌, List, [], ◌∷◌, ◌++◌, map};
ghost use Rattle.aig_format.specs.declared.FileKind.{FileKind};
ghost use Rattle.aig_format.specs.Parse.{parse_entries};
ghost use Rattle.aig_format.specs.ParseTested.{parse_input_entry};
ghost use Rattle.aig_lexer.specs.Faults.{line_cause};
ghost use Rattle.aig_lexer.specs.Takes.{Makes, feed};
ghost use Rattle.aig_ordering.specs.Lists.{variable_of_literal};
ghost use Rattle.aig_reader.specs.Variables.{AreDefined, HasNext};

use crate::variables::DefinedVariables;
use aig_base::Source;
use aig_lexer::{InputBuffer, LineError, append};

/// Reads an input, and defines its variable.
fn input_line<R: Source>(
    buffer: &mut InputBuffer,
    r: &mut R,
    variables: &mut DefinedVariables,
) -> Result<usize, LineError>
    requires { HasNext variables.old }
    ensures { (kind : FileKind) (greatest : ℕ) (before : List ℕ)
        → AreDefined kind greatest variables.old before
        → Makes line_cause (λ id literal. (id ≡ variable_of_literal literal)
        × AreDefined kind greatest variables.new (before ++ literal ∷ []))
        (feed R.left R.failed R.pulls buffer.old r.old)
        (feed R.left R.failed R.pulls buffer.new r.new) result
        (parse_input_entry kind greatest before) }
{
    let literal = variables.own_literal(buffer, r, b'\n')?;
    variables.define(literal)
}

/// Reads the inputs, defines their variables, and appends these. Memory is reserved for those that have no lines alone.
pub fn read_inputs<R: Source>(
    buffer: &mut InputBuffer,
    r: &mut R,
    count: u32,
    variables: &mut DefinedVariables,
    inputs: &mut Vec<usize>,
) -> Result<(), LineError>
    requires { (kind : FileKind) × (greatest : ℕ) × (greatest < 2 ^ 31) × (count ≤ greatest)
        × AreDefined kind greatest variables.old [] }
    ensures { (kind : FileKind) (greatest : ℕ) → AreDefined kind greatest variables.old []
        → Makes line_cause
        (λ _ literals. (inputs.new.items ≡ inputs.old.items ++ map variable_of_literal literals)
        × AreDefined kind greatest variables.new literals)
        (feed R.left R.failed R.pulls buffer.old r.old)
        (feed R.left R.failed R.pulls buffer.new r.new) result
        (parse_entries (parse_input_entry kind greatest) [] count) }
{
    let unread = match variables {
        DefinedVariables::Text(_) => 0,
        DefinedVariables::Binary(_) => count as usize,
    };
    inputs.reserve(unread)?;
    for _ in 0..count {
        let input = input_line(buffer, r, variables)?;
        append(inputs, input)?;
    }
    Ok(())
}

//! The lines of the sections.

ghost use Rattle.std.specs.Prelude.{◌≡◌, ◌+◌, ◌^◌, ◌<◌, ◌≤◌, ◌==◌, [], true};
ghost use Rattle.aig_format.specs.Fits.{has_enough};
ghost use Rattle.aig_lexer.specs.Header.{numbers_of};
ghost use Rattle.aig_lexer.specs.Takes.{Makes, feed};
ghost use Rattle.aig_reader.specs.Faults.{section_cause};
ghost use Rattle.aig_reader.specs.Numbered.{AreSectionsOf};
ghost use Rattle.aig_reader.specs.Rules.{parse_sections_by};
ghost use Rattle.aig_reader.specs.Sections.{AreEmpty};
ghost use Rattle.aig_reader.specs.Variables.{AreDefined};

use crate::error::{ReadError, Section, gates_result};
use crate::gates::read_gates;
use crate::inputs::read_inputs;
use crate::latches::{Resets, read_latches};
use crate::properties::read_properties;
use crate::sections::{Lists, Numbered};
use crate::variables::DefinedVariables;
use aig_base::Source;
use aig_lexer::{Header, InputBuffer};
use std::alloc::Global;

/// Reads the lines of the sections after the header line: their entries into empty lists, under the numbers of their nodes,
/// which are returned, with those of the variables.
pub fn read_lines<R: Source>(
    alloc: Global,
    buffer: &mut InputBuffer,
    r: &mut R,
    header: Header,
    resets: Resets,
    variables: &mut DefinedVariables,
    lists: &mut Lists,
) -> Result<Numbered, ReadError>
    requires few { header.greatest < 2 ^ 31 }
    requires good { has_enough header.kind (numbers_of header) ≡ true }
    requires enough { header.inputs + header.latches + header.gates ≤ header.greatest }
    requires defined { AreDefined header.kind header.greatest variables.old [] }
    requires empty { AreEmpty lists.old }
    ensures { Makes section_cause
        (λ numbered. AreSectionsOf header (record { numbered = numbered; lists = lists.new }))
        (feed R.left R.failed R.pulls buffer.old r.old)
        (feed R.left R.failed R.pulls buffer.new r.new) result
        (parse_sections_by resets header.kind (numbers_of header)) }
{
    let inputs = read_inputs(buffer, r, header.inputs, variables, &mut lists.inputs);
    Section::Inputs.result_of(inputs)?;
    let latchs = read_latches(
        buffer,
        r,
        header.latches,
        resets,
        header.greatest,
        variables,
        &mut lists.latchs,
    );
    Section::Latches.result_of(latchs)?;
    read_properties(alloc, buffer, r, header, &mut lists.properties)?;
    let gates = read_gates(alloc, buffer, r, header.gates, variables);
    let gates = gates_result(header.kind, gates)?;
    let is_complete = header.greatest == header.inputs + header.latches + header.gates;
    lists.number(alloc, gates, variables, header.greatest, is_complete)
}

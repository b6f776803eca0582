//! The sections between the latches and the gates.

ghost use Rattle.std.specs.Prelude.{◌≡◌, ◌++◌, map};
ghost use Rattle.aig_circuit.specs.Properties.{no_properties};
ghost use Rattle.aig_circuit.specs.View.{properties_of};
ghost use Rattle.aig_format.specs.ParseTested.{parse_fitting_properties, parse_literals};
ghost use Rattle.aig_lexer.specs.Header.{numbers_of};
ghost use Rattle.aig_lexer.specs.Takes.{Makes, feed};
ghost use Rattle.aig_ordering.specs.Lists.{edge_from};
ghost use Rattle.aig_reader.specs.Faults.{section_cause};
ghost use Rattle.aig_reader.specs.Properties.{ArePropertiesOf};

use crate::edges::read_edges;
use crate::error::{ReadError, Section};
use crate::justice::read_justice;
use aig_base::Source;
use aig_circuit::{AigEdge, Properties};
use aig_lexer::{Header, InputBuffer};
use std::alloc::Global;

/// Reads a section of so many lines of one literal each, and appends their edges. `greatest` is the greatest variable.
fn read_section<R: Source>(
    buffer: &mut InputBuffer,
    r: &mut R,
    section: Section,
    count: u32,
    greatest: u32,
    edges: &mut Vec<AigEdge>,
) -> Result<(), ReadError>
    ensures { Makes section_cause
        (λ _ literals. edges.new.items ≡ edges.old.items ++ map edge_from literals)
        (feed R.left R.failed R.pulls buffer.old r.old)
        (feed R.left R.failed R.pulls buffer.new r.new) result (parse_literals greatest count) }
{
    let lines = read_edges(buffer, r, count, greatest, edges);
    section.result_of(lines)
}

/// Reads outputs, bads, constraints, justice sets and fairness into empty lists.
pub fn read_properties<R: Source>(
    alloc: Global,
    buffer: &mut InputBuffer,
    r: &mut R,
    header: Header,
    properties: &mut Properties<AigEdge>,
) -> Result<(), ReadError>
    requires { properties_of properties.old ≡ no_properties }
    ensures { Makes section_cause (λ _ literals. ArePropertiesOf properties.new literals)
        (feed R.left R.failed R.pulls buffer.old r.old)
        (feed R.left R.failed R.pulls buffer.new r.new) result
        (parse_fitting_properties (numbers_of header)) }
{
    let greatest = header.greatest;
    read_section(
        buffer,
        r,
        Section::Outputs,
        header.outputs,
        greatest,
        &mut properties.outputs,
    )?;
    read_section(
        buffer,
        r,
        Section::Bads,
        header.bads,
        greatest,
        &mut properties.bads,
    )?;
    read_section(
        buffer,
        r,
        Section::Constraints,
        header.constraints,
        greatest,
        &mut properties.constraints,
    )?;
    let sets = read_justice(
        alloc,
        buffer,
        r,
        header.justice,
        greatest,
        &mut properties.justice,
    );
    Section::Justice.result_of(sets)?;
    read_section(
        buffer,
        r,
        Section::Fairness,
        header.fairness,
        greatest,
        &mut properties.fairness,
    )
}

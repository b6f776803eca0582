//! Edges, and lines of one edge each.

ghost use Rattle.std.specs.Prelude.{◌≡◌, ◌++◌, map};
ghost use Rattle.aig_format.specs.Fits.{is_literal};
ghost use Rattle.aig_format.specs.ParseTested.{parse_literals};
ghost use Rattle.aig_format.specs.Parse.{parse_ended, parse_if};
ghost use Rattle.aig_lexer.specs.Faults.{Tested, line_cause};
ghost use Rattle.aig_lexer.specs.Takes.{Makes, feed};
ghost use Rattle.aig_ordering.specs.Lists.{edge_from};

use aig_base::Source;
use aig_circuit::AigEdge;
use aig_lexer::{InputBuffer, LineError, append, ended};
use aig_ordering::edge_of;

/// The edge of a literal, which is that of a variable up to the greatest.
pub fn edge_within(greatest: u32, literal: u32) -> Result<AigEdge, LineError>
    ensures { Tested line_cause (is_literal greatest literal) (λ e. e ≡ edge_from literal) result }
{
    if literal / 2 > greatest {
        return Err(LineError::Literal);
    }
    Ok(edge_of(literal))
}

/// Reads a line of one literal.
fn edge_line<R: Source>(
    buffer: &mut InputBuffer,
    r: &mut R,
    greatest: u32,
) -> Result<AigEdge, LineError>
    ensures { Makes line_cause (λ edge literal. edge ≡ edge_from literal)
        (feed R.left R.failed R.pulls buffer.old r.old)
        (feed R.left R.failed R.pulls buffer.new r.new) result
        (parse_if (parse_ended 10) (is_literal greatest)) }
{
    let literal = ended(buffer, r, b'\n')?;
    edge_within(greatest, literal)
}

/// Reads so many lines of one literal each, and appends their edges. `greatest` is the greatest variable.
pub fn read_edges<R: Source>(
    buffer: &mut InputBuffer,
    r: &mut R,
    count: u32,
    greatest: u32,
    edges: &mut Vec<AigEdge>,
) -> Result<(), LineError>
    ensures { Makes line_cause
        (λ _ literals. edges.new.items ≡ edges.old.items ++ map edge_from literals)
        (feed R.left R.failed R.pulls buffer.old r.old)
        (feed R.left R.failed R.pulls buffer.new r.new) result (parse_literals greatest count) }
{
    for _ in 0..count {
        let edge = edge_line(buffer, r, greatest)?;
        append(edges, edge)?;
    }
    Ok(())
}

//! Justice properties: their sizes, and then their sets, one after the other.

ghost use Rattle.std.specs.Prelude.{◌≡◌, ◌++◌, map};
ghost use Rattle.aig_format.specs.ParseTested.{parse_literal_justice, parse_literal_sets};
ghost use Rattle.aig_format.specs.Parse.{parse_numbers};
ghost use Rattle.aig_lexer.specs.Faults.{line_cause};
ghost use Rattle.aig_lexer.specs.Takes.{Makes, feed};
ghost use Rattle.aig_ordering.specs.Lists.{edge_from};

use crate::edges::read_edges;
use aig_base::Source;
use aig_circuit::AigEdge;
use aig_lexer::{InputBuffer, LineError, append, ended};
use std::alloc::Global;

/// Reads so many lines of one size each, and appends the sizes.
fn read_sizes<R: Source>(
    buffer: &mut InputBuffer,
    r: &mut R,
    count: u32,
    sizes: &mut Vec<u32>,
) -> Result<(), LineError>
    ensures { Makes line_cause (λ _ numbers. sizes.new.items ≡ sizes.old.items ++ numbers)
        (feed R.left R.failed R.pulls buffer.old r.old)
        (feed R.left R.failed R.pulls buffer.new r.new) result (parse_numbers count) }
{
    for _ in 0..count {
        let size = ended(buffer, r, b'\n')?;
        append(sizes, size)?;
    }
    Ok(())
}

/// Reads a set of edges for each size, a line each, and appends the sets. `greatest` is the greatest variable.
fn read_sets<R: Source>(
    alloc: Global,
    buffer: &mut InputBuffer,
    r: &mut R,
    sizes: &[u32],
    greatest: u32,
    sets: &mut Vec<Vec<AigEdge>>,
) -> Result<(), LineError>
    ensures { Makes line_cause (λ _ literals. map (λ set. set.items) sets.new.items
        ≡ map (λ set. set.items) sets.old.items ++ map (map edge_from) literals)
        (feed R.left R.failed R.pulls buffer.old r.old)
        (feed R.left R.failed R.pulls buffer.new r.new) result
        (parse_literal_sets greatest sizes.now) }
{
    for size in sizes {
        let mut set = Vec::new(alloc);
        read_edges(buffer, r, *size, greatest, &mut set)?;
        append(sets, set)?;
    }
    Ok(())
}

/// Reads so many sets of edges, a line for the size of each, and then the sets, and appends them. `greatest` is the greatest
/// variable.
pub fn read_justice<R: Source>(
    alloc: Global,
    buffer: &mut InputBuffer,
    r: &mut R,
    count: u32,
    greatest: u32,
    sets: &mut Vec<Vec<AigEdge>>,
) -> Result<(), LineError>
    ensures { Makes line_cause (λ _ literals. map (λ set. set.items) sets.new.items
        ≡ map (λ set. set.items) sets.old.items ++ map (map edge_from) literals)
        (feed R.left R.failed R.pulls buffer.old r.old)
        (feed R.left R.failed R.pulls buffer.new r.new) result
        (parse_literal_justice greatest count) }
{
    let mut sizes = Vec::new(alloc);
    read_sizes(buffer, r, count, &mut sizes)?;
    read_sets(alloc, buffer, r, &sizes, greatest, sets)
}

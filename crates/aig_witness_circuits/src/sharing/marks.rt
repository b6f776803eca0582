//! Marks of nodes.

ghost use Rattle.std.specs.Prelude.{◌≡◌, ◌<◌, IfOk, All, length};
ghost use Rattle.aig_witness_circuits.specs.Marked.{Marks, MarksNodes};

use aig_base::MemoryError;
use std::alloc::Global;

/// Marks these nodes.
fn mark_nodes(marks: &mut [bool], nodes: &[usize])
    requires { All (λ n. n < length marks.old) nodes.now }
    ensures { MarksNodes nodes.now marks.old marks.new }
{
    for n in nodes {
        marks[*n] = true;
    }
}

/// Marks for so many nodes: those of the list.
pub(crate) fn marks_of(
    alloc: Global,
    count: usize,
    nodes: &[usize],
) -> Result<Vec<bool>, MemoryError>
    requires { All (λ n. n < count) nodes.now }
    ensures marks { IfOk result (λ marks. Marks marks.items nodes.now) }
    ensures count { IfOk result (λ marks. length marks.items ≡ count) }
{
    let mut marks = vec![in alloc; false; count]?;
    mark_nodes(&mut marks, nodes);
    Ok(marks)
}

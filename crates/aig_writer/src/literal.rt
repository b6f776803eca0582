//! Literals as they are written. `numbers` is the table of the numbers under which nodes are written: it gives that of node
//! `n` at place `n`, and a node past its end keeps its number. So an empty table changes none.

ghost use Rattle.std.specs.Prelude.{◌≡◌, ◌*◌};
ghost use Rattle.aig_circuit.specs.Edge.{literal_of};
ghost use Rattle.aig_circuit.specs.Renumber.{renumbered_edge, renumbered_latch};
ghost use Rattle.aig_format.specs.Circuit.{reset_of};
ghost use Rattle.aig_writer.specs.Literals.{HasLiteral, IsSmallEdge, IsSmallLatch};
ghost use Rattle.aig_writer.specs.Numbering.{written_number};

use aig_circuit::{AigEdge, AigLatch};

/// The literal of a node: twice its number.
#[inline]
pub(crate) fn node_literal(numbers: &[usize], n: usize) -> usize
    requires { HasLiteral numbers.now n }
    ensures { result ≡ 2 * written_number numbers.now n }
{
    2 * numbers.get(n).copied().unwrap_or(n)
}

/// The literal of an edge: that of its node, and one more where it is inverted.
#[inline]
pub(crate) fn literal(numbers: &[usize], e: AigEdge) -> usize
    requires { IsSmallEdge numbers.now e }
    ensures { result ≡ literal_of (renumbered_edge (written_number numbers.now) e) }
{
    node_literal(numbers, e.node_id()) + usize::from(e.compl())
}

/// The reset of a latch, where one is written: the literal of its initial edge if that is not 0, or its own literal where
/// it has none (AIGER 1.9, "Reset logic").
pub(crate) fn reset_literal(numbers: &[usize], latch: &AigLatch) -> Option<usize>
    requires { IsSmallLatch numbers.now latch.now }
    ensures { result ≡ reset_of (renumbered_latch (written_number numbers.now) latch.now) }
{
    match latch.init() {
        None => Some(node_literal(numbers, latch.input())),
        Some(init) => match literal(numbers, init) {
            0 => None,
            reset => Some(reset),
        },
    }
}

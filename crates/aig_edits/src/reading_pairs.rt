//! Reading two files.

ghost use Rattle.std.specs.Prelude.{◌^◌, ◌≤◌};
ghost use Rattle.aig_edits.specs.Pairs.{ReadsPair};
ghost use Rattle.aig_edits.specs.Joints.{IsOwn, first_verdict, second_verdict};
ghost use Rattle.aig_edits.specs.JointParts.{AreListsOfBoth};

use crate::pair_error::PairError;
use aig_base::Source;
use aig_circuit::CircuitLists;
use std::alloc::Global;

/// Reads two files, the second one only where the first is taken.
pub(crate) fn read_pair<R: Source, S: Source>(
    alloc: Global,
    first: &mut R,
    second: &mut S,
    limit: usize,
) -> Result<(CircuitLists, CircuitLists), PairError>
    requires some { 1 ≤ limit }
    requires few { limit ≤ 2 ^ 31 }
    ensures { ReadsPair R.left R.failed S.left S.failed limit AreListsOfBoth first_verdict
        second_verdict IsOwn first.old second.old result first.new second.new }
{
    let own = aig_reader::read(alloc, first, limit)?;
    match aig_reader::read(alloc, second, limit) {
        Ok(other) => Ok((own, other)),
        Err(error) => Err(PairError::Other(error)),
    }
}

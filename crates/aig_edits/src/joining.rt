//! Joining the circuits of two files.

ghost use Rattle.std.specs.Prelude.{◌^◌, ◌≤◌, IfOk};
ghost use Rattle.aig_circuit.specs.Circuit.{IsCircuit};
ghost use Rattle.aig_circuit.specs.View.{lists_circuit};
ghost use Rattle.aig_edits.specs.Pairs.{ReadsPair};
ghost use Rattle.aig_edits.specs.Joints.{IsOwn, IsJoined, first_verdict, second_verdict};
ghost use Rattle.aig_edits.specs.Circuits.{IsJoinOf};
ghost use Rattle.aig_edits.specs.JointParts.{IsPaired};
ghost use Rattle.aig_edits.specs.declared.pairing.Pairing.TheVariants.{Certificate, Merge, Miter};

use crate::format::fits_format;
use crate::misfit::{certificate_misfit, miter_misfit};
use crate::pair_error::PairError;
use crate::pairing::Pairing;
use crate::reading_pairs::read_pair;
use aig_base::Source;
use aig_change::{merge, merging_is_circuit, merging_pairs_runs};
use aig_circuit::{CircuitLists, CircuitView};
use aig_join::{Comparison, certified_by, miter_by};
use std::alloc::Global;

/// The miter of two circuits, which are compared so, if they fit.
fn miter_of(
    comparison: Comparison,
    first: &CircuitView<'_>,
    second: &CircuitView<'_>,
) -> Result<CircuitLists, PairError>
    ensures { IsPaired (Miter comparison) first.now second.now result }
{
    if let Some(misfit) = miter_misfit(first, second) {
        return Err(PairError::Misfit(misfit));
    }
    Ok(miter_by(comparison, first, second)?)
}

/// The first circuit beside the second, if they fit.
fn certificate_of(
    first: &CircuitView<'_>,
    second: &CircuitView<'_>,
) -> Result<CircuitLists, PairError>
    ensures { IsPaired Certificate first.now second.now result }
{
    if let Some(misfit) = certificate_misfit(first, second) {
        return Err(PairError::Misfit(misfit));
    }
    Ok(certified_by(first, second)?)
}

/// Both circuits side by side.
fn merged_of(first: &CircuitView<'_>, second: &CircuitView<'_>) -> Result<CircuitLists, PairError>
    requires first { IsCircuit first.now }
    requires second { IsCircuit second.now }
    ensures { IsPaired Merge first.now second.now result }
{
    merging_is_circuit();
    merging_pairs_runs();
    let mut lists = first.to_lists()?;
    merge(&mut lists, second)?;
    Ok(lists)
}

/// The joint circuit of two, if they fit.
fn pair_of(
    pairing: Pairing,
    first: &CircuitView<'_>,
    second: &CircuitView<'_>,
) -> Result<CircuitLists, PairError>
    requires first { IsCircuit first.now }
    requires second { IsCircuit second.now }
    ensures { IsPaired pairing first.now second.now result }
{
    match pairing {
        Pairing::Miter(comparison) => miter_of(comparison, first, second),
        Pairing::Certificate => certificate_of(first, second),
        Pairing::Merge => merged_of(first, second),
    }
}

/// The joint circuit of two, if they fit and it isn't too large for the format.
pub(crate) fn join_of(
    pairing: Pairing,
    first: &CircuitLists,
    second: &CircuitLists,
) -> Result<CircuitLists, PairError>
    requires first { IsCircuit (lists_circuit first.now) }
    requires second { IsCircuit (lists_circuit second.now) }
    ensures { IsJoinOf pairing (lists_circuit first.now) (lists_circuit second.now) result }
{
    let lists = pair_of(pairing, &CircuitView::new(first), &CircuitView::new(second))?;
    if fits_format(&CircuitView::new(&lists)) {
        Ok(lists)
    } else {
        Err(PairError::TooLarge)
    }
}

/// Reads two files in the AIGER format, and joins their circuits. The second file is read only where the first is taken.
/// Requires `1 <= limit <= 2^31`.
///
/// Inputs and latches are matched by position, and registers that start alike as a miter says, which says what constraints say, too. A
/// miter is made of files with as many inputs, as many outputs and as many bad literals. A certificate has as many inputs and latches as
/// the file that it stands beside, or more. Any two files are merged.
///
/// # Errors
///
/// - `Read`: the first file is refused.
/// - `Other`: the second file is refused.
/// - `Misfit`: their counts don't fit.
/// - `TooLarge`: the joint circuit has more than 2^31 nodes, or more than 2^32 - 1 entries in a list.
/// - `Memory`: memory was refused after the reading.
/// - `Write`: never.
pub fn read_joint<R: Source, S: Source>(
    alloc: Global,
    pairing: Pairing,
    first: &mut R,
    second: &mut S,
    limit: usize,
) -> Result<CircuitLists, PairError>
    requires some { 1 ≤ limit }
    requires few { limit ≤ 2 ^ 31 }
    // The bytes that were read are two files, and the lists are those of their joint circuit.
    ensures reads { ReadsPair R.left R.failed S.left S.failed limit (IsJoined pairing) first_verdict
        second_verdict IsOwn first.old second.old result first.new second.new }
    ensures circuit { IfOk result (λ lists. IsCircuit (lists_circuit lists)) }
{
    let (own, other) = read_pair(alloc, first, second, limit)?;
    join_of(pairing, &own, &other)
}

//! Which counts of two files don't fit.

ghost use Rattle.aig_edits.specs.JointParts.{MayMisfit};
ghost use Rattle.aig_edits.specs.declared.pairing.Pairing.TheVariants.{Certificate, Miter};
ghost use Rattle.aig_join.specs.declared.comparison.Comparison.{Comparison};

use aig_circuit::CircuitView;
use thiserror::Error;

/// The first counts of two files that don't fit, in the order of the cases: that of the first file, and that of the second.
#[derive(Clone, Copy, Debug, PartialEq, Eq, Error)]
pub enum Misfit {
    /// How many inputs they have.
    #[error("{0} and {1} inputs")]
    Inputs(usize, usize),
    /// How many latches.
    #[error("{0} and {1} latches")]
    Latches(usize, usize),
    /// How many outputs.
    #[error("{0} and {1} outputs")]
    Outputs(usize, usize),
    /// How many bad literals.
    #[error("{0} and {1} bad literals")]
    Bads(usize, usize),
}

/// The first counts by which two circuits have no miter: as many inputs, outputs and bad edges are wanted.
pub(crate) fn miter_misfit(first: &CircuitView<'_>, second: &CircuitView<'_>) -> Option<Misfit>
    ensures { (comparison : Comparison) → MayMisfit (Miter comparison) first.now second.now result }
{
    let (own, other) = (first.inputs().len(), second.inputs().len());
    if own != other {
        return Some(Misfit::Inputs(own, other));
    }
    let (own, other) = (first.outputs().len(), second.outputs().len());
    if own != other {
        return Some(Misfit::Outputs(own, other));
    }
    let (own, other) = (first.bads().len(), second.bads().len());
    if own != other {
        return Some(Misfit::Bads(own, other));
    }
    None
}

/// The first counts by which the second circuit is no certificate of the first: as many inputs and latches are wanted, or more.
pub(crate) fn certificate_misfit(
    first: &CircuitView<'_>,
    second: &CircuitView<'_>,
) -> Option<Misfit>
    ensures { MayMisfit Certificate first.now second.now result }
{
    let (own, other) = (first.inputs().len(), second.inputs().len());
    if other < own {
        return Some(Misfit::Inputs(own, other));
    }
    let (own, other) = (first.latchs().len(), second.latchs().len());
    if other < own {
        return Some(Misfit::Latches(own, other));
    }
    None
}

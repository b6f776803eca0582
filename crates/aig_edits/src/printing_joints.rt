//! Printing the joint circuit of two files.

ghost use Rattle.std.specs.Prelude.{◌≡◌, ◌≢◌, ◌^◌, ◌≤◌};
ghost use Rattle.aig_circuit.specs.Circuit.{IsCircuit};
ghost use Rattle.aig_circuit.specs.View.{lists_circuit};
ghost use Rattle.aig_reader.specs.Verdicts.{Accepted, verdict_by};
ghost use Rattle.aig_edits.specs.Pairs.{OfTwoFiles, ReadsPair};
ghost use Rattle.aig_edits.specs.Joints.{IsOwn, IsUnwritten, PrintsJoint, first_verdict, second_verdict};

use crate::joining::join_of;
use crate::pair_error::PairError;
use crate::pairing::Pairing;
use crate::reading_pairs::read_pair;
use aig_base::{Sink, Source};
use aig_circuit::{CircuitLists, CircuitView};
use aig_writer::write_text;
use std::alloc::Global;

/// Writes the text form of the joint circuit of two circuits to `w`, as `read_joint` makes it. It doesn't flush `w`.
///
/// # Errors
///
/// After `Write` a beginning of the text was written. Every other refusal leaves the writer as it was. Never `Read` or `Other`.
pub fn write_joint<W: Sink>(
    pairing: Pairing,
    first: &CircuitLists,
    second: &CircuitLists,
    w: &mut W,
) -> Result<(), PairError>
    requires first { IsCircuit (lists_circuit first.now) }
    requires second { IsCircuit (lists_circuit second.now) }
    // Of each two files whose circuits they are, what is written is the text form of their joint circuit.
    ensures prints { OfTwoFiles first.now second.now
        (λ f g. PrintsJoint W.held W.failed pairing w.old w.new f g result) }
    ensures never_read { verdict_by first_verdict result ≡ Accepted }
    ensures never_other { verdict_by second_verdict result ≡ Accepted }
    ensures kept { IsUnwritten result → w.new ≡ w.old }
{
    let lists = join_of(pairing, first, second)?;
    Ok(write_text(w, &CircuitView::new(&lists))?)
}

/// Reads two files in the AIGER format, and writes the text form of their joint circuit to `w`, as `read_joint` makes it.
/// It doesn't flush `w`. Requires `1 <= limit <= 2^31`.
///
/// After `Write` a beginning of the text was written. Every other refusal leaves the writer as it was.
pub fn print_joint<R: Source, S: Source, W: Sink>(
    alloc: Global,
    pairing: Pairing,
    first: &mut R,
    second: &mut S,
    limit: usize,
    w: &mut W,
) -> Result<(), PairError>
    requires some { 1 ≤ limit }
    requires few { limit ≤ 2 ^ 31 }
    // The bytes that were read are two files, and what is written is the text form of their joint circuit.
    ensures reads { ReadsPair R.left R.failed S.left S.failed limit
        (PrintsJoint W.held W.failed pairing w.old w.new) first_verdict second_verdict IsOwn
        first.old second.old result first.new second.new }
    ensures kept { IsUnwritten result → w.new ≡ w.old }
{
    let (own, other) = read_pair(alloc, first, second, limit)?;
    write_joint(pairing, &own, &other, w)
}

//! Reading a certificate of a circuit.

ghost use Rattle.std.specs.Prelude.{◌≡◌, ◌^◌, ◌≤◌, IfErr};
ghost use Rattle.aig_circuit.specs.Circuit.{IsCircuit};
ghost use Rattle.aig_circuit.specs.View.{lists_circuit};
ghost use Rattle.aig_edits.specs.Circuits.{IsJoinOf};
ghost use Rattle.aig_edits.specs.Joints.{IsOfBeside, second_verdict};
ghost use Rattle.aig_edits.specs.declared.pairing.Pairing.TheVariants.{Certificate};
ghost use Rattle.aig_format.specs.Circuit.{circuit_of};
ghost use Rattle.aig_format.specs.Fits.{Accepts};
ghost use Rattle.aig_reader.specs.Reading.{IsReadAs};
ghost use Rattle.aig_reader.specs.Verdicts.{Accepted, Judges, verdict_by};

use crate::joining::join_of;
use crate::pair_error::PairError;
use crate::pairing::Pairing;
use aig_base::Source;
use aig_circuit::CircuitLists;
use std::alloc::Global;

/// Reads a file in the AIGER format, a certificate of a circuit, and puts the circuit beside that of the file. Requires
/// `1 <= limit <= 2^31`.
///
/// # Errors
///
/// - `Other`: the file is refused.
/// - `Misfit`: it has fewer inputs or latches than the circuit.
/// - `TooLarge`: the joint circuit has more than 2^31 nodes, or more than 2^32 - 1 entries in a list.
/// - `Memory`: memory was refused after the reading.
/// - `Read`, `Write`: never.
pub fn read_beside<S: Source>(
    alloc: Global,
    circuit: &CircuitLists,
    certificate: &mut S,
    limit: usize,
) -> Result<CircuitLists, PairError>
    requires some { 1 ≤ limit }
    requires few { limit ≤ 2 ^ 31 }
    requires circuit { IsCircuit (lists_circuit circuit.now) }
    // Each file that is accepted is taken, and a refusal says why.
    ensures verdict { Judges (λ _. Accepted) limit (S.left certificate.old)
        (S.left certificate.new) (S.failed certificate.new) (verdict_by second_verdict result) }
    // The bytes that were read are then a file, and the lists are those of the circuit beside that of the file, or it is said why
    // there are none.
    ensures answer { verdict_by second_verdict result ≡ Accepted
        → IsReadAs (λ bytes. Accepts bytes limit)
        (λ g. IsJoinOf Certificate (lists_circuit circuit.now) (circuit_of g))
        (S.left certificate.old) (S.left certificate.new) result }
    ensures own { IfErr result IsOfBeside }
{
    let other = match aig_reader::read(alloc, certificate, limit) {
        Ok(other) => other,
        Err(error) => return Err(PairError::Other(error)),
    };
    join_of(Pairing::Certificate, circuit, &other)
}

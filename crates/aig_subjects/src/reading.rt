//! Reading the files of a subject, and making its circuit of them.

ghost use Rattle.std.specs.Prelude.{◌≡◌, ◌^◌, ◌<◌, ◌≤◌, IfOk, length};
ghost use Rattle.aig_circuit.specs.Circuit.{IsCircuit};
ghost use Rattle.aig_circuit.specs.View.{lists_circuit};
ghost use Rattle.aig_edits.specs.Edits.{ReadsFile};
ghost use Rattle.aig_subjects.specs.Parts.{GivesBeside, IsOfCertificate, ReadsMiter, certificate_verdict};
ghost use Rattle.aig_subjects.specs.Reads.{ReadsFiles};
ghost use Rattle.aig_subjects.specs.Subjects.{Gives, IsOwn, IsReady, file_count, verdicts};

use crate::error::SubjectError;
use crate::laws::subjects_are_of_files;
use crate::subject::{Subject, read_file_subject};
use aig_base::Source;
use aig_circuit::CircuitLists;
use aig_edits::{Comparison, PairError, Pairing, read_beside, read_joint};
use aig_format_laws::files_are_circuits;
use std::alloc::Global;

/// Reads the first two files, and makes their miter.
fn read_miter<S: Source>(
    alloc: Global,
    comparison: Comparison,
    files: &mut [S],
    limit: usize,
) -> Result<CircuitLists, PairError>
    requires some { 1 ≤ limit }
    requires few { limit ≤ 2 ^ 31 }
    requires two { 2 ≤ length files.old }
    ensures reads { ReadsMiter S.left S.failed limit comparison files.old result files.new }
    ensures circuit { IfOk result (λ lists. IsCircuit (lists_circuit lists)) }
{
    let (first, others) = files.split_at_mut(1);
    read_joint(
        alloc,
        Pairing::Miter(comparison),
        &mut first[0],
        &mut others[0],
        limit,
    )
}

/// Reads a certificate, and puts a circuit beside that of it.
fn read_certificate<S: Source>(
    alloc: Global,
    circuit: &CircuitLists,
    certificate: &mut S,
    limit: usize,
) -> Result<CircuitLists, SubjectError>
    requires some { 1 ≤ limit }
    requires few { limit ≤ 2 ^ 31 }
    requires circuit { IsCircuit (lists_circuit circuit.now) }
    ensures reads { ReadsFile S.left S.failed limit (GivesBeside (lists_circuit circuit.now))
        certificate_verdict IsOfCertificate certificate.old result certificate.new }
    ensures circuit { IfOk result (λ lists. IsCircuit (lists_circuit lists)) }
{
    match read_beside(alloc, circuit, certificate, limit) {
        Ok(joint) => Ok(joint),
        Err(error) => Err(SubjectError::Certificate(error)),
    }
}

/// Reads files in the AIGER format, in order, and makes the subject's circuit of them: FILE, then OTHER of a miter, then a certificate.
/// Each is read only where those before it are taken, and a certificate only where the circuit was made that it is to stand beside. Requires
/// `1 <= limit <= 2^31`.
///
/// # Errors
///
/// - `File`: FILE is refused, or has no circuit of the subject.
/// - `Pair`: FILE or OTHER is refused, or they have no miter.
/// - `Certificate`: `Other` where the certificate is refused, and else why it doesn't stand beside the circuit.
pub fn read_subject<S: Source>(
    alloc: Global,
    subject: Subject,
    files: &mut [S],
    limit: usize,
) -> Result<CircuitLists, SubjectError>
    requires some { 1 ≤ limit }
    requires few { limit ≤ 2 ^ 31 }
    requires each { length files.old ≡ file_count subject }
    // The bytes that were read are files, and the lists are those of the subject's circuit, or it is said why there is none.
    ensures reads { ReadsFiles S.left S.failed limit (verdicts subject) (Gives subject) IsOwn
        files.old result files.new }
    // Each question can be asked of it.
    ensures ready { IfOk result (λ lists. IsReady (lists_circuit lists)) }
{
    files_are_circuits();
    subjects_are_of_files();
    match subject {
        Subject::File(own) => Ok(read_file_subject(alloc, own, &mut files[0], limit)?),
        Subject::Miter(comparison) => Ok(read_miter(alloc, comparison, files, limit)?),
        Subject::Certified(own) => {
            let circuit = read_file_subject(alloc, own, &mut files[0], limit)?;
            read_certificate(alloc, &circuit, &mut files[1], limit)
        }
        Subject::MiterCertified(comparison) => {
            let miter = read_miter(alloc, comparison, files, limit)?;
            read_certificate(alloc, &miter, &mut files[2], limit)
        }
    }
}

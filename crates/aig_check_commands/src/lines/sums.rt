//! Circuits that are asked about, and the sums of their files' texts.

ghost use Rattle.std.specs.Prelude.{◌≡◌, ◌≢◌, ◌∷◌, [], IfOk};
ghost use Rattle.aig_circuit.specs.Circuit.{IsCircuit};
ghost use Rattle.aig_circuit.specs.View.{lists_circuit};
ghost use Rattle.aig_command_line.specs.Limits.{IsLimit};
ghost use Rattle.aig_edits.specs.Edits.{IsEditOwn, ReadsFile, edit_verdict};
ghost use Rattle.aig_edits.specs.Joints.{IsOfBeside, second_verdict};
ghost use Rattle.aig_format.specs.Circuit.{text_of};
ghost use Rattle.aig_format.specs.Writable.{FitsFormat};
ghost use Rattle.sha2.specs.Sha256.{sha256};
ghost use Rattle.aig_subjects.specs.Reads.{ReadsFiles};
ghost use Rattle.aig_subjects.specs.Subjects.{IsOwn, IsReady, verdicts};
ghost use Rattle.aig_subjects.specs.declared.subject.FileSubject.TheVariants.{Own};
ghost use Rattle.aig_subjects.specs.declared.subject.Subject.TheVariants.{Certified};
ghost use Rattle.aig_check_commands.specs.Printing.{GivesBeside, GivesJoint, GivesSummed};

use crate::lines::titles::Summed;
use aig_base::{MemoryError, Source, ToWrite};
use aig_circuit::{CircuitLists, CircuitView};
use aig_command_line::Origin;
use aig_edits::{EditError, PairError, read_beside};
use aig_subjects::{FileSubject, SubjectError, read_file_subject};
use aig_writer::write_text;
use sha2::{Digest, Sha256};
use std::alloc::Global;
use std::marker::Brand;

/// The sum of a circuit's text form. The one error is refused memory.
pub(crate) fn text_sum(alloc: Global, circuit: &CircuitLists) -> Result<[u8; 32], MemoryError>
    requires circuit { IsCircuit (lists_circuit circuit.now) }
    requires small { FitsFormat (lists_circuit circuit.now) }
    ensures { IfOk result (λ sum. sum ≡ sha256 (text_of (lists_circuit circuit.now))) }
{
    let mut sink = ToWrite::new(Vec::new(alloc));
    match write_text(&mut sink, &CircuitView::new(circuit)) {
        Ok(()) => Ok(Sha256::digest(sink.into_inner().as_slice())),
        Err(_) => Err(MemoryError::Memory),
    }
}

/// Reads FILE's own circuit, where its bytes are the origin, and sums these.
fn read_own_summed<R: Source + Drop, B: Origin>(
    alloc: Global,
    limit: usize,
    file: R,
) -> Result<(CircuitLists, [u8; 32]), EditError>
    requires origin { R.left file ≡ B.bytes }
    requires limit { IsLimit limit }
    ensures reads { (rest : R) × ReadsFile R.left R.failed limit (GivesSummed Own (R.left file))
        edit_verdict IsEditOwn file result rest }
    ensures ready { IfOk result (λ made. IsReady (lists_circuit made.0)) }
{
    let mut source = Summed::<R, B>::new(file);
    let circuit = read_file_subject(alloc, FileSubject::Own, &mut source, limit)?;
    Ok((circuit, source.finish()))
}

/// Reads FILE, makes a circuit of it that isn't its own, and sums that circuit's text.
fn read_made_summed<R: Source + Drop>(
    alloc: Global,
    limit: usize,
    subject: FileSubject,
    file: R,
) -> Result<(CircuitLists, [u8; 32]), EditError>
    requires limit { IsLimit limit }
    requires made { subject ≢ Own }
    ensures reads { (rest : R) × ReadsFile R.left R.failed limit
        (GivesSummed subject (R.left file)) edit_verdict IsEditOwn file result rest }
    ensures ready { IfOk result (λ made. IsReady (lists_circuit made.0)) }
{
    let mut source = file;
    let circuit = read_file_subject(alloc, subject, &mut source, limit)?;
    let sum = text_sum(alloc, &circuit)?;
    Ok((circuit, sum))
}

/// Reads FILE, and returns the circuit that is asked about and the sum of its text: of FILE's bytes, where it is its own.
pub(crate) fn read_summed<R: Source + Drop>(
    alloc: Global,
    limit: usize,
    subject: FileSubject,
    file: R,
) -> Result<(CircuitLists, [u8; 32]), EditError>
    requires { IsLimit limit }
    ensures reads { (rest : R) × ReadsFile R.left R.failed limit
        (GivesSummed subject (R.left file)) edit_verdict IsEditOwn file result rest }
    ensures ready { IfOk result (λ made. IsReady (lists_circuit made.0)) }
{
    match subject {
        FileSubject::Own => read_own_summed::<R, Brand>(alloc, limit, file),
        _ => read_made_summed(alloc, limit, subject, file),
    }
}

/// Reads a certificate, where its bytes are the origin, puts a circuit beside that of it, and sums the bytes.
fn read_beside_summed<S: Source + Drop, B: Origin>(
    alloc: Global,
    limit: usize,
    circuit: &CircuitLists,
    certificate: S,
) -> Result<(CircuitLists, [u8; 32]), PairError>
    requires origin { S.left certificate ≡ B.bytes }
    requires limit { IsLimit limit }
    requires circuit { IsCircuit (lists_circuit circuit.now) }
    ensures reads { (rest : S) × ReadsFile S.left S.failed limit
        (GivesBeside (lists_circuit circuit.now) (S.left certificate)) second_verdict IsOfBeside
        certificate result rest }
    ensures circuit { IfOk result (λ made. IsCircuit (lists_circuit made.0)) }
{
    let mut source = Summed::<S, B>::new(certificate);
    let joint = read_beside(alloc, circuit, &mut source, limit)?;
    Ok((joint, source.finish()))
}

/// Reads FILE and its certificate, and returns the circuit that is asked about beside that of the certificate, the sum of the text of the
/// first, as `read_summed` does, and that of the certificate's bytes.
pub(crate) fn read_certified<S: Source + Drop>(
    alloc: Global,
    limit: usize,
    own: FileSubject,
    file: S,
    certificate: S,
) -> Result<(CircuitLists, [u8; 32], [u8; 32]), SubjectError>
    requires { IsLimit limit }
    ensures reads { (rest : S) × (other : S)
        × ReadsFiles S.left S.failed limit (verdicts (Certified own))
        (GivesJoint own (S.left file) (S.left certificate)) IsOwn (file ∷ certificate ∷ []) result
        (rest ∷ other ∷ []) }
    ensures circuit { IfOk result (λ made. IsCircuit (lists_circuit made.0)) }
{
    let (circuit, sum) = read_summed(alloc, limit, own, file)?;
    let read = match read_beside_summed::<S, Brand>(alloc, limit, &circuit, certificate) {
        Ok(read) => read,
        Err(error) => return Err(SubjectError::Certificate(error)),
    };
    let (joint, beside) = read;
    Ok((joint, sum, beside))
}

//! What is asked about: of one file, with the reading of its circuit, and of several.

ghost use Rattle.std.specs.Prelude.{◌≡◌, ◌^◌, ◌≤◌, IfOk};
ghost use Rattle.aig_circuit.specs.Circuit.{IsCircuit};
ghost use Rattle.aig_circuit.specs.View.{lists_circuit};
ghost use Rattle.aig_edits.specs.Edits.{IsEditOwn, ReadsFile, edit_verdict};
ghost use Rattle.aig_subjects.specs.FileSubjects.{GivesFile};
ghost use Rattle.aig_subjects.specs.Subjects.{IsReady, file_count};
ghost use Rattle.aig_subjects.specs.declared.subject.FileSubject.TheVariants.{Own};

use crate::laws::subjects_are_of_files;
use aig_base::Source;
use aig_circuit::CircuitLists;
use aig_edits::{Comparison, Edit, EditError, Fairness, read_edit, read_live, read_rounds};
use aig_format_laws::files_are_circuits;
use std::alloc::Global;

/// Which circuit is made of one file.
#[derive(Clone, Copy, Debug, PartialEq, Eq)]
pub enum FileSubject {
    /// The file's own.
    Own,
    /// The live one: its bad states are the fair lassos.
    Live { fairness: Fairness },
    /// The one that counts rounds: its bad states are those by which so many rounds ended.
    Rounds { fairness: Fairness, rounds: usize },
    /// The file's with its bad literal of this number, from 0 on, as the only one.
    Property { number: usize },
    /// The file's with true as its only bad literal: bad wherever a run that meets the constraints has come.
    Possible,
    /// The file's with its outputs as its bad literals: files from before AIGER 1.9 have no others.
    Outputs,
}

/// Reads FILE's own circuit.
fn read_own<R: Source>(alloc: Global, file: &mut R, limit: usize) -> Result<CircuitLists, EditError>
    requires some { 1 ≤ limit }
    requires few { limit ≤ 2 ^ 31 }
    ensures reads { ReadsFile R.left R.failed limit (GivesFile Own) edit_verdict
        IsEditOwn file.old result file.new }
    ensures circuit { IfOk result (λ lists. IsCircuit (lists_circuit lists)) }
{
    files_are_circuits();
    Ok(aig_reader::read(alloc, file, limit)?)
}

/// Reads a file in the AIGER format, and makes a circuit of it. Requires `1 <= limit <= 2^31`.
///
/// # Errors
///
/// - `Read`: the file is refused.
/// - `NoJustice`, `NoBad`, `HasBads`, `TooLarge`, `Memory`: as of `aig_edits::read_live`, `aig_edits::read_rounds` and
///   `aig_edits::read_edit`.
pub fn read_file_subject<R: Source>(
    alloc: Global,
    subject: FileSubject,
    file: &mut R,
    limit: usize,
) -> Result<CircuitLists, EditError>
    requires some { 1 ≤ limit }
    requires few { limit ≤ 2 ^ 31 }
    // The bytes that were read are a file, and the lists are those of its circuit, or it is said why there is none.
    ensures reads { ReadsFile R.left R.failed limit (GivesFile subject) edit_verdict IsEditOwn
        file.old result file.new }
    // Each question can be asked of it.
    ensures ready { IfOk result (λ lists. IsReady (lists_circuit lists)) }
{
    files_are_circuits();
    subjects_are_of_files();
    match subject {
        FileSubject::Own => read_own(alloc, file, limit),
        FileSubject::Live { fairness } => read_live(alloc, fairness, file, limit),
        FileSubject::Rounds { fairness, rounds } => {
            read_rounds(alloc, fairness, rounds, file, limit)
        }
        FileSubject::Property { number } => {
            read_edit(alloc, &Edit::Property(number), file, limit)
        }
        FileSubject::Possible => read_edit(alloc, &Edit::Possible, file, limit),
        FileSubject::Outputs => read_edit(alloc, &Edit::Bads, file, limit),
    }
}

/// What is asked about: which circuit is made of FILE, or of FILE and the files behind it.
#[derive(Clone, Copy, Debug, PartialEq, Eq)]
pub enum Subject {
    /// The circuit of FILE.
    File(FileSubject),
    /// The miter of FILE and OTHER, which are compared so.
    Miter(Comparison),
    /// The circuit of FILE beside that of CERT, its certificate.
    Certified(FileSubject),
    /// The miter of FILE and OTHER beside the circuit of CERT, its certificate.
    MiterCertified(Comparison),
}

impl Subject {
    /// How many files are read.
    pub fn file_count(self) -> usize
        ensures { result ≡ file_count self }
    {
        match self {
            Subject::File(_) => 1,
            Subject::Miter(_) | Subject::Certified(_) => 2,
            Subject::MiterCertified(_) => 3,
        }
    }
}

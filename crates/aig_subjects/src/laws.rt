//! Laws of the circuits of subjects.

ghost use Rattle.std.specs.Prelude.{ℕ, ◌^◌, ◌≤◌, ◌↔◌, List};
ghost use Rattle.aig_circuit.specs.Circuit.{Circuit};
ghost use Rattle.aig_format.specs.File.{File};
ghost use Rattle.aig_format.specs.Fits.{Fits};
ghost use Rattle.aig_runs.specs.Safety.{IsCircuitSafeAt, IsSafeAt};
ghost use Rattle.aig_subjects.specs.Reads.{AreAccepted};
ghost use Rattle.aig_subjects.specs.Shown.{HasNoCertificate, ShowsAlways, ShowsAt};
ghost use Rattle.aig_subjects.specs.Subjects.{IsCircuitOfFile, IsSubject};
ghost use Rattle.aig_subjects.specs.declared.subject.Subject.{Subject};

use aig_edit_laws::{fair_runs_are_lassos, written_circuits_have_witnesses};
use aig_join::{witness_files_certify, written_witnesses_certify};
use aig_runs::safe_circuits_are_safe_machines;

/// Law: the circuit of a subject is that of a file, names aside, and it is safe at a step exactly where the file's machine is.
pub fn subjects_are_of_files()
    ensures { (subject : Subject) (files : List File) (limit : ℕ) (m : Circuit) → limit ≤ 2 ^ 31
        → AreAccepted limit files → IsSubject subject files m
        → (h : File) × (bound : ℕ) × Fits h bound × IsCircuitOfFile m h
        × ((k : ℕ) → IsCircuitSafeAt m k ↔ IsSafeAt h k) }
{
    safe_circuits_are_safe_machines();
    written_witnesses_certify();
}

/// Law: where the circuit of a subject is safe at a step, its files are so that the subject says so of that step; without a certificate
/// exactly there. Where it is safe at every step, they are so that it says so of every step.
pub fn safe_subjects_show()
    ensures step { (subject : Subject) (files : List File) (limit k : ℕ) (m : Circuit)
        → limit ≤ 2 ^ 31 → AreAccepted limit files → IsSubject subject files m
        → IsCircuitSafeAt m k → ShowsAt subject files k }
    ensures exact { (subject : Subject) (files : List File) (limit k : ℕ) (m : Circuit)
        → limit ≤ 2 ^ 31 → AreAccepted limit files → IsSubject subject files m
        → HasNoCertificate subject → ShowsAt subject files k → IsCircuitSafeAt m k }
    ensures always { (subject : Subject) (files : List File) (limit : ℕ) (m : Circuit)
        → limit ≤ 2 ^ 31 → AreAccepted limit files → IsSubject subject files m
        → ((k : ℕ) → IsCircuitSafeAt m k) → ShowsAlways subject files }
{
    fair_runs_are_lassos();
    safe_circuits_are_safe_machines();
    witness_files_certify();
    written_circuits_have_witnesses();
}

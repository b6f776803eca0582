//! Checks that a witness shows a bad state of the machine of an AIGER file.

ghost use Rattle.std.specs.Prelude.{◌≡◌, ◌^◌, ◌≤◌, IfErr, IfOk, IsErrOf};
ghost use Rattle.aig_format.specs.Fits.{Accepts};
ghost use Rattle.aig_reader.specs.Reading.{IsReadAs};
ghost use Rattle.aig_reader.specs.Verdicts.{Accepted, Judges, verdict_by};
ghost use Rattle.aig_witness.specs.Witness.{said_by};
ghost use Rattle.aig_witness.specs.Files.{HasNoNext, IsNextWitness, Refuses, ShowsNext, verdict_of};
ghost use Rattle.aig_witness.specs.declared.file.ShowError.TheVariants as errors;

use crate::circuit::check_circuit;
use crate::fault::WitnessFault;
use crate::showing::known_witnesses_show;
use crate::{Witness, WitnessError, read_witness};
use aig::{Aig, ReadError};
use aig_base::Source;
use aig_lexer::InputBuffer;
use std::alloc::Global;
use thiserror::Error;

/// A bad state that a witness shows.
#[derive(Clone, Copy, Debug, PartialEq, Eq)]
pub struct Shown {
    /// The number of the bad state property, from 0 on.
    pub bad: usize,
    /// The step at which it is reached, from 0 on.
    pub step: usize,
}

/// Why no bad state is shown.
#[derive(Clone, Copy, Debug, PartialEq, Eq, Error)]
pub enum ShowError {
    /// The file is refused.
    #[error("{0}")]
    File(ReadError),
    /// The witness is refused.
    #[error("{0}")]
    Witness(WitnessError),
    /// There is no witness, but comments alone.
    #[error("no witness")]
    NoWitness,
    /// The witness doesn't show a bad state of the file's machine.
    #[error("{0}")]
    Check(WitnessFault),
}

impl From<ReadError> for ShowError {
    ghost from_gives = { λ e r. r ≡ errors.File e };

    fn from(error: ReadError) -> ShowError {
        ShowError::File(error)
    }
}

impl From<WitnessError> for ShowError {
    ghost from_gives = { λ e r. r ≡ errors.Witness e };

    fn from(error: WitnessError) -> ShowError {
        ShowError::Witness(error)
    }
}

impl From<WitnessFault> for ShowError {
    ghost from_gives = { λ e r. r ≡ errors.Check e };

    fn from(error: WitnessFault) -> ShowError {
        ShowError::Check(error)
    }
}

/// Reads the next witness through a buffer.
#[inline(never)]
fn read_first<W: Source>(alloc: Global, w: &mut W) -> Result<Witness, ShowError>
    ensures ok { IfOk result (λ witness. IsNextWitness (W.left w.old) (said_by witness)) }
    ensures err { IfErr result (HasNoNext (W.left w.old) (W.failed w.new)) }
{
    let mut buffer = InputBuffer::new();
    match read_witness(alloc, &mut buffer, w)? {
        Some(witness) => Ok(witness),
        None => Err(ShowError::NoWitness),
    }
}

/// Reads a circuit from the bytes of an AIGER file, and the next witness of another stream, and checks that this shows a bad
/// state of the file's machine: that every run with its values is from an initial state, meets each constraint at each step, and has
/// the bad literal that it names at its last step. Returns which bad state property that is, and at which step. Requires
/// `1 <= limit <= 2^31`.
///
/// An unknown value may be either. What follows the witness is not checked: for several witnesses of one file, read each by
/// `read_witness` and check it by `check_circuit`.
///
/// # Errors
///
/// `File` where the file is refused, `Witness` where the witness is, and `NoWitness` where its stream has comments alone;
/// `Check` names the first fault of a witness that doesn't show a bad state, or doesn't for every value that is unknown.
pub fn check_witness<R: Source, W: Source>(
    alloc: Global,
    r: &mut R,
    limit: usize,
    w: &mut W,
) -> Result<Shown, ShowError>
    requires some { 1 ≤ limit }
    requires few { limit ≤ 2 ^ 31 }
    // The bytes that were read are a file that is accepted, and the next witness shows a bad state of its machine.
    ensures answer { IfOk result
        (IsReadAs (λ bytes. Accepts bytes limit) (ShowsNext (W.left w.old))
        (R.left r.old) (R.left r.new)) }
    // Each file that is accepted is taken, and a refusal of it says why.
    ensures verdict { Judges (λ _. Accepted) limit (R.left r.old) (R.left r.new) (R.failed r.new)
        (verdict_by verdict_of result) }
    ensures never_open { IsErrOf result (ShowError.File ReadError.Open) → ⊥ }
    // A refusal of the witness says why, and where the file is refused it wasn't read.
    ensures refusal { IfErr result
        (Refuses limit (R.left r.old) (R.left r.new) (W.left w.old) (W.failed w.new)) }
    ensures unread { (e : ReadError) → IsErrOf result (ShowError.File e) → w.new ≡ w.old }
{
    known_witnesses_show();
    let circuit = Aig::from_aiger(alloc, r, limit)?;
    let witness = read_first(alloc, w)?;
    check_circuit(alloc, &circuit, &witness)?;
    Ok(Shown {
        bad: witness.bad as usize,
        step: witness.steps.len() - 1,
    })
}

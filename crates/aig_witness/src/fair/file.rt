//! Checks what a witness of a property of either kind shows of the machine of an AIGER file.

ghost use Rattle.std.specs.Prelude.{◌≡◌, ◌^◌, ◌≤◌, IfErr, IfOk, IsErrOf, true};
ghost use Rattle.aig_format.specs.Fits.{Accepts};
ghost use Rattle.aig_reader.specs.Reading.{IsReadAs};
ghost use Rattle.aig_reader.specs.Verdicts.{Accepted, Judges, verdict_by};
ghost use Rattle.aig_witness.specs.Files.{IsNext};
ghost use Rattle.aig_witness.specs.Reading.{parse_next_claim};
ghost use Rattle.aig_witness.specs.Witness.{claim_by};
ghost use Rattle.aig_witness.specs.declared.file.ShowError.TheVariants as shows;
ghost use Rattle.aig_witness.specs.Claims.{ChecksClaim, HasNoClaim, RefusesClaim, ShowsClaim, verdict_of};
ghost use Rattle.aig_witness.specs.declared.fair.file.ClaimError.TheVariants as errors;

use crate::fair::circuit::check_lasso;
use crate::fair::fault::LassoFault;
use crate::fair::laws::known_lassos_show;
use crate::{
    Claim, PropertyKind, ShowError, Shown, WitnessFault, check_circuit, known_witnesses_show,
    read_claim,
};
use aig::{Aig, ReadError};
use aig_base::Source;
use aig_lexer::InputBuffer;
use std::alloc::Global;
use thiserror::Error;

/// A fair lasso that a witness shows.
#[derive(Clone, Copy, Debug, PartialEq, Eq)]
pub struct ShownLasso {
    /// The number of the justice property, from 0 on.
    pub justice: usize,
    /// The step at which the loop starts, from 0 on.
    pub start: usize,
    /// The last step, after which the state is that before the loop's start.
    pub last: usize,
}

/// What a witness shows.
#[derive(Clone, Copy, Debug, PartialEq, Eq)]
pub enum ShownProperty {
    /// A bad state.
    Bad(Shown),
    /// A fair lasso.
    Lasso(ShownLasso),
}

/// Why nothing is shown.
#[derive(Clone, Copy, Debug, PartialEq, Eq, Error)]
pub enum ClaimError {
    /// The file or the witness is refused, or the witness doesn't show a bad state of the file's machine.
    #[error("{0}")]
    Show(ShowError),
    /// The witness doesn't show a fair lasso of the file's machine.
    #[error("{0}")]
    Lasso(LassoFault),
}

impl From<ReadError> for ClaimError {
    ghost from_gives = { λ e r. r ≡ errors.Show (shows.File e) };

    fn from(error: ReadError) -> ClaimError {
        ClaimError::Show(ShowError::File(error))
    }
}

impl From<ShowError> for ClaimError {
    ghost from_gives = { λ e r. r ≡ errors.Show e };

    fn from(error: ShowError) -> ClaimError {
        ClaimError::Show(error)
    }
}

impl From<WitnessFault> for ClaimError {
    ghost from_gives = { λ e r. r ≡ errors.Show (shows.Check e) };

    fn from(error: WitnessFault) -> ClaimError {
        ClaimError::Show(ShowError::Check(error))
    }
}

impl From<LassoFault> for ClaimError {
    ghost from_gives = { λ e r. r ≡ errors.Lasso e };

    fn from(error: LassoFault) -> ClaimError {
        ClaimError::Lasso(error)
    }
}

/// Reads the next witness through a buffer.
#[inline(never)]
fn read_first<W: Source>(alloc: Global, w: &mut W) -> Result<Claim, ShowError>
    ensures ok { IfOk result (λ claim.
        IsNext (parse_next_claim true) (W.left w.old) (claim_by claim)) }
    ensures err { IfErr result (HasNoClaim (W.left w.old) (W.failed w.new)) }
{
    let mut buffer = InputBuffer::new();
    match read_claim(alloc, &mut buffer, w, true)? {
        Some(claim) => Ok(claim),
        None => Err(ShowError::NoWitness),
    }
}

/// Checks what a witness shows of a circuit.
fn check_shown(alloc: Global, circuit: &Aig, claim: &Claim) -> Result<ShownProperty, ClaimError>
    ensures { ChecksClaim circuit.now (claim_by claim.now) result }
{
    let witness = &claim.witness;
    let last = witness.steps.len().saturating_sub(1);
    match claim.kind {
        PropertyKind::Bad => {
            check_circuit(alloc, circuit, witness)?;
            Ok(ShownProperty::Bad(Shown {
                bad: witness.bad as usize,
                step: last,
            }))
        }
        PropertyKind::Justice => {
            let start = check_lasso(alloc, circuit, witness)?;
            Ok(ShownProperty::Lasso(ShownLasso {
                justice: witness.bad as usize,
                start,
                last,
            }))
        }
    }
}

/// Reads a circuit from the bytes of an AIGER file, and the next witness of another stream, and checks that this shows what it says
/// of the file's machine. Of a bad state property: that every run with its values is from an initial state, meets each constraint at
/// each step, and has the bad literal that it names at its last step. Of a justice property: that every such run comes back to the
/// state of one of its steps, and that from there on each literal of the property that it names, and each fairness literal, is true
/// at some step. Returns which property that is, and at which step it is reached, or where the loop starts and which step is the last.
/// Requires `1 <= limit <= 2^31`.
///
/// An unknown value may be either. The loop starts at the first step whose state comes again. What follows the witness is not
/// checked.
///
/// # Errors
///
/// `Show` where the file or the witness is refused, where there is no witness, and where one of a bad state property has a fault;
/// `Lasso` names the first fault of one of a justice property.
pub fn check_claim<R: Source, W: Source>(
    alloc: Global,
    r: &mut R,
    limit: usize,
    w: &mut W,
) -> Result<ShownProperty, ClaimError>
    requires some { 1 ≤ limit }
    requires few { limit ≤ 2 ^ 31 }
    // The bytes that were read are a file that is accepted, and the next witness shows this of its machine.
    ensures answer { IfOk result
        (IsReadAs (λ bytes. Accepts bytes limit) (ShowsClaim (W.left w.old))
        (R.left r.old) (R.left r.new)) }
    // Each file that is accepted is taken, and a refusal of it says why.
    ensures verdict { Judges (λ _. Accepted) limit (R.left r.old) (R.left r.new) (R.failed r.new)
        (verdict_by verdict_of result) }
    ensures never_open { IsErrOf result (ClaimError.Show (ShowError.File ReadError.Open)) → ⊥ }
    // A refusal of the witness says why, and where the file is refused it wasn't read.
    ensures refusal { IfErr result
        (RefusesClaim limit (R.left r.old) (R.left r.new) (W.left w.old) (W.failed w.new)) }
    ensures unread { (e : ReadError) → IsErrOf result (ClaimError.Show (ShowError.File e))
        → w.new ≡ w.old }
{
    known_witnesses_show();
    known_lassos_show();
    let circuit = Aig::from_aiger(alloc, r, limit)?;
    let claim = read_first(alloc, w)?;
    check_shown(alloc, &circuit, &claim)
}

//! Calls that check witnesses.

ghost use Rattle.std.specs.Prelude.{◌≡◌, ◌≤◌, Result};
ghost use Rattle.aig_witness.specs.declared.fair.file.ClaimError.{ClaimError};
ghost use Rattle.aig_witness.specs.declared.fair.file.ShownProperty.{ShownProperty};
ghost use Rattle.aig_witness.specs.declared.file.ShowError.{ShowError};
ghost use Rattle.aig_witness.specs.declared.file.Shown.{Shown};
ghost use Rattle.aig_calls.specs.Calls.{ShowsBad, ShowsEither, TellsBad, TellsLasso};
ghost use Rattle.aig_calls.specs.Memory.{On};

use crate::status::{HasNumber, WITNESS_BAD};
use aig_base::FromRead;
use aig_giving::DONE;
use aig_tool_commands::LIMIT;
use aig_witness::{ClaimError, ShowError, Shown, ShownProperty, check_claim, check_witness};
use std::alloc::Global;

/// What a witness shows of a file's machine: a bad state.
fn show_bad(alloc: Global, file: &[u8], witness: &[u8]) -> Result<Shown, ShowError>
    ensures { On file.now (λ r rest. On witness.now (λ w used. ShowsBad LIMIT r rest w
        used result)) }
{
    let mut source = FromRead::new(file);
    let mut values = FromRead::new(witness);
    check_witness(alloc, &mut source, LIMIT, &mut values)
}

/// What a witness shows of it: a bad state, or a fair lasso.
fn show_either(alloc: Global, file: &[u8], witness: &[u8]) -> Result<ShownProperty, ClaimError>
    ensures { On file.now (λ r rest. On witness.now (λ w used. ShowsEither LIMIT r
        rest w used result)) }
{
    let mut source = FromRead::new(file);
    let mut values = FromRead::new(witness);
    check_claim(alloc, &mut source, LIMIT, &mut values)
}

/// Checks that a witness shows a bad state of a file's machine, and says which bad state property that is and at which step.
/// Else both numbers are as they were, and a status of a witness that is refused says why.
#[unsafe(no_mangle)]
pub extern "C" fn aig_check_run(
    alloc: Global,
    file: &[u8],
    witness: &[u8],
    bad: &mut usize,
    step: &mut usize,
) -> u32
    ensures { (shown : Result Shown ShowError) × On file.now (λ r rest. On witness.now
        (λ w used. ShowsBad LIMIT r rest w used shown)) × TellsBad shown result bad.old bad.new
        step.old step.new }
{
    match show_bad(alloc, file, witness) {
        Ok(shown) => {
            *bad = shown.bad;
            *step = shown.step;
            DONE
        }
        Err(error) => error.number(),
    }
}

/// Checks that a witness shows a fair lasso of a file's machine, and says of which justice property it is, at which step its loop
/// starts and which step is the last. Else the numbers are as they were, and a status of a witness that is refused says why.
#[unsafe(no_mangle)]
pub extern "C" fn aig_check_lasso(
    alloc: Global,
    file: &[u8],
    witness: &[u8],
    justice: &mut usize,
    start: &mut usize,
    last: &mut usize,
) -> u32
    ensures { (shown : Result ShownProperty ClaimError) × On file.now (λ r rest. On
        witness.now (λ w used. ShowsEither LIMIT r rest w used shown)) × TellsLasso shown result
        justice.old justice.new start.old start.new last.old last.new }
{
    match show_either(alloc, file, witness) {
        Ok(ShownProperty::Lasso(lasso)) => {
            *justice = lasso.justice;
            *start = lasso.start;
            *last = lasso.last;
            DONE
        }
        Ok(ShownProperty::Bad(_)) => WITNESS_BAD,
        Err(error) => error.number(),
    }
}

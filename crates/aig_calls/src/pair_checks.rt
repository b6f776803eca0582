//! Calls that check proofs about two files.

ghost use Rattle.std.specs.Prelude.{◌∷◌, []};
ghost use Rattle.aig_answers.specs.declared.goals.goal.Goal.TheVariants as goals;
ghost use Rattle.aig_runs.specs.declared.window.Window.TheVariants.{Plain};
ghost use Rattle.aig_witness_circuit_checks.specs.Simulated.{proofs_of};
ghost use Rattle.aig_subjects.specs.declared.subject.FileSubject.TheVariants.{Own};
ghost use Rattle.aig_subjects.specs.declared.subject.Subject.TheVariants as subjects;
ghost use Rattle.aig_calls.specs.Calls.{form_of};
ghost use Rattle.aig_calls.specs.Checking.{ChecksBytes, ChecksWitness};

use crate::goals::check;
use crate::pairs::COMPARISON;
use crate::status::status_of;
use crate::steps::window_form;
use aig_answers::{Goal, Window};
use aig_command_line::InMemory;
use aig_subjects::{FileSubject, Subject};
use aig_tool_commands::LIMIT;
use aig_witness_circuit_checks::check_simulated;
use std::alloc::Global;

/// Checks that a certificate, a witness circuit, shows that no bad state of a file's machine is ever reached: by proofs, in LRAT or
/// DRAT, of the joint circuit's query for step 0 and of its plain window of two steps.
#[unsafe(no_mangle)]
pub extern "C" fn aig_check_certified(
    alloc: Global,
    file: &[u8],
    certificate: &[u8],
    optimize: bool,
    base: &[u8],
    step: &[u8],
) -> u32
    ensures { ChecksBytes (subjects.Certified Own) (goals.SafeBySteps 0 Plain) optimize optimize
        (file.now ∷ certificate.now ∷ []) (base.now ∷ step.now ∷ []) result }
{
    check(
        alloc,
        Subject::Certified(FileSubject::Own),
        Goal::SafeBySteps(0, Window::Plain),
        optimize,
        optimize,
        &mut [InMemory::new(file), InMemory::new(certificate)],
        &mut [InMemory::new(base), InMemory::new(step)],
    )
}

/// Checks that a witness circuit shows by a proof for each condition that no bad state of a file's machine is ever reached.
fn simulate<'a>(
    alloc: Global,
    file: &[u8],
    witness: &[u8],
    optimize: bool,
    reset: &'a [u8],
    transition: &'a [u8],
    property: &'a [u8],
    base: &'a [u8],
    step: &'a [u8],
) -> u32
    ensures { let given = proofs_of reset.now transition.now property.now base.now step.now in
        ChecksWitness optimize file.now witness.now given result }
{
    status_of(check_simulated(
        alloc,
        FileSubject::Own,
        &mut InMemory::new(file),
        &mut InMemory::new(witness),
        LIMIT,
        optimize,
        &mut InMemory::new(reset),
        &mut InMemory::new(transition),
        &mut InMemory::new(property),
        &mut InMemory::new(base),
        &mut InMemory::new(step),
    ))
}

/// Checks that a witness circuit of the hardware model checking competition shows that no bad state of a file's machine is ever reached: by a
/// proof, in LRAT or DRAT, for each of its conditions, of the clauses that `aigcheck obligations` prints for it.
#[unsafe(no_mangle)]
pub extern "C" fn aig_check_simulated(
    alloc: Global,
    file: &[u8],
    witness: &[u8],
    optimize: bool,
    reset: &[u8],
    transition: &[u8],
    property: &[u8],
    base: &[u8],
    step: &[u8],
) -> u32
    ensures { let given = proofs_of reset.now transition.now property.now base.now step.now in
        ChecksWitness optimize file.now witness.now given result }
{
    simulate(
        alloc, file, witness, optimize, reset, transition, property, base, step,
    )
}

/// Checks a proof, in LRAT or DRAT, that the query of two files' miter for step `k` can't be satisfied: then their machines are
/// equal at that step.
#[unsafe(no_mangle)]
pub extern "C" fn aig_check_equal(
    alloc: Global,
    file: &[u8],
    other: &[u8],
    k: u64,
    optimize: bool,
    proof: &[u8],
) -> u32
    ensures { ChecksBytes (subjects.Miter COMPARISON) (goals.Refuted k) optimize optimize
        (file.now ∷ other.now ∷ []) (proof.now ∷ []) result }
{
    check(
        alloc,
        Subject::Miter(COMPARISON),
        Goal::Refuted(k as usize),
        optimize,
        optimize,
        &mut [InMemory::new(file), InMemory::new(other)],
        &mut [InMemory::new(proof)],
    )
}

/// Checks proofs, in LRAT or DRAT, that the machines of two files are equal at every step: those that `aig_check_safe` takes of the
/// file that their miter's text is.
#[unsafe(no_mangle)]
pub extern "C" fn aig_check_always_equal(
    alloc: Global,
    file: &[u8],
    other: &[u8],
    k: u64,
    distinct: bool,
    base_optimize: bool,
    base: &[u8],
    step_optimize: bool,
    step: &[u8],
) -> u32
    ensures { ChecksBytes (subjects.Miter COMPARISON) (goals.Safe k (form_of distinct))
        base_optimize step_optimize (file.now ∷ other.now ∷ []) (base.now ∷ step.now ∷ []) result }
{
    check(
        alloc,
        Subject::Miter(COMPARISON),
        Goal::Safe(k as usize, window_form(distinct)),
        base_optimize,
        step_optimize,
        &mut [InMemory::new(file), InMemory::new(other)],
        &mut [InMemory::new(base), InMemory::new(step)],
    )
}

/// Checks that a certificate of their miter shows that the machines of two files are equal at every step: the certificate and the
/// proofs are those that `aig_check_certified` takes of the file that the miter's text is.
#[unsafe(no_mangle)]
pub extern "C" fn aig_check_equal_by(
    alloc: Global,
    file: &[u8],
    other: &[u8],
    certificate: &[u8],
    optimize: bool,
    base: &[u8],
    step: &[u8],
) -> u32
    ensures { ChecksBytes (subjects.MiterCertified COMPARISON) (goals.SafeBySteps 0 Plain) optimize
        optimize (file.now ∷ other.now ∷ certificate.now ∷ []) (base.now ∷ step.now ∷ []) result }
{
    check(
        alloc,
        Subject::MiterCertified(COMPARISON),
        Goal::SafeBySteps(0, Window::Plain),
        optimize,
        optimize,
        &mut [
            InMemory::new(file),
            InMemory::new(other),
            InMemory::new(certificate),
        ],
        &mut [InMemory::new(base), InMemory::new(step)],
    )
}

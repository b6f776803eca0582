//! Proofs about circuits that are unrolled step by step.

ghost use Rattle.std.specs.Prelude.{◌≡◌, ⊤};
ghost use Rattle.aig_giving.specs.Statuses.{refutation_status, status_by};
ghost use Rattle.aig_handles.specs.Handles.{OnUnrolling, held_in};
ghost use Rattle.aig_handles.specs.Unrolling.{ChecksStepOr, ChecksWindowOr};

use crate::status::RANGE;
use aig_command_line::InMemory;
use aig_giving::{DONE, EMPTY, of_refutation};
use aig_held::{Handle, Held};
use aig_refutation::RefutationError;
use aig_steps::Unrolling;
use std::alloc::Global;

/// The status of a check that ended so.
fn status_of(checked: Result<(), RefutationError>) -> u32
    ensures { result ≡ status_by refutation_status checked }
{
    match checked {
        Ok(()) => DONE,
        Err(error) => of_refutation(error),
    }
}

/// Checks a proof that no bad state is reached at a step.
fn check_step(alloc: Global, unrolling: &Unrolling, step: usize, proof: &[u8]) -> u32
    ensures { ChecksStepOr step proof.now result unrolling.now }
{
    if step > unrolling.steps() {
        return RANGE;
    }
    status_of(unrolling.check_step(alloc, step, &mut InMemory::new(proof)))
}

/// Checks a proof, in LRAT or DRAT, that the clauses of the steps from 0 to `step`, those of initial values, and one of the bad
/// edges of `step` can't be satisfied: then no run of the circuit from an initial state reaches a bad state at `step`.
#[unsafe(no_mangle)]
pub extern "C" fn aig_unrolling_check_refuted(
    alloc: Global,
    unrolling: &mut Handle,
    step: usize,
    proof: &[u8],
) -> u32
    ensures kept { held_in unrolling.new ≡ held_in unrolling.old }
    ensures checks { OnUnrolling unrolling.old unrolling.new result ⊤ (λ s _. ChecksStepOr step
        proof.now result s) }
{
    lend_unrolling!(alloc, unrolling, steps => check_step(alloc, &*steps, step, proof))
}

/// Checks a proof that no window is bad first at its end.
fn check_window(alloc: Global, unrolling: &Unrolling, k: usize, proof: &[u8]) -> u32
    ensures { ChecksWindowOr k proof.now result unrolling.now }
{
    if k >= unrolling.steps() {
        return RANGE;
    }
    status_of(unrolling.check_window(alloc, k + 1, &mut InMemory::new(proof)))
}

/// Checks a proof, in LRAT or DRAT, that the clauses of the steps from 0 to `k + 1`, those that the bad edges of the steps up to `k`
/// are false, and one of those of step `k + 1` can't be satisfied: then no bad state is ever reached, if none is up to step `k`.
#[unsafe(no_mangle)]
pub extern "C" fn aig_unrolling_check_inductive(
    alloc: Global,
    unrolling: &mut Handle,
    k: usize,
    proof: &[u8],
) -> u32
    ensures kept { held_in unrolling.new ≡ held_in unrolling.old }
    ensures checks { OnUnrolling unrolling.old unrolling.new result ⊤ (λ s _. ChecksWindowOr k
        proof.now result s) }
{
    lend_unrolling!(alloc, unrolling, steps => check_window(alloc, &*steps, k, proof))
}

//! Circuits that are unrolled step by step.

ghost use Rattle.std.specs.Prelude.{◌≡◌, ◌-◌, ◌^◌, ⊤, IfErr, IfOk, None};
ghost use Rattle.aig_base.specs.Clauses.{AreBelow};
ghost use Rattle.aig_giving.specs.declared.status.TheConstants.{MEMORY};
ghost use Rattle.aig_handles.specs.Handles.{OnHeld, OnUnrolling, held_in};
ghost use Rattle.aig_handles.specs.Unrolling.{AddsStepOr, AreBads, AreNumbersOf, AreStepClauses, BeginsUnrollingOr, GivesAddedInputs, GivesBads, GivesInitialClauses, GivesStepClauses, HasNoSuchStep, TellsSteps};
ghost use Rattle.aig_steps.specs.Stepwise.{initial_clauses};

use crate::handles::put_held;
use crate::status::{FULL, RANGE};
use aig::Aig;
use aig_base::LitVvec;
use aig_giving::{DONE, EMPTY, MEMORY, give, give_made, literals, push_list, tell};
use aig_held::{Handle, Held};
use aig_steps::{StepError, Unrolling};
use std::alloc::Global;

/// Puts a copy of a circuit, without further steps, into a handle.
fn begin(alloc: Global, aig: &Aig, unrolling: &mut Handle) -> u32
    ensures { BeginsUnrollingOr result unrolling.old unrolling.new aig.now }
{
    match Unrolling::new(alloc, aig) {
        Ok(made) => put_held(alloc, Held::Unrolling(made), unrolling),
        Err(StepError::Memory) => MEMORY,
        Err(StepError::TooLarge) => FULL,
    }
}

/// Puts a copy of a circuit, which is unrolled step by step and has no further step yet, into a handle, in place of what that held.
#[unsafe(no_mangle)]
pub extern "C" fn aig_unrolling_new(
    alloc: Global,
    circuit: &mut Handle,
    unrolling: &mut Handle,
) -> u32
    ensures kept { held_in circuit.new ≡ held_in circuit.old }
    ensures begins { OnHeld circuit.old circuit.new result (unrolling.new ≡ unrolling.old)
        (λ c _. BeginsUnrollingOr result unrolling.old unrolling.new c) }
{
    lend!(alloc, circuit, aig => begin(alloc, &*aig, unrolling))
}

/// Lets go what a handle holds, if anything.
#[unsafe(no_mangle)]
pub extern "C" fn aig_unrolling_free(alloc: Global, unrolling: &mut Handle)
    ensures { held_in unrolling.new ≡ None }
{
    drop(unrolling.take(alloc));
}

/// Adds a step.
fn add_step(unrolling: &mut Unrolling) -> u32
    ensures { AddsStepOr result unrolling.old unrolling.new }
{
    match unrolling.add_step() {
        Ok(()) => DONE,
        Err(StepError::Memory) => MEMORY,
        Err(StepError::TooLarge) => FULL,
    }
}

/// Adds a step.
#[unsafe(no_mangle)]
pub extern "C" fn aig_unrolling_add_step(alloc: Global, unrolling: &mut Handle) -> u32
    ensures { OnUnrolling unrolling.old unrolling.new result ⊤ (AddsStepOr result) }
{
    lend_unrolling!(alloc, unrolling, steps => add_step(&mut *steps))
}

/// Tells how many further steps there are.
#[unsafe(no_mangle)]
pub extern "C" fn aig_unrolling_steps(
    alloc: Global,
    unrolling: &mut Handle,
    count: &mut usize,
) -> u32
    ensures { OnUnrolling unrolling.old unrolling.new result (count.new ≡ count.old)
        (TellsSteps result count.new) }
{
    lend_unrolling!(alloc, unrolling, steps => tell(steps.steps(), count))
}

/// The numbers of clauses, or the status of refused memory.
fn numbers_of(alloc: Global, clauses: &LitVvec) -> Result<Vec<i32>, u32>
    requires { AreBelow (2 ^ 31 - 1) clauses.now }
    ensures numbers { IfOk result (λ v. AreNumbersOf clauses.now v.items) }
    ensures refused { IfErr result (λ status. status ≡ MEMORY) }
{
    let mut numbers = Vec::new(alloc);
    match push_list(&mut numbers, clauses) {
        Ok(()) => Ok(numbers),
        Err(_) => Err(MEMORY),
    }
}

/// The numbers of the clauses of a step, or the status that says why there are none.
fn step_numbers(alloc: Global, unrolling: &Unrolling, step: usize) -> Result<Vec<i32>, u32>
    ensures numbers { IfOk result (λ v. AreStepClauses step unrolling.now v.items) }
    ensures refused { IfErr result (λ status. HasNoSuchStep step status unrolling.now) }
{
    if step > unrolling.steps() {
        return Err(RANGE);
    }
    let Ok(clauses) = unrolling.step_clauses(alloc, step) else {
        return Err(MEMORY);
    };
    numbers_of(alloc, &clauses)
}

/// Gives the numbers of the clauses of a step.
fn give_step(
    alloc: Global,
    unrolling: &Unrolling,
    step: usize,
    out: &mut [i32],
    needed: &mut usize,
) -> u32
    ensures { GivesStepClauses step result out.old out.new needed.old needed.new unrolling.now }
{
    give_made(step_numbers(alloc, unrolling, step), out, needed)
}

/// Gives the clauses of a step as DIMACS numbers, with a 0 after each clause.
#[unsafe(no_mangle)]
pub extern "C" fn aig_unrolling_step_clauses(
    alloc: Global,
    unrolling: &mut Handle,
    step: usize,
    out: &mut [i32],
    needed: &mut usize,
) -> u32
    ensures kept { held_in unrolling.new ≡ held_in unrolling.old }
    ensures clauses { OnUnrolling unrolling.old unrolling.new result
        ((out.new ≡ out.old) × (needed.new ≡ needed.old)) (λ s _. GivesStepClauses step result
        out.old out.new needed.old needed.new s) }
{
    lend_unrolling!(alloc, unrolling, steps => give_step(alloc, &*steps, step, out, needed))
}

/// The numbers of the clauses of initial values, or the status that says why there are none.
fn initial_numbers(alloc: Global, unrolling: &Unrolling) -> Result<Vec<i32>, u32>
    ensures numbers { IfOk result
        (λ v. AreNumbersOf (initial_clauses unrolling.now.circuit) v.items) }
    ensures refused { IfErr result (λ status. status ≡ MEMORY) }
{
    let Ok(clauses) = unrolling.initial_clauses(alloc) else {
        return Err(MEMORY);
    };
    numbers_of(alloc, &clauses)
}

/// Gives the numbers of the clauses of initial values.
fn give_initial(alloc: Global, unrolling: &Unrolling, out: &mut [i32], needed: &mut usize) -> u32
    ensures { GivesInitialClauses result out.old out.new needed.old needed.new unrolling.now }
{
    give_made(initial_numbers(alloc, unrolling), out, needed)
}

/// Gives the clauses of initial values as DIMACS numbers, with a 0 after each clause.
#[unsafe(no_mangle)]
pub extern "C" fn aig_unrolling_initial_clauses(
    alloc: Global,
    unrolling: &mut Handle,
    out: &mut [i32],
    needed: &mut usize,
) -> u32
    ensures kept { held_in unrolling.new ≡ held_in unrolling.old }
    ensures clauses { OnUnrolling unrolling.old unrolling.new result
        ((out.new ≡ out.old) × (needed.new ≡ needed.old)) (λ s _. GivesInitialClauses result
        out.old out.new needed.old needed.new s) }
{
    lend_unrolling!(alloc, unrolling, steps => give_initial(alloc, &*steps, out, needed))
}

/// The literals of the bad edges of a step, or the status that says why there are none.
fn bad_literals(alloc: Global, unrolling: &Unrolling, step: usize) -> Result<Vec<u32>, u32>
    ensures literals { IfOk result (λ v. AreBads step unrolling.now v.items) }
    ensures refused { IfErr result (λ status. HasNoSuchStep step status unrolling.now) }
{
    if step > unrolling.steps() {
        return Err(RANGE);
    }
    match literals(alloc, unrolling.bads(step)) {
        Ok(list) => Ok(list),
        Err(_) => Err(MEMORY),
    }
}

/// Gives the literals of the bad edges of a step.
fn give_bads(
    alloc: Global,
    unrolling: &Unrolling,
    step: usize,
    out: &mut [u32],
    needed: &mut usize,
) -> u32
    ensures { GivesBads step result out.old out.new needed.old needed.new unrolling.now }
{
    give_made(bad_literals(alloc, unrolling, step), out, needed)
}

/// Gives the bad edges of a step, in order.
#[unsafe(no_mangle)]
pub extern "C" fn aig_unrolling_bads(
    alloc: Global,
    unrolling: &mut Handle,
    step: usize,
    out: &mut [u32],
    needed: &mut usize,
) -> u32
    ensures kept { held_in unrolling.new ≡ held_in unrolling.old }
    ensures bads { OnUnrolling unrolling.old unrolling.new result
        ((out.new ≡ out.old) × (needed.new ≡ needed.old)) (λ s _. GivesBads step result
        out.old out.new needed.old needed.new s) }
{
    lend_unrolling!(alloc, unrolling, steps => give_bads(alloc, &*steps, step, out, needed))
}

/// Gives the inputs that a step adds, which isn't the first.
fn give_added(unrolling: &Unrolling, step: usize, out: &mut [usize], needed: &mut usize) -> u32
    ensures { GivesAddedInputs step result out.old out.new needed.old needed.new unrolling.now }
{
    if step == 0 || step > unrolling.steps() {
        return RANGE;
    }
    give(unrolling.added_inputs(step), out, needed)
}

/// Gives the inputs that a step adds, which isn't the first, in order.
#[unsafe(no_mangle)]
pub extern "C" fn aig_unrolling_added_inputs(
    alloc: Global,
    unrolling: &mut Handle,
    step: usize,
    out: &mut [usize],
    needed: &mut usize,
) -> u32
    ensures kept { held_in unrolling.new ≡ held_in unrolling.old }
    ensures inputs { OnUnrolling unrolling.old unrolling.new result
        ((out.new ≡ out.old) × (needed.new ≡ needed.old)) (λ s _. GivesAddedInputs step result
        out.old out.new needed.old needed.new s) }
{
    lend_unrolling!(alloc, unrolling, steps => give_added(&*steps, step, out, needed))
}

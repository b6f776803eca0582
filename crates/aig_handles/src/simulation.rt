//! Simulation in three values, whose state is the caller's.

ghost use Rattle.std.specs.Prelude.{◌≡◌, ◌<◌, IfErr, IfOk, OnOk, length, map};
ghost use Rattle.aig_giving.specs.Given.{GivesOr};
ghost use Rattle.aig_giving.specs.Values.{value_number};
ghost use Rattle.aig_handles.specs.Handles.{OnHeld, held_in};
ghost use Rattle.aig_handles.specs.Simulating.{AreLeafValues, AreNodeValues, HasNoValues, StepsOr, after_step};
ghost use Rattle.aig_held.specs.Moments.{simulation_then};

use crate::status::{COUNT, VALUE};
use aig::Aig;
use aig_base::MemoryError;
use aig_giving::{DONE, EMPTY, MEMORY, are_values, give, give_made, numbers_of_values, values_of};
use aig_held::{Handle, Held, Stepped, step};
use std::alloc::Global;

/// One step from a state, with these inputs.
fn stepped(alloc: Global, aig: &Aig, inputs: &[u8], latchs: &[u8]) -> Result<Stepped, MemoryError>
    requires inputs { length inputs.now ≡ length aig.now.inputs }
    requires latchs { length latchs.now ≡ length aig.now.latchs }
    ensures { IfOk result (λ s. simulation_then aig.now s ≡ after_step aig.now latchs.now
        inputs.now) }
{
    let inputs = values_of(alloc, inputs)?;
    let latchs = values_of(alloc, latchs)?;
    step(alloc, aig, latchs.as_slice(), inputs.as_slice())
}

/// One step, or the status that says why there is none.
fn step_of(alloc: Global, aig: &Aig, inputs: &[u8], latchs: &[u8]) -> Result<Stepped, u32>
    ensures stepped { IfOk result (λ s. simulation_then aig.now s ≡ after_step aig.now latchs.now
        inputs.now) }
    ensures asked { OnOk result (AreLeafValues inputs.now latchs.now aig.now) }
    ensures refused { IfErr result (λ status. HasNoValues inputs.now latchs.now status aig.now) }
{
    if inputs.len() != aig.inputs().len() || latchs.len() != aig.latchs().len() {
        return Err(COUNT);
    }
    if !are_values(inputs) || !are_values(latchs) {
        return Err(VALUE);
    }
    match stepped(alloc, aig, inputs, latchs) {
        Ok(s) => Ok(s),
        Err(_) => Err(MEMORY),
    }
}

/// The numbers of the values of all nodes, or the status that says why there are none.
fn value_numbers(alloc: Global, aig: &Aig, inputs: &[u8], latchs: &[u8]) -> Result<Vec<u8>, u32>
    ensures values { IfOk result (λ v. AreNodeValues inputs.now latchs.now aig.now v.items) }
    ensures refused { IfErr result (λ status. HasNoValues inputs.now latchs.now status aig.now) }
{
    let s = step_of(alloc, aig, inputs, latchs)?;
    match numbers_of_values(alloc, s.values.as_slice()) {
        Ok(numbers) => Ok(numbers),
        Err(_) => Err(MEMORY),
    }
}

/// Gives the values of all nodes.
fn give_values(
    alloc: Global,
    aig: &Aig,
    inputs: &[u8],
    latchs: &[u8],
    out: &mut [u8],
    needed: &mut usize,
) -> u32
    ensures { GivesOr (AreNodeValues inputs.now latchs.now aig.now) result out.old out.new
        needed.old needed.new (HasNoValues inputs.now latchs.now result aig.now) }
{
    give_made(value_numbers(alloc, aig, inputs, latchs), out, needed)
}

/// Gives the value of each node where inputs and latches have these values.
#[unsafe(no_mangle)]
pub extern "C" fn aig_circuit_ternary_simulate(
    alloc: Global,
    circuit: &mut Handle,
    inputs: &[u8],
    latchs: &[u8],
    out: &mut [u8],
    needed: &mut usize,
) -> u32
    ensures kept { held_in circuit.new ≡ held_in circuit.old }
    ensures values { OnHeld circuit.old circuit.new result
        ((out.new ≡ out.old) × (needed.new ≡ needed.old)) (λ c _. GivesOr (AreNodeValues
        inputs.now latchs.now c) result out.old out.new needed.old
        needed.new (HasNoValues inputs.now latchs.now result c)) }
{
    lend!(alloc, circuit, aig => give_values(alloc, &*aig, inputs, latchs, out, needed))
}

/// The numbers of the values of a step, and of the state that follows.
#[derive(Drop)]
struct StepNumbers {
    values: Vec<u8>,
    state: Vec<u8>,
}

/// The numbers of the lists of a step.
fn numbered(alloc: Global, s: &Stepped) -> Result<StepNumbers, MemoryError>
    ensures values { IfOk result (λ n. n.values.items ≡ map value_number s.now.values.items) }
    ensures state { IfOk result (λ n. n.state.items ≡ map value_number s.now.state.items) }
{
    let values = numbers_of_values(alloc, s.values.as_slice())?;
    let state = numbers_of_values(alloc, s.state.as_slice())?;
    Ok(StepNumbers { values, state })
}

/// One step from a state, or the status that says why there is none.
fn numbers_of_step(
    alloc: Global,
    aig: &Aig,
    state: &[u8],
    inputs: &[u8],
) -> Result<StepNumbers, u32>
    ensures values { IfOk result (λ n. n.values.items ≡ map value_number (after_step aig.now
        state.now inputs.now).values) }
    ensures state { IfOk result (λ n. n.state.items ≡ map value_number (after_step aig.now
        state.now inputs.now).state) }
    ensures asked { OnOk result (AreLeafValues inputs.now state.now aig.now) }
    ensures count { IfOk result (λ n. length n.state.items ≡ length state.now) }
    ensures refused { IfErr result (λ status. HasNoValues inputs.now state.now status aig.now) }
{
    let s = step_of(alloc, aig, inputs, state)?;
    match numbered(alloc, &s) {
        Ok(numbers) => Ok(numbers),
        Err(_) => Err(MEMORY),
    }
}

/// Gives the values of one step, and moves the state.
fn simulate(
    alloc: Global,
    aig: &Aig,
    state: &mut [u8],
    inputs: &[u8],
    out: &mut [u8],
    needed: &mut usize,
) -> u32
    ensures { StepsOr inputs.now state.old state.new result out.old out.new needed.old needed.new
        aig.now }
{
    match numbers_of_step(alloc, aig, state, inputs) {
        Ok(numbers) => {
            let status = give(numbers.values.as_slice(), out, needed);
            if status == DONE {
                state.copy_from_slice(numbers.state.as_slice());
            }
            status
        }
        Err(status) => status,
    }
}

/// Gives the value of each node in one step from this state with these inputs, and moves the state.
#[unsafe(no_mangle)]
pub extern "C" fn aig_circuit_simulate(
    alloc: Global,
    circuit: &mut Handle,
    state: &mut [u8],
    inputs: &[u8],
    out: &mut [u8],
    needed: &mut usize,
) -> u32
    ensures kept { held_in circuit.new ≡ held_in circuit.old }
    ensures steps { OnHeld circuit.old circuit.new result
        ((state.new ≡ state.old) × (out.new ≡ out.old) × (needed.new ≡ needed.old)) (λ c _. StepsOr
        inputs.now state.old state.new result out.old out.new needed.old needed.new c) }
{
    lend!(alloc, circuit, aig => simulate(alloc, &*aig, state, inputs, out, needed))
}

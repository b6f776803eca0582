//! Simulations in three values that have a state of their own.

ghost use Rattle.std.specs.Prelude.{◌≡◌, ◌*◌, ◌↔◌, ⊤, All, IfErr, IfNone, IfOk, IfSome, IsTrue, None, Some, length, map};
ghost use Rattle.aig_circuit.specs.Circuit.{IsInRange};
ghost use Rattle.aig_giving.specs.Edges.{edge_of};
ghost use Rattle.aig_giving.specs.Values.{value_number};
ghost use Rattle.aig_giving.specs.declared.status.TheConstants.{DONE, MEMORY};
ghost use Rattle.aig_handles.specs.Handles.{DoneOr, OnHeld, OnSimulation, held_in};
ghost use Rattle.aig_handles.specs.Simulating.{AllStepsOr, BeginsOr, GivesState, HasNoSteps, IsAsked, SimulatesOr, TellsValueOr, rows_of, steps_of, values_of};
ghost use Rattle.aig_held.specs.Moments.{AreOf, simulation_then};
ghost use Rattle.aig_held.specs.declared.held.Held.TheVariants as kinds;
ghost use Rattle.aig_ternary.specs.Ternary.{HasValue, simulation_of, stepped_all, values_in};

use crate::handles::put_held;
use crate::status::{COUNT, RANGE, VALUE};
use aig::{Aig, AigEdge};
use aig_base::{Lbool, MemoryError};
use aig_giving::{
    DONE, EMPTY, MEMORY, SMALL, are_values, edge_of, give, give_made, number_of_value,
    numbers_of_values, tell, values_of,
};
use aig_held::{Handle, Held, Simulated, Stepped};
use std::alloc::Global;

/// The simulation of a copy of a circuit that begins in this state.
fn begun(alloc: Global, aig: &Aig, state: &[u8]) -> Result<Simulated, MemoryError>
    requires { length state.now ≡ length aig.now.latchs }
    ensures { IfOk result (λ s. s ≡ simulation_of aig.now (values_of state.now)) }
{
    let state = values_of(alloc, state)?;
    let aig = aig.clone()?;
    Ok(Simulated::new(alloc, aig, state))
}

/// Puts a simulation of a copy of a circuit into a handle.
fn begin(alloc: Global, aig: &Aig, state: &[u8], simulation: &mut Handle) -> u32
    ensures { BeginsOr state.now result simulation.old simulation.new aig.now }
{
    if state.len() != aig.latchs().len() {
        return COUNT;
    }
    if !are_values(state) {
        return VALUE;
    }
    match begun(alloc, aig, state) {
        Ok(simulated) => put_held(alloc, Held::Simulation(simulated), simulation),
        Err(_) => MEMORY,
    }
}

/// Puts a simulation of a copy of a circuit, which begins in this state, into a handle, in place of what that held.
#[unsafe(no_mangle)]
pub extern "C" fn aig_simulation_new(
    alloc: Global,
    circuit: &mut Handle,
    state: &[u8],
    simulation: &mut Handle,
) -> u32
    ensures kept { held_in circuit.new ≡ held_in circuit.old }
    ensures begins { OnHeld circuit.old circuit.new result
        (simulation.new ≡ simulation.old) (λ c _. BeginsOr state.now result simulation.old
        simulation.new c) }
{
    lend!(alloc, circuit, aig => begin(alloc, &*aig, state, simulation))
}

/// Lets go what a handle holds, if anything.
#[unsafe(no_mangle)]
pub extern "C" fn aig_simulation_free(alloc: Global, simulation: &mut Handle)
    ensures { held_in simulation.new ≡ None }
{
    drop(simulation.take(alloc));
}

/// Puts a copy of a simulation into another handle.
fn copy(alloc: Global, simulated: &Simulated, to: &mut Handle) -> u32
    ensures { DoneOr result (held_in to.new ≡ Some (kinds.Simulation simulated.now))
        (to.new ≡ to.old) (result ≡ MEMORY) }
{
    match simulated.clone() {
        Ok(made) => put_held(alloc, Held::Simulation(made), to),
        Err(_) => MEMORY,
    }
}

/// Puts a copy of a simulation into another handle, in place of what that held.
#[unsafe(no_mangle)]
pub extern "C" fn aig_simulation_clone(
    alloc: Global,
    simulation: &mut Handle,
    to: &mut Handle,
) -> u32
    ensures kept { held_in simulation.new ≡ held_in simulation.old }
    ensures copies { OnSimulation simulation.old simulation.new result (to.new ≡ to.old) (λ s _.
        DoneOr result (held_in to.new ≡ Some (kinds.Simulation s)) (to.new ≡ to.old)
        (result ≡ MEMORY)) }
{
    lend_simulation!(alloc, simulation, simulated => copy(alloc, &*simulated, to))
}

/// Values one step with these inputs, and moves the state.
fn simulate(alloc: Global, simulated: &mut Simulated, inputs: &[u8]) -> u32
    ensures { SimulatesOr inputs.now result simulated.old simulated.new }
{
    if inputs.len() != simulated.aig().inputs().len() {
        return COUNT;
    }
    if !are_values(inputs) {
        return VALUE;
    }
    let Ok(inputs) = values_of(alloc, inputs) else {
        return MEMORY;
    };
    match simulated.simulate(alloc, inputs.as_slice()) {
        Ok(()) => DONE,
        Err(_) => MEMORY,
    }
}

/// Values one step with these inputs, and moves the state.
#[unsafe(no_mangle)]
pub extern "C" fn aig_simulation_simulate(
    alloc: Global,
    simulation: &mut Handle,
    inputs: &[u8],
) -> u32
    ensures { OnSimulation simulation.old simulation.new result ⊤ (SimulatesOr inputs.now result) }
{
    lend_simulation!(alloc, simulation, simulated => simulate(alloc, &mut *simulated, inputs))
}

/// Tells whether a step was valued and the node of an edge is there.
#[unsafe(no_mangle)]
pub extern "C" fn aig_simulation_has_value(
    alloc: Global,
    simulation: &mut Handle,
    edge: u32,
    answer: &mut bool,
) -> u32
    ensures { OnSimulation simulation.old simulation.new result (answer.new ≡ answer.old)
        (λ s now. (result ≡ DONE) × (now ≡ s) × (IsTrue answer.new
        ↔ HasValue s (edge_of edge))) }
{
    lend_simulation!(alloc, simulation, simulated => tell(simulated.has_value(edge_of(edge)), answer))
}

/// Tells the value of an edge in the last step.
fn tell_value(simulated: &Simulated, e: AigEdge, value: &mut u8) -> u32
    ensures { TellsValueOr e result value.old value.new simulated.now }
{
    if !simulated.has_value(e) {
        return RANGE;
    }
    tell(number_of_value(simulated.value(e)), value)
}

/// Tells the value of an edge in the last step.
#[unsafe(no_mangle)]
pub extern "C" fn aig_simulation_value(
    alloc: Global,
    simulation: &mut Handle,
    edge: u32,
    value: &mut u8,
) -> u32
    ensures kept { held_in simulation.new ≡ held_in simulation.old }
    ensures value { OnSimulation simulation.old simulation.new result (value.new ≡ value.old)
        (λ s _. TellsValueOr (edge_of edge) result value.old value.new s) }
{
    lend_simulation!(alloc, simulation, simulated => tell_value(&*simulated, edge_of(edge), value))
}

/// The numbers of the state, or the status that says why there are none.
fn state_numbers(alloc: Global, simulated: &Simulated) -> Result<Vec<u8>, u32>
    ensures numbers { IfOk result (λ v. v.items ≡ map value_number simulated.now.state) }
    ensures refused { IfErr result (λ status. status ≡ MEMORY) }
{
    match numbers_of_values(alloc, simulated.state()) {
        Ok(numbers) => Ok(numbers),
        Err(_) => Err(MEMORY),
    }
}

/// Gives the state.
fn give_state(alloc: Global, simulated: &Simulated, out: &mut [u8], needed: &mut usize) -> u32
    ensures { GivesState result out.old out.new needed.old needed.new simulated.now }
{
    give_made(state_numbers(alloc, simulated), out, needed)
}

/// Gives the state in which the next step begins.
#[unsafe(no_mangle)]
pub extern "C" fn aig_simulation_state(
    alloc: Global,
    simulation: &mut Handle,
    out: &mut [u8],
    needed: &mut usize,
) -> u32
    ensures kept { held_in simulation.new ≡ held_in simulation.old }
    ensures state { OnSimulation simulation.old simulation.new result
        ((out.new ≡ out.old) × (needed.new ≡ needed.old)) (λ s _. GivesState result out.old out.new
        needed.old needed.new s) }
{
    lend_simulation!(alloc, simulation, simulated => give_state(alloc, &*simulated, out, needed))
}

/// The values of so many steps, of which each has `count`.
fn rows(
    alloc: Global,
    values: &[u8],
    steps: usize,
    count: usize,
) -> Result<Vec<Vec<Lbool>>, MemoryError>
    requires { length values.now ≡ steps * count }
    ensures rows { IfOk result (λ v. map (λ row. row.items) v.items ≡ rows_of count steps (values_of
        values.now)) }
    ensures counts { IfOk result (λ v. All (λ row. length row.items ≡ count) v.items) }
{
    let mut rows = Vec::new(alloc);
    let mut rest = values;
    for step in 0..steps {
        let (row, more) = rest.split_at(count);
        rows.push(values_of(alloc, row)?)?;
        rest = more;
    }
    Ok(rows)
}

/// The numbers of the values of an edge in steps with these inputs, and the lists after them.
fn answers(
    alloc: Global,
    simulated: &Simulated,
    inputs: &[u8],
    steps: usize,
    e: AigEdge,
) -> Result<(Vec<u8>, Stepped), MemoryError>
    requires count { length inputs.now ≡ steps * length simulated.now.circuit.inputs }
    requires edge { IsInRange simulated.now.circuit.nodes e }
    ensures values { IfOk result (λ made. made.0.items ≡ map value_number (values_in e simulated.now
        (steps_of simulated.now.circuit steps inputs.now))) }
    ensures moved { IfOk result (λ made. simulation_then simulated.now.circuit made.1 ≡ stepped_all
        simulated.now (steps_of simulated.now.circuit steps inputs.now)) }
    ensures lists { IfOk result (λ made. AreOf simulated.now.circuit made.1.state.items
        made.1.values.items) }
{
    let rows = rows(alloc, inputs, steps, simulated.aig().inputs().len())?;
    let (values, last) = simulated.simulate_all(alloc, rows.as_slice(), e)?;
    Ok((numbers_of_values(alloc, values.as_slice())?, last))
}

/// The status of a refusal before steps are valued, if there is one.
fn refusal_of(simulated: &Simulated, inputs: &[u8], steps: usize, e: AigEdge) -> Option<u32>
    ensures refused { IfSome result (λ status. HasNoSteps e inputs.now steps status
        simulated.now.circuit) }
    ensures asked { IfNone result (IsAsked e inputs.now steps simulated.now.circuit) }
{
    if !simulated.aig().has_edge(e) {
        return Some(RANGE);
    }
    if steps.checked_mul(simulated.aig().inputs().len()) != Some(inputs.len()) {
        return Some(COUNT);
    }
    if are_values(inputs) {
        None
    } else {
        Some(VALUE)
    }
}

/// Gives the value of an edge in each of the steps with these inputs, and moves the state.
#[tactic(auto, using(crate::proofs::Rows::count_of))]
fn simulate_all(
    alloc: Global,
    simulated: &mut Simulated,
    inputs: &[u8],
    steps: usize,
    e: AigEdge,
    out: &mut [u8],
    needed: &mut usize,
) -> u32
    ensures { AllStepsOr e inputs.now steps result out.old out.new needed.old needed.new
        simulated.old simulated.new }
{
    if let Some(status) = refusal_of(&*simulated, inputs, steps, e) {
        return status;
    }
    if out.len() < steps {
        *needed = steps;
        return SMALL;
    }
    match answers(alloc, &*simulated, inputs, steps, e) {
        Ok((numbers, last)) => {
            let status = give(numbers.as_slice(), out, needed);
            if status == DONE {
                simulated.move_to(last);
            }
            status
        }
        Err(_) => MEMORY,
    }
}

/// Gives the value of an edge in each of the steps with these inputs, one after another, and moves the state.
#[unsafe(no_mangle)]
pub extern "C" fn aig_simulation_simulate_all(
    alloc: Global,
    simulation: &mut Handle,
    inputs: &[u8],
    steps: usize,
    edge: u32,
    out: &mut [u8],
    needed: &mut usize,
) -> u32
    ensures { OnSimulation simulation.old simulation.new result
        ((out.new ≡ out.old) × (needed.new ≡ needed.old)) (AllStepsOr (edge_of edge) inputs.now
        steps result out.old out.new needed.old needed.new) }
{
    let e = edge_of(edge);
    lend_simulation!(alloc, simulation, simulated => simulate_all(alloc, &mut *simulated, inputs, steps, e, out, needed))
}

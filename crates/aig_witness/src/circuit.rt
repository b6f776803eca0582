//! Checks that a witness shows a bad state of a circuit.

ghost use Rattle.std.specs.Prelude.{◌≡◌, ◌<◌, ◌≤◌, [], All, OnOk, IfErr, IfOk, false, length, true};
ghost use Rattle.aig_ternary.specs.Ternary.{HasValue, simulation_of, stepped_all};
ghost use Rattle.aig_witness.specs.Witness.{said_by};
ghost use Rattle.aig_witness.specs.Answers.{Checks, IsWrongStep};
ghost use Rattle.aig_witness.specs.Shown.{AreStarts, AreTrueIn, HoldsSteps};

use crate::Witness;
use crate::fault::WitnessFault;
use aig::{Aig, AigEdge, AigLatch, TernarySimulate};
use aig_base::{Lbool, MemoryError};
use std::alloc::Global;

/// Whether each latch that has an initial edge has the constant one of its value in the state.
pub fn starts(latchs: &[AigLatch], state: &[Lbool]) -> bool
    requires { length state.now ≡ length latchs.now }
    ensures yes { result ≡ true → AreStarts latchs.now state.now }
    ensures no { result ≡ false → ¬ AreStarts latchs.now state.now }
{
    for (i, latch) in latchs.iter().enumerate() {
        if let Some(e) = latch.init() {
            let wanted = if e.compl() { Lbool::TRUE } else { Lbool::FALSE };
            if !e.is_const() || state[i] != wanted {
                return false;
            }
        }
    }
    true
}

/// Whether all edges are known to be true in the last step.
pub fn all_true(simulation: &TernarySimulate<'_>, edges: &[AigEdge]) -> bool
    requires { All (HasValue simulation.now) edges.now }
    ensures yes { result ≡ true → AreTrueIn simulation.now edges.now }
    ensures no { result ≡ false → ¬ AreTrueIn simulation.now edges.now }
{
    for e in edges {
        if simulation.value(*e) != Lbool::TRUE {
            return false;
        }
    }
    true
}

/// A copy of values.
fn copied(alloc: Global, values: &[Lbool]) -> Result<Vec<Lbool>, MemoryError>
    ensures { IfOk result (λ copy. copy.items ≡ values.now) }
{
    Ok(Vec::from_slice(alloc, values)?)
}

/// Simulates the steps of a witness, and checks that each has a value for each input, and that all constraints are known to
/// hold at each.
pub fn check_steps(
    alloc: Global,
    circuit: &Aig,
    simulation: &mut TernarySimulate<'_>,
    witness: &Witness,
) -> Result<(), WitnessFault>
    requires { simulation.old ≡ simulation_of circuit.now witness.now.state.items }
    ensures ok { OnOk result (HoldsSteps circuit.now (said_by witness.now)) }
    ensures moved { OnOk result
        (simulation.new ≡ stepped_all simulation.old (said_by witness.now).steps) }
    ensures wrong { IfErr result (IsWrongStep circuit.now (said_by witness.now)) }
{
    let count = circuit.inputs().len();
    let constraints = circuit.constraints();
    for (t, inputs) in witness.steps.iter().enumerate() {
        if inputs.len() != count {
            return Err(WitnessFault::Inputs(t));
        }
        simulation.simulate(copied(alloc, inputs)?)?;
        if !all_true(simulation, constraints) {
            return Err(WitnessFault::Constraint(t));
        }
    }
    Ok(())
}

/// Checks that a witness shows a bad state of a circuit, by one simulation in three values, a pass over the circuit a step:
/// each latch starts as its initial edge says, each constraint is known to hold at each step, and the bad edge that the
/// witness names at the last one.
///
/// Initial edges that are no constants, as no file has them, are not shown to hold.
///
/// # Errors
///
/// What is wrong first, in the order of `WitnessFault`'s names but for `Inputs` and `Constraint`, which come step by step.
pub fn check_circuit(alloc: Global, circuit: &Aig, witness: &Witness) -> Result<(), WitnessFault>
    ensures { Checks circuit.now (said_by witness.now) result }
{
    let latchs = circuit.latchs();
    let bads = circuit.bads();
    let named = witness.bad as usize;
    if witness.state.len() != latchs.len() {
        return Err(WitnessFault::Latches);
    }
    if witness.steps.is_empty() {
        return Err(WitnessFault::NoStep);
    }
    if named >= bads.len() {
        return Err(WitnessFault::NoBad);
    }
    if !starts(latchs, &witness.state) {
        return Err(WitnessFault::Start);
    }
    let state = copied(alloc, &witness.state)?;
    let mut simulation = TernarySimulate::new(circuit, state);
    check_steps(alloc, circuit, &mut simulation, witness)?;
    if simulation.value(bads[named]) != Lbool::TRUE {
        return Err(WitnessFault::Bad);
    }
    Ok(())
}

//! Checks that a witness shows a fair lasso of a circuit.

ghost use Rattle.std.specs.Prelude.{◌≡◌, ◌++◌, ◌<◌, IfErr, IfOk, OnOk, length, take};
ghost use Rattle.aig_ternary.specs.Ternary.{simulation_of, stepped_all};
ghost use Rattle.aig_witness.specs.Shown.{HoldsSteps};
ghost use Rattle.aig_witness.specs.Witness.{rows_of, said_by};
ghost use Rattle.aig_witness.specs.WrongLassos.{ChecksLasso, IsWrongLasso};
ghost use Rattle.aig_witness.specs.Lassos.{IsKnownLasso, IsLassoStarted, IsLoopStart, named_justice, state_before};

use crate::fair::fault::LassoFault;
use crate::fair::loops::{copied, find_loop, first_unmarked, met_from, state_after};
use crate::{Witness, WitnessFault, check_steps, starts};
use aig::{Aig, AigEdge, TernarySimulate};
use aig_base::{Lbool, MemoryError};
use std::alloc::Global;

/// Checks what is looked at before the steps.
fn check_start(circuit: &Aig, witness: &Witness) -> Result<(), LassoFault>
    ensures ok { OnOk result (IsLassoStarted circuit.now (said_by witness.now)) }
    ensures err { IfErr result (IsWrongLasso circuit.now (said_by witness.now)) }
{
    let latchs = circuit.latchs();
    if witness.state.len() != latchs.len() {
        return Err(LassoFault::Run(WitnessFault::Latches));
    }
    if witness.steps.is_empty() {
        return Err(LassoFault::Run(WitnessFault::NoStep));
    }
    if witness.bad as usize >= circuit.justice().len() {
        return Err(LassoFault::NoJustice);
    }
    if !starts(latchs, &witness.state) {
        return Err(LassoFault::Run(WitnessFault::Start));
    }
    Ok(())
}

/// Checks the steps of a witness that is started, and returns the state after the last one.
fn last_state(alloc: Global, circuit: &Aig, witness: &Witness) -> Result<Vec<Lbool>, LassoFault>
    requires { IsLassoStarted circuit.now (said_by witness.now) }
    ensures steps { OnOk result (HoldsSteps circuit.now (said_by witness.now)) }
    ensures end { let steps = length witness.now.steps.items in
        IfOk result (λ end. end.items ≡ state_before circuit.now (said_by witness.now) steps) }
    ensures long { IfOk result (λ end. length end.items ≡ length circuit.now.latchs) }
    ensures err { IfErr result (IsWrongLasso circuit.now (said_by witness.now)) }
{
    let state = copied(alloc, &witness.state)?;
    let mut simulation = TernarySimulate::new(circuit, state);
    check_steps(alloc, circuit, &mut simulation, witness)?;
    Ok(state_after(alloc, &simulation, circuit.latchs())?)
}

/// The edges of the justice property that a witness names, and then those of fairness.
fn asked_edges(alloc: Global, circuit: &Aig, witness: &Witness) -> Result<Vec<AigEdge>, MemoryError>
    requires { witness.now.bad < length circuit.now.properties.justice }
    ensures { IfOk result (λ edges. edges.items
        ≡ named_justice circuit.now (said_by witness.now) ++ circuit.now.properties.fairness) }
{
    let mut edges = Vec::from_slice(alloc, &circuit.justice()[witness.bad as usize])?;
    edges.extend_from_slice(circuit.fairness())?;
    Ok(edges)
}

/// Checks that each of these edges is met in the loop of a witness, from its start on up to which it was simulated.
fn check_fair(
    alloc: Global,
    circuit: &Aig,
    simulation: &mut TernarySimulate<'_>,
    witness: &Witness,
    start: usize,
) -> Result<(), LassoFault>
    requires started { IsLassoStarted circuit.now (said_by witness.now) }
    requires steps { HoldsSteps circuit.now (said_by witness.now) }
    requires loop_start { IsLoopStart circuit.now (said_by witness.now) start }
    requires so_far { simulation.old
        ≡ stepped_all (simulation_of circuit.now witness.now.state.items)
        (take start (rows_of witness.now.steps.items)) }
    ensures ok { OnOk result (IsKnownLasso circuit.now (said_by witness.now) start) }
    ensures err { IfErr result (IsWrongLasso circuit.now (said_by witness.now)) }
{
    let count = circuit.justice()[witness.bad as usize].len();
    let edges = asked_edges(alloc, circuit, witness)?;
    let marks = met_from(alloc, circuit, simulation, witness, start, &edges)?;
    match first_unmarked(&marks) {
        None => Ok(()),
        Some(n) => {
            if n < count {
                Err(LassoFault::Literal(n))
            } else {
                Err(LassoFault::Fairness(n - count))
            }
        }
    }
}

/// Checks that a witness shows a fair lasso of a circuit, of the justice property of its number, and returns the step at which the
/// loop starts: each latch starts as its initial edge says, each constraint is known to hold at each step, the state before the
/// loop's start is known to come again after the last step, and each edge of the property and of fairness is known to be true at
/// a step of the loop. The loop starts at the first step whose state comes again. It takes two simulations in three values.
///
/// Initial edges that are no constants, as no file has them, are not shown to hold.
///
/// # Errors
///
/// What is wrong first: a state or steps that are no run that meets each constraint, with faults in the order of `check_circuit`;
/// then that no state comes again, and then the first edge that isn't met.
pub fn check_lasso(alloc: Global, circuit: &Aig, witness: &Witness) -> Result<usize, LassoFault>
    ensures { ChecksLasso circuit.now (said_by witness.now) result }
{
    check_start(circuit, witness)?;
    let end = last_state(alloc, circuit, witness)?;
    let state = copied(alloc, &witness.state)?;
    let mut simulation = TernarySimulate::new(circuit, state);
    match find_loop(alloc, circuit, &mut simulation, witness, &end)? {
        None => Err(LassoFault::NoLoop),
        Some(start) => {
            check_fair(alloc, circuit, &mut simulation, witness, start)?;
            Ok(start)
        }
    }
}

//! The loop of a lasso: where it starts, and which edges hold in it.

ghost use Rattle.std.specs.Prelude.{◌≡◌, ◌⊎◌, ◌↔◌, ◌<◌, ◌≤◌, ℕ, All, IfOk, IsTrue, OnOk, false, length, map, slice_index_or, take, true};
ghost use Rattle.aig_base.specs.declared.logic.three.Lbool.TheVariants.{TRUE};
ghost use Rattle.aig_circuit.specs.declared.edge.AigEdge.{AigEdge};
ghost use Rattle.aig_circuit.specs.Circuit.{IsInRange};
ghost use Rattle.aig_ternary.specs.Ternary.{HasValue, simulation_of, stepped_all, value_in};
ghost use Rattle.aig_witness.specs.Shown.{HoldsSteps};
ghost use Rattle.aig_witness.specs.Witness.{rows_of, said_by};
ghost use Rattle.aig_witness.specs.Lassos.{IsSameKnown};
ghost use Rattle.aig_witness.specs.Loops.{AreMarks, FindsLoop, IsFirstFalse};

use crate::Witness;
use aig::{Aig, AigEdge, AigLatch, TernarySimulate};
use aig_base::{Lbool, MemoryError};
use std::alloc::Global;

/// A copy of values.
pub(crate) fn copied(alloc: Global, values: &[Lbool]) -> Result<Vec<Lbool>, MemoryError>
    ensures { IfOk result (λ copy. copy.items ≡ values.now) }
{
    Ok(Vec::from_slice(alloc, values)?)
}

/// Whether each value of a state is known and is that of another one.
fn is_same_known(state: &[Lbool], other: &[Lbool]) -> bool
    requires { length other.now ≡ length state.now }
    ensures yes { result ≡ true → IsSameKnown state.now other.now }
    ensures no { result ≡ false → ¬ IsSameKnown state.now other.now }
{
    for (i, value) in state.iter().enumerate() {
        if *value == Lbool::NONE || *value != other[i] {
            return false;
        }
    }
    true
}

/// The state that follows the last step.
pub(crate) fn state_after(
    alloc: Global,
    simulation: &TernarySimulate<'_>,
    latchs: &[AigLatch],
) -> Result<Vec<Lbool>, MemoryError>
    requires { All (λ latch. HasValue simulation.now latch.next) latchs.now }
    ensures { IfOk result (λ state. state.items
        ≡ map (λ latch. value_in simulation.now latch.next) latchs.now) }
{
    let mut state = Vec::with_capacity(alloc, latchs.len())?;
    for latch in latchs {
        state.push(simulation.value(latch.next()))?;
    }
    Ok(state)
}

/// Simulates a witness's steps up to the first whose state is known and is the given one, if there is one.
pub(crate) fn find_loop(
    alloc: Global,
    circuit: &Aig,
    simulation: &mut TernarySimulate<'_>,
    witness: &Witness,
    end: &[Lbool],
) -> Result<Option<usize>, MemoryError>
    requires steps { HoldsSteps circuit.now (said_by witness.now) }
    requires start { simulation.old ≡ simulation_of circuit.now witness.now.state.items }
    requires state { length witness.now.state.items ≡ length circuit.now.latchs }
    requires end { length end.now ≡ length circuit.now.latchs }
    ensures { IfOk result
        (FindsLoop circuit.now (said_by witness.now) end.now simulation.new) }
{
    let latchs = circuit.latchs();
    let mut state = copied(alloc, &witness.state)?;
    for (t, inputs) in witness.steps.iter().enumerate() {
        if is_same_known(&state, end) {
            return Ok(Some(t));
        }
        simulation.simulate(copied(alloc, inputs)?)?;
        state = state_after(alloc, simulation, latchs)?;
    }
    Ok(None)
}

/// Whether what was marked before, or is true now, is to be marked.
fn is_met(before: bool, value: Lbool) -> bool
    ensures { IsTrue result ↔ (IsTrue before ⊎ (value ≡ TRUE)) }
{
    before || value == Lbool::TRUE
}

/// Marks the edges that are known to be true in the last step.
fn mark(simulation: &TernarySimulate<'_>, edges: &[AigEdge], marks: &mut [bool])
    requires values { All (HasValue simulation.now) edges.now }
    requires count { length marks.old ≡ length edges.now }
    ensures { (i : ℕ) (d : AigEdge) → i < length edges.now
        → IsTrue (slice_index_or marks.new i false)
        ↔ (IsTrue (slice_index_or marks.old i false)
        ⊎ (value_in simulation.now (slice_index_or edges.now i d) ≡ TRUE)) }
{
    for (i, e) in edges.iter().enumerate() {
        marks[i] = is_met(marks[i], simulation.value(*e));
    }
}

/// For each edge whether it is known to be true at a step of a witness, from a step on up to which it was simulated.
pub(crate) fn met_from(
    alloc: Global,
    circuit: &Aig,
    simulation: &mut TernarySimulate<'_>,
    witness: &Witness,
    from: usize,
    edges: &[AigEdge],
) -> Result<Vec<bool>, MemoryError>
    requires steps { HoldsSteps circuit.now (said_by witness.now) }
    requires within { from < length witness.now.steps.items }
    requires so_far { simulation.old
        ≡ stepped_all (simulation_of circuit.now witness.now.state.items)
        (take from (rows_of witness.now.steps.items)) }
    requires edges { All (IsInRange circuit.now.nodes) edges.now }
    ensures { IfOk result (λ marks.
        AreMarks circuit.now (said_by witness.now) from edges.now marks.items) }
{
    let mut marks = vec![in alloc; false; edges.len()]?;
    for t in from..witness.steps.len() {
        let inputs = copied(alloc, &witness.steps[t])?;
        simulation.simulate(inputs)?;
        mark(simulation, edges, &mut marks);
    }
    Ok(marks)
}

/// The first place that isn't marked.
pub(crate) fn first_unmarked(marks: &[bool]) -> Option<usize>
    ensures { IsFirstFalse marks.now result }
{
    for (i, is_marked) in marks.iter().enumerate() {
        if !*is_marked {
            return Some(i);
        }
    }
    None
}

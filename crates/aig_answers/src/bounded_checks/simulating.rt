//! The first bad state of a run.

ghost use Rattle.std.specs.Prelude.{◌≡◌, ◌<◌, All, IfNone, IfOk, IfSome, false, length, true};
ghost use Rattle.aig_circuit.specs.Circuit.{IsCircuit};
ghost use Rattle.aig_circuit.specs.View.{lists_circuit};
ghost use Rattle.aig_ternary.specs.Ternary.{HasValue, simulation_of};
ghost use Rattle.aig_witness.specs.Shown.{AreTrueIn};
ghost use Rattle.aig_witness.specs.Witness.{rows_of, said_by};
ghost use Rattle.aig_answers.specs.Solving.{HasNoTrueIn, IsReached, IsTrueIn};

use aig_base::{Lbool, MemoryError};
use aig_circuit::{AigEdge, CircuitLists, CircuitView};
use aig_ternary::Simulator;
use aig_witness::Witness;
use std::alloc::Global;

/// The first bad state of a run.
#[derive(Clone, Copy)]
pub(crate) struct Reached {
    /// The step.
    pub step: usize,
    /// The number of a bad edge that is true there.
    pub bad: u32,
}

/// Whether all edges are known to be true in the last step.
fn are_true(simulator: &Simulator<'_>, edges: &[AigEdge]) -> bool
    requires { All (HasValue simulator.now) edges.now }
    ensures yes { result ≡ true → AreTrueIn simulator.now edges.now }
    ensures no { result ≡ false → ¬ AreTrueIn simulator.now edges.now }
{
    for e in edges {
        if simulator.value(*e) != Lbool::TRUE {
            return false;
        }
    }
    true
}

/// The number of the first edge that is known to be true in the last step, if it is below 2^32.
fn first_true(simulator: &Simulator<'_>, edges: &[AigEdge]) -> Option<u32>
    requires { All (HasValue simulator.now) edges.now }
    ensures some { IfSome result (IsTrueIn simulator.now edges.now) }
    ensures none { IfNone result (HasNoTrueIn simulator.now edges.now) }
{
    for (i, e) in edges.iter().enumerate() {
        if i > u32::MAX as usize {
            return None;
        }
        if simulator.value(*e) == Lbool::TRUE {
            return Some(i as u32);
        }
    }
    None
}

/// Simulates steps with these inputs up to the first with a bad state, with the constraints at each step.
fn simulate_to_bad(
    circuit: &CircuitView<'_>,
    simulator: &mut Simulator<'_>,
    steps: &[Vec<Lbool>],
) -> Result<Option<Reached>, MemoryError>
    requires begins { simulator.old ≡ simulation_of circuit.now simulator.old.state }
    requires inputs { All (λ row. length row.items ≡ length circuit.now.inputs) steps.now }
    ensures { IfOk result (IsReached circuit.now simulator.old.state (rows_of steps.now)) }
{
    for (step, inputs) in steps.iter().enumerate() {
        simulator.simulate(inputs)?;
        if !are_true(simulator, circuit.constraints()) {
            return Ok(None);
        }
        if let Some(bad) = first_true(simulator, circuit.bads()) {
            return Ok(Some(Reached { step, bad }));
        }
    }
    Ok(None)
}

/// The first step of a run with a bad state, with the constraints at each step up to there.
pub(crate) fn find_bad(
    alloc: Global,
    lists: &CircuitLists,
    run: &Witness,
) -> Result<Option<Reached>, MemoryError>
    requires circuit { IsCircuit (lists_circuit lists.now) }
    requires state { length run.now.state.items ≡ length lists.now.latchs.items }
    requires inputs { All (λ row. length row.items ≡ length lists.now.inputs.items)
        run.now.steps.items }
    ensures { IfOk result
        (IsReached (lists_circuit lists.now) (said_by run.now).state (said_by run.now).steps) }
{
    let state = Vec::from_slice(alloc, &run.state)?;
    let mut simulator = Simulator::new(CircuitView::new(lists), state);
    simulate_to_bad(&CircuitView::new(lists), &mut simulator, &run.steps)
}

//! Steps in three values, each of which makes new lists.

ghost use Rattle.std.specs.Prelude.{◌≡◌, ◌<◌, ◌++◌, All, IfOk, OnOk, length, map};
ghost use Rattle.aig_circuit.specs.Circuit.{IsInRange};
ghost use Rattle.aig_held.specs.Moments.{AreOf, simulation_then};
ghost use Rattle.aig_ternary.specs.Step.{value_by};
ghost use Rattle.aig_ternary.specs.Ternary.{simulation_of, stepped, stepped_all, values_in};

use aig::{Aig, AigEdge, AigLatch};
use aig_base::{Lbool, MemoryError};
use std::alloc::Global;

/// The values of the nodes in a step, and the state that follows.
#[derive(Drop)]
pub struct Stepped {
    pub values: Vec<Lbool>,
    pub state: Vec<Lbool>,
}

/// The value of an edge, by those of the nodes.
pub(crate) fn edge_value(values: &[Lbool], e: AigEdge) -> Lbool
    requires { e.node_id < length values.now }
    ensures { result ≡ value_by values.now e }
{
    values[e.node_id()].not_if(e.compl())
}

/// The values of latches' next edges.
fn following(
    alloc: Global,
    latchs: &[AigLatch],
    values: &[Lbool],
) -> Result<Vec<Lbool>, MemoryError>
    requires { All (λ latch. latch.next.node_id < length values.now) latchs.now }
    ensures { IfOk result (λ v. v.items ≡ map (λ latch. value_by values.now latch.next)
        latchs.now) }
{
    Ok(
        latchs
            .iter()
            .map(|latch| edge_value(values, latch.next()))
            .collect(alloc)?,
    )
}

/// One step from a state, with these inputs.
pub fn step(
    alloc: Global,
    aig: &Aig,
    state: &[Lbool],
    inputs: &[Lbool],
) -> Result<Stepped, MemoryError>
    requires inputs { length inputs.now ≡ length aig.now.inputs }
    requires state { length state.now ≡ length aig.now.latchs }
    ensures stepped { IfOk result (λ s. simulation_then aig.now s ≡ stepped (simulation_of aig.now
        state.now) inputs.now) }
    ensures values { IfOk result (λ s. length s.values.items ≡ length aig.now.nodes) }
    ensures state { IfOk result (λ s. length s.state.items ≡ length aig.now.latchs) }
{
    let values = aig.ternary_simulate(inputs, state)?;
    let state = following(alloc, aig.latchs(), values.as_slice())?;
    Ok(Stepped { values, state })
}

/// Steps with these inputs, one after another, and appends the value of an edge in each.
pub(crate) fn steps(
    alloc: Global,
    aig: &Aig,
    first: Stepped,
    rows: &[Vec<Lbool>],
    e: AigEdge,
    answers: &mut Vec<Lbool>,
) -> Result<Stepped, MemoryError>
    requires inputs { All (λ row. length row.items ≡ length aig.now.inputs) rows.now }
    requires edge { IsInRange aig.now.nodes e }
    requires first { AreOf aig.now first.state.items first.values.items }
    ensures last { IfOk result (λ s. AreOf aig.now s.state.items s.values.items) }
    ensures moved { IfOk result (λ s. simulation_then aig.now s ≡ stepped_all
        (simulation_then aig.now first) (map (λ row. row.items) rows.now)) }
    ensures answered { OnOk result (answers.new.items ≡ answers.old.items ++ values_in e
        (simulation_then aig.now first) (map (λ row. row.items) rows.now)) }
{
    let mut now = first;
    for row in rows {
        now = step(alloc, aig, now.state.as_slice(), row.as_slice())?;
        answers.push(edge_value(now.values.as_slice(), e))?;
    }
    Ok(now)
}

//! The engine of liveness to safety.

ghost use Rattle.std.specs.Prelude.{◌+◌, ◌<◌, ◌^◌, IfOk, All, length};
ghost use Rattle.aig_circuit.specs.Circuit.{IsInRange};
ghost use Rattle.aig_circuit.specs.View.{lists_circuit};
ghost use Rattle.aig_live.specs.Live.{IsLiveOf};

use crate::making::{make_parts, push_latches};
use crate::naming::put_live_names;
use aig_base::MemoryError;
use aig_circuit::{AigEdge, CircuitLists, CircuitView};

/// Returns the circuit with a bad state that is reached at a step exactly where a fair lasso of the edges ends there: one input
/// more, which saves the state, and latches that say whether one was saved, have it, and say which edges were true since
/// then. These leaves have names. Constraints and old names stay; other properties are dropped. The one error is refused memory.
pub fn live(circuit: &CircuitView<'_>, edges: &[AigEdge]) -> Result<CircuitLists, MemoryError>
    requires edges { All (IsInRange circuit.now.nodes) edges.now }
    requires room { length circuit.now.nodes + 2 + length circuit.now.latchs + length edges.now
        < 2 ^ 64 }
    ensures { IfOk result (λ lists. IsLiveOf edges.now circuit.now (lists_circuit lists)) }
{
    let alloc = circuit.allocator();
    let n = circuit.nodes().len();
    let count = circuit.latchs().len();
    let mut lists = circuit.to_lists()?;
    let parts = make_parts(alloc, &mut lists.nodes, circuit.latchs(), edges)?;
    lists.inputs.push(n)?;
    push_latches(&mut lists.latchs, n + 1, &[parts.active])?;
    push_latches(&mut lists.latchs, n + 2, &parts.starts)?;
    push_latches(&mut lists.latchs, n + 2 + count, &parts.seen)?;
    lists.properties.outputs.clear();
    lists.properties.bads.clear();
    lists.properties.bads.push(parts.bad)?;
    lists.properties.justice.clear();
    lists.properties.fairness.clear();
    put_live_names(&mut lists.names, circuit, edges.len())?;
    Ok(lists)
}

//! The engine that counts rounds, and its laws.

ghost use Rattle.std.specs.Prelude.{◌≡◌, ◌↔◌, ◌+◌, ◌<◌, ◌^◌, ℕ, IfOk, All, Bool, List, Option, length, slice_index_or};
ghost use Rattle.std.specs.FinMap.{get};
ghost use Rattle.aig_circuit.specs.declared.edge.AigEdge.{AigEdge};
ghost use Rattle.aig_circuit.specs.Circuit.{Circuit, IsCircuit, IsClosed, IsInRange};
ghost use Rattle.aig_circuit.specs.Edges.{HasConstantInit};
ghost use Rattle.aig_circuit.specs.View.{lists_circuit};
ghost use Rattle.aig_live.specs.Names.{rounds_names};
ghost use Rattle.aig_live.specs.Rounds.{HasRounds, IsRoundsOf, IsRoundsRun};
ghost use Rattle.aig_runs.specs.CircuitQueries.{HasCircuitWitness, IsCircuitWitness};

use crate::counting::count_rounds;
use crate::making::push_latches;
use crate::naming::put_rounds_names;
use aig_base::MemoryError;
use aig_circuit::{AigEdge, CircuitLists, CircuitView};

/// Returns the circuit with a bad state that is reached at a step exactly where so many rounds ended by then: in each of them every
/// edge was true. A latch more for each edge says that it was true in this round, and one for each round that so many ended.
/// These leaves have names. Constraints and old names stay; other properties are dropped. The one error is refused memory.
pub fn rounds(
    circuit: &CircuitView<'_>,
    edges: &[AigEdge],
    count: usize,
) -> Result<CircuitLists, MemoryError>
    requires edges { All (IsInRange circuit.now.nodes) edges.now }
    requires room { length circuit.now.nodes + length edges.now + count < 2 ^ 64 }
    ensures { IfOk result (λ lists. IsRoundsOf edges.now count circuit.now (lists_circuit lists)) }
{
    let alloc = circuit.allocator();
    let n = circuit.nodes().len();
    let mut lists = circuit.to_lists()?;
    let counted = count_rounds(alloc, &mut lists.nodes, edges, count)?;
    push_latches(&mut lists.latchs, n, &counted.nexts)?;
    lists.properties.outputs.clear();
    lists.properties.bads.clear();
    lists.properties.bads.push(counted.bad)?;
    lists.properties.justice.clear();
    lists.properties.fairness.clear();
    put_rounds_names(alloc, &mut lists.names, n, edges.len(), count)?;
    Ok(lists)
}

/// Law: the circuit that counts rounds reaches its bad state at a step exactly where so many rounds end in a run of so many steps,
/// and the run that reaches it is one.
pub fn bad_states_are_rounds()
    ensures step { (edges : List AigEdge) (count : ℕ) (c new : Circuit) (k : ℕ) → IsCircuit c
        → IsRoundsOf edges count c new → HasCircuitWitness new k ↔ HasRounds edges count c k }
    ensures run { (edges : List AigEdge) (count : ℕ) (c new : Circuit) (k : ℕ) (z : ℕ → ℕ → Bool)
        → IsCircuit c → IsRoundsOf edges count c new → IsCircuitWitness new k z
        → IsRoundsRun edges count c k z }
{}

/// Law: the circuit that counts rounds of a circuit is one, and has no free leaf and constant starts alone where that has.
pub fn rounds_circuits_are_circuits()
    ensures circuit { (edges : List AigEdge) (count : ℕ) (c new : Circuit) → IsCircuit c
        → IsRoundsOf edges count c new → IsCircuit new }
    ensures closed { (edges : List AigEdge) (count : ℕ) (c new : Circuit) → IsCircuit c
        → IsRoundsOf edges count c new → IsClosed c → IsClosed new }
    ensures starts { (edges : List AigEdge) (count : ℕ) (c new : Circuit) → IsCircuit c
        → IsRoundsOf edges count c new
        → All HasConstantInit c.latchs → All HasConstantInit new.latchs }
{}

/// Law: in the circuit that counts rounds of a circuit each old node keeps its name, and each leaf that is added has its own.
pub fn rounds_circuits_keep_names()
    ensures old { (edges : List AigEdge) (count : ℕ) (c new : Circuit) (n : ℕ) → IsCircuit c
        → IsRoundsOf edges count c new → n < length c.nodes → get new.names n ≡ get c.names n }
    ensures added { (edges : List AigEdge) (count : ℕ) (c new : Circuit) (k : ℕ)
        (d : Option (List ℕ)) → IsCircuit c → IsRoundsOf edges count c new
        → k < length edges + count → get new.names (length c.nodes + k)
        ≡ slice_index_or (rounds_names (length edges) count) k d }
{}

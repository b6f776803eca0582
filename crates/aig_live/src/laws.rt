//! Laws of liveness to safety.

ghost use Rattle.std.specs.Prelude.{◌≡◌, ◌↔◌, ◌+◌, ◌<◌, ℕ, All, Bool, List, Option, length, slice_index_or};
ghost use Rattle.std.specs.FinMap.{get};
ghost use Rattle.aig_circuit.specs.declared.edge.AigEdge.{AigEdge};
ghost use Rattle.aig_circuit.specs.Circuit.{Circuit, IsCircuit, IsClosed};
ghost use Rattle.aig_circuit.specs.Edges.{HasConstantInit};
ghost use Rattle.aig_live.specs.Lassos.{HasLasso, IsLasso};
ghost use Rattle.aig_live.specs.Live.{IsLiveOf};
ghost use Rattle.aig_live.specs.Names.{live_names};
ghost use Rattle.aig_runs.specs.CircuitQueries.{HasCircuitWitness, IsCircuitWitness};

/// Law: the live circuit of a circuit reaches its bad state at a step exactly where a fair lasso of so many steps is there, and
/// the run that reaches it is one.
pub fn bad_states_are_lassos()
    ensures step { (edges : List AigEdge) (c new : Circuit) (k : ℕ) → IsCircuit c
        → IsLiveOf edges c new → HasCircuitWitness new k ↔ HasLasso edges c k }
    ensures run { (edges : List AigEdge) (c new : Circuit) (k : ℕ) (z : ℕ → ℕ → Bool) → IsCircuit c
        → IsLiveOf edges c new → IsCircuitWitness new k z
        → (l : ℕ) × IsLasso edges c l k z }
{}

/// Law: the live circuit of a circuit is one, and has no free leaf and constant starts alone where that has.
pub fn live_circuits_are_circuits()
    ensures circuit { (edges : List AigEdge) (c new : Circuit) → IsCircuit c → IsLiveOf edges c new
        → IsCircuit new }
    ensures closed { (edges : List AigEdge) (c new : Circuit) → IsCircuit c → IsLiveOf edges c new
        → IsClosed c → IsClosed new }
    ensures starts { (edges : List AigEdge) (c new : Circuit) → IsCircuit c → IsLiveOf edges c new
        → All HasConstantInit c.latchs → All HasConstantInit new.latchs }
{}

/// Law: in the live circuit of a circuit each old node keeps its name, and each leaf that is added has its own.
pub fn live_circuits_keep_names()
    ensures old { (edges : List AigEdge) (c new : Circuit) (n : ℕ) → IsCircuit c
        → IsLiveOf edges c new → n < length c.nodes → get new.names n ≡ get c.names n }
    ensures added { (edges : List AigEdge) (c new : Circuit) (k : ℕ) (d : Option (List ℕ))
        → IsCircuit c → IsLiveOf edges c new → k < 2 + length c.latchs + length edges
        → get new.names (length c.nodes + k)
        ≡ slice_index_or (live_names c (length edges)) k d }
{}

//! Laws of merging.

ghost use Rattle.std.specs.Prelude.{◌≡◌, length};
ghost use Rattle.aig_circuit.specs.Circuit.{Circuit, IsCircuit, only_false};
ghost use Rattle.aig_change.specs.Merge.{PairsRuns, merged, shifted};

/// Law: two circuits merged are a circuit.
pub fn merging_is_circuit()
    ensures { (first second : Circuit) → IsCircuit first → IsCircuit second
        → IsCircuit (merged first second) }
{}

/// Law: a run of two circuits merged is a pair of runs, and an initial state a pair of initial states.
pub fn merging_pairs_runs()
    ensures { (first second : Circuit) → IsCircuit first → IsCircuit second
        → PairsRuns first second (merged first second) (shifted (length first.nodes)) }
{}

/// Law: the circuit of the false node alone adds nothing.
pub fn merging_with_false()
    ensures { (c : Circuit) → merged c only_false ≡ c }
{}

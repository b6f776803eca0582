//! Laws of refining.

ghost use Rattle.std.specs.Prelude.{◌≡◌, ℕ, List};
ghost use Rattle.aig_circuit.specs.Circuit.{Circuit, IsCircuit};
ghost use Rattle.aig_cone.specs.Refine.{AreKept, CutsRuns, all_numbers, refined};

/// Law: the refined circuit is a circuit.
pub fn refining_is_circuit()
    ensures { (c : Circuit) (kept : List ℕ) → IsCircuit c → AreKept c kept
        → IsCircuit (refined kept c) }
{}

/// Law: its runs are those of the old circuit, cut to the kept leaves.
pub fn refining_keeps_runs()
    ensures { (c : Circuit) (kept : List ℕ) → IsCircuit c → AreKept c kept
        → CutsRuns c (refined kept c) kept }
{}

/// Law: refining a refined circuit keeps all its nodes, and nothing else is kept of it, and it changes nothing.
pub fn refining_twice()
    ensures all { (c : Circuit) (kept : List ℕ) → IsCircuit c → AreKept c kept
        → AreKept (refined kept c) (all_numbers (refined kept c)) }
    ensures only { (c : Circuit) (kept again : List ℕ) → IsCircuit c → AreKept c kept
        → AreKept (refined kept c) again → again ≡ all_numbers (refined kept c) }
    ensures same { (c : Circuit) (kept again : List ℕ) → IsCircuit c → AreKept c kept
        → AreKept (refined kept c) again → refined again (refined kept c) ≡ refined kept c }
{}

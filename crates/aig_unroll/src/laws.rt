//! Laws of unrolling.

ghost use Rattle.std.specs.Prelude.{ℕ, ◌+◌};
ghost use Rattle.aig_circuit.specs.Circuit.{Circuit, IsCircuit};
ghost use Rattle.aig_unroll.specs.Unroll.{AddsExactly, UnrollsOnce, UnrollsTo};

/// Law: a circuit is itself unrolled by no step.
pub fn unrolls_by_none()
    ensures { (c : Circuit) → IsCircuit c → UnrollsTo c 0 c }
{}

/// Law: one step more unrolls by one more.
pub fn steps_unroll()
    ensures { (c old new : Circuit) (k : ℕ) → IsCircuit c → IsCircuit old → IsCircuit new
        → UnrollsTo c k old → UnrollsOnce c old new → UnrollsTo c (k + 1) new }
{}

/// Law: one step adds inputs and gates alone, and an entry for each entry of the circuit that it is a step of.
pub fn adds_exactly()
    ensures { (from old new : Circuit) → IsCircuit old → UnrollsOnce from old new
        → AddsExactly from old new }
{}

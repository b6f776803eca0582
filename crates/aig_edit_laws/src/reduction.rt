//! Laws of reductions, and of circuits that keep one another's runs.

ghost use Rattle.std.specs.Prelude.{◌≡◌, ℕ, List};
ghost use Rattle.aig_circuit.specs.Circuit.{Circuit, IsCircuit};
ghost use Rattle.aig_circuit.specs.Runs.{KeepsRuns};
ghost use Rattle.aig_cone.specs.Refine.{AreKept, CutsRuns, refined};
ghost use Rattle.aig_strash.specs.Strash.{strashed};
ghost use Rattle.aig_edit_laws.specs.Reduction.{HaveSameWitnesses, IsAskedCone, IsReduced, asked_alone};

use aig_cone::{refining_is_circuit, refining_keeps_runs};
use aig_strash::strashing_keeps_runs;

/// Law: a circuit whose runs are another's, under new numbers or cut to the kept leaves, has a witness at each step exactly
/// where that one has; and outputs, justice, fairness, and latches out of the cone of what is asked have no part in it.
pub fn runs_keep_witnesses()
    ensures renumbered { (old new : Circuit) (number : ℕ → ℕ)
        → IsCircuit old → KeepsRuns old new number → HaveSameWitnesses old new }
    ensures cut { (old new : Circuit) (kept : List ℕ)
        → IsCircuit new → CutsRuns old new kept → HaveSameWitnesses old new }
    ensures others { (c : Circuit) (cone : List ℕ)
        → IsCircuit c → IsAskedCone c cone → HaveSameWitnesses c (asked_alone cone c) }
    ensures both { (c d e : Circuit)
        → HaveSameWitnesses c d → HaveSameWitnesses d e → HaveSameWitnesses c e }
{}

/// Law: a circuit with the latches alone that its query's cone reaches is a circuit.
pub fn asked_circuits_are_circuits()
    ensures { (c : Circuit) (cone : List ℕ) → IsCircuit c → IsCircuit (asked_alone cone c) }
{}

/// Law: where a circuit is cut to what its query needs and then hashed, that is its reduction.
pub fn hashed_cuts_are_reductions()
    ensures { (c : Circuit) (cone kept : List ℕ) → IsCircuit c → IsAskedCone c cone
        → AreKept (asked_alone cone c) kept
        → IsReduced c (strashed (refined kept (asked_alone cone c))) }
{
    refining_is_circuit();
    refining_keeps_runs();
    strashing_keeps_runs();
}

/// Law: a circuit has one reduction.
pub fn reductions_are_alone()
    ensures { (c d e : Circuit) → IsReduced c d → IsReduced c e → d ≡ e }
{}

//! Laws of fair runs, fair lassos and rounds.

ghost use Rattle.std.specs.Prelude.{◌≤◌, ◌^◌, ◌↔◌, ℕ, Bool, List, length, map};
ghost use Rattle.aig_circuit.specs.declared.edge.AigEdge.{AigEdge};
ghost use Rattle.aig_circuit.specs.Circuit.{Circuit, IsCircuit};
ghost use Rattle.aig_format.specs.Circuit.{IsReadAgain, circuit_of, edge_of, file_of};
ghost use Rattle.aig_format.specs.declared.FileKind.TheVariants.{Text};
ghost use Rattle.aig_format.specs.Writable.{FitsFormat, IsWritable};
ghost use Rattle.aig_edit_laws.specs.Shown.{HasWitness};
ghost use Rattle.aig_runs.specs.CircuitQueries.{HasCircuitWitness};
ghost use Rattle.aig_format.specs.File.{File};
ghost use Rattle.aig_format.specs.Machine.{Moves};
ghost use Rattle.aig_format.specs.Fits.{Fits};
ghost use Rattle.aig_live.specs.Turning.{turn};
ghost use Rattle.aig_live.specs.Live.{IsLiveOf, live_size};
ghost use Rattle.aig_live.specs.Rounds.{IsRoundsOf, rounds_size};
ghost use Rattle.aig_edit_laws.specs.Fair.{AreAskedBy, HasFairLasso, HasFairRun, IsFairLasso, IsFairRun};
ghost use Rattle.aig_edit_laws.specs.Rounds.{HasMachineRounds};
ghost use Rattle.aig_edit_laws.specs.declared.fairness.Fairness.{Fairness};

use crate::written_circuits_have_witnesses;

/// Law: a fair lasso goes on as a fair run.
pub fn lassos_go_on()
    ensures { (f : File) (literals : List ℕ) (l k : ℕ) (run : ℕ → ℕ → Bool)
        → IsFairLasso f literals l k run → IsFairRun f literals (λ t. run (turn l k t)) }
{}

/// Law: the first steps of a fair run are a fair lasso.
pub fn fair_runs_come_back()
    ensures { (f : File) (literals : List ℕ) (run : ℕ → ℕ → Bool) → IsFairRun f literals run
        → (l : ℕ) × (k : ℕ) × IsFairLasso f literals l k run }
{}

/// Law: there is a fair run exactly where there is a fair lasso.
pub fn fair_runs_are_lassos()
    ensures { (f : File) (fairness : Fairness)
        → HasFairRun f fairness ↔ ((k : ℕ) × HasFairLasso f fairness k) }
{}

/// Law: the circuit that is live for the edges of what is asked for of a file has a bad state at step k exactly where there is a
/// fair lasso of k + 1 steps; and where it has none at any step, there is no fair run.
pub fn live_circuits_show_lassos()
    ensures step { (f : File) (limit : ℕ) (fairness : Fairness) (k : ℕ) (literals : List ℕ)
        (new : Circuit) → Fits f limit → AreAskedBy f fairness literals
        → IsLiveOf (map (edge_of f) literals) (circuit_of f) new
        → HasCircuitWitness new k ↔ HasFairLasso f fairness k }
    ensures none { (f : File) (limit : ℕ) (fairness : Fairness) (literals : List ℕ)
        (new : Circuit) → Fits f limit → AreAskedBy f fairness literals
        → IsLiveOf (map (edge_of f) literals) (circuit_of f) new
        → ((k : ℕ) → ¬ HasCircuitWitness new k) → ¬ HasFairRun f fairness }
{}

/// Law: a live circuit of a circuit with a written form fits the format where the bound of its size is at most 2^31.
pub fn small_live_circuits_fit()
    ensures { (edges : List AigEdge) (c new : Circuit) → IsCircuit c → IsWritable c
        → IsLiveOf edges c new → live_size c (length edges) ≤ 2 ^ 31 → FitsFormat new }
{}

/// Law: the text of a live circuit that fits the format is a file; its machine reaches its bad state at step k exactly where
/// there is a fair lasso of k + 1 steps.
pub fn written_live_circuits_show_lassos()
    ensures { (f : File) (limit : ℕ) (fairness : Fairness) (literals : List ℕ) (new : Circuit)
        → Fits f limit → IsWritable (circuit_of f) → AreAskedBy f fairness literals
        → IsLiveOf (map (edge_of f) literals) (circuit_of f) new → FitsFormat new
        → IsReadAgain new (file_of Text new)
        × ((k : ℕ) → HasWitness (file_of Text new) k ↔ HasFairLasso f fairness k) }
{
    written_circuits_have_witnesses();
}

/// Law: where a lasso's loop starts at a step, it can start at an earlier one that has the same state; so a check of a witness
/// need look at the first such step alone.
pub fn loops_start_early()
    ensures { (f : File) (literals : List ℕ) (m l k : ℕ) (run : ℕ → ℕ → Bool) → m ≤ l
        → Moves f (run k) (run m) → IsFairLasso f literals l k run
        → IsFairLasso f literals m k run }
{}

/// Law: on a fair run as many rounds end as one wants.
pub fn fair_runs_end_rounds()
    ensures { (f : File) (fairness : Fairness) (count : ℕ) → HasFairRun f fairness
        → (k : ℕ) × HasMachineRounds f fairness count k }
{}

/// Law: the circuit that counts rounds of the edges of what is asked for of a file has a bad state at step k exactly where so
/// many rounds end in a run of k + 1 steps; and where it has none at any step, there is no fair run.
pub fn rounds_circuits_show_rounds()
    ensures step { (f : File) (limit : ℕ) (fairness : Fairness) (count k : ℕ) (literals : List ℕ)
        (new : Circuit) → Fits f limit → AreAskedBy f fairness literals
        → IsRoundsOf (map (edge_of f) literals) count (circuit_of f) new
        → HasCircuitWitness new k ↔ HasMachineRounds f fairness count k }
    ensures none { (f : File) (limit : ℕ) (fairness : Fairness) (count : ℕ) (literals : List ℕ)
        (new : Circuit) → Fits f limit → AreAskedBy f fairness literals
        → IsRoundsOf (map (edge_of f) literals) count (circuit_of f) new
        → ((k : ℕ) → ¬ HasCircuitWitness new k) → ¬ HasFairRun f fairness }
{}

/// Law: a circuit that counts rounds of a circuit with a written form fits the format where the bound of its size is at most 2^31.
pub fn small_rounds_circuits_fit()
    ensures { (edges : List AigEdge) (count : ℕ) (c new : Circuit) → IsCircuit c → IsWritable c
        → IsRoundsOf edges count c new → rounds_size c (length edges) count ≤ 2 ^ 31
        → FitsFormat new }
{}

/// Law: the text of a circuit that counts rounds, if it fits the format, is a file; its machine reaches its bad state at step k
/// exactly where so many rounds of what is asked for end in a run of k + 1 steps. Where it never does, for some number of
/// rounds, there is no fair run.
pub fn written_rounds_circuits_show_rounds()
    ensures { (f : File) (limit : ℕ) (fairness : Fairness) (count : ℕ) (literals : List ℕ)
        (new : Circuit) → Fits f limit → IsWritable (circuit_of f)
        → AreAskedBy f fairness literals
        → IsRoundsOf (map (edge_of f) literals) count (circuit_of f) new → FitsFormat new
        → IsReadAgain new (file_of Text new)
        × ((k : ℕ) → HasWitness (file_of Text new) k ↔ HasMachineRounds f fairness count k)
        × (((k : ℕ) → ¬ HasWitness (file_of Text new) k) → ¬ HasFairRun f fairness) }
{
    written_circuits_have_witnesses();
}

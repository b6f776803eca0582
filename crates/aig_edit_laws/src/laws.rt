//! Laws of what an edited circuit's runs show.

ghost use Rattle.std.specs.Prelude.{◌≡◌, ℕ, ◌≤◌, ◌↔◌, ◌⊎◌, Bool, [], length};
ghost use Rattle.aig_circuit.specs.Circuit.{Circuit, IsCircuit};
ghost use Rattle.aig_change.specs.Changes.{CompressesBads, FoldsConstraints};
ghost use Rattle.aig_change.specs.Merge.{merged};
ghost use Rattle.aig_change.specs.Runs.{IsAllowedRun};
ghost use Rattle.aig_format.specs.Circuit.{IsReadAgain, circuit_of};
ghost use Rattle.aig_format.specs.File.{File};
ghost use Rattle.aig_format.specs.Fits.{Fits};
ghost use Rattle.aig_edit_laws.specs.Reduction.{HaveSameWitnesses};
ghost use Rattle.aig_runs.specs.CircuitQueries.{HasCircuitWitness, IsCircuitWitness};
ghost use Rattle.aig_unroll.specs.Unroll.{UnrollsTo};
ghost use Rattle.aig_edit_laws.specs.Shown.{HasBadAt, HasBadBy, HasCircuitBadAt, HasCircuitBadBy, HasCircuitOutput, HasCircuitOutputAt, HasCircuitRun, HasOutput, HasOutputAt, HasRun, HasWitness, IsConeOf, IsPropertyOf, always_bad, outputs_as_bads};

use crate::reduction::runs_keep_witnesses;
use aig_change::merging_pairs_runs;
use aig_circuit::leaves_fix_values;
use aig_cone::{refining_is_circuit, refining_keeps_runs};
use aig_format_laws::{files_are_circuits, joins_runs};
use aig_runs::circuit_witnesses_are_file_witnesses;

/// Law: a circuit whose bad edges became one has a witness at each step exactly where it had one before; and so has a circuit
/// whose constraints were joined to its first bad edge, where it had no constraint, or at most one bad edge.
pub fn changed_circuits_keep_witnesses()
    ensures compressed { (old new : Circuit) → IsCircuit old → CompressesBads old new
        → HaveSameWitnesses old new }
    ensures folded { (old new : Circuit) → IsCircuit old → FoldsConstraints old new
        → (old.properties.constraints ≡ []) ⊎ (length old.properties.bads ≤ 1)
        → HaveSameWitnesses old new }
{
    leaves_fix_values();
}

/// Law: a circuit with k further steps has a witness of one step exactly where the circuit has a run of k + 1 steps from an initial
/// state with every constraint at each step and some bad edge at one of them.
pub fn unrolled_witnesses_are_runs()
    ensures { (c unrolled : Circuit) (k : ℕ) → UnrollsTo c k unrolled
        → HasCircuitWitness unrolled 0 ↔ HasCircuitBadBy c k }
{}

/// Law: a circuit with its outputs as its bad edges has a witness exactly where the circuit has such a run with some output at
/// its last step.
pub fn outputs_become_bads()
    ensures { (c : Circuit) (k : ℕ)
        → HasCircuitWitness (outputs_as_bads c) k ↔ HasCircuitOutput c k }
{}

/// Law: a circuit with its bad edge n as the only one has a witness exactly where the circuit has such a run with that bad edge at
/// its last step.
pub fn properties_show_their_bad()
    ensures { (c new : Circuit) (n k : ℕ) → IsPropertyOf n c new
        → HasCircuitWitness new k ↔ HasCircuitBadAt c n k }
{}

/// Law: the witnesses of a circuit with true as its only bad edge are the circuit's runs from an initial state with every
/// constraint at each step.
pub fn always_bad_runs_are_runs()
    ensures { (c : Circuit) (k : ℕ) (x : ℕ → ℕ → Bool) → IsCircuit c
        → IsCircuitWitness (always_bad c) k x ↔ IsAllowedRun c k x }
{}

/// Law: the cone of a circuit's output shows that output exactly where the circuit does.
pub fn cones_show_their_output()
    ensures { (c cone : Circuit) (n k : ℕ) → IsCircuit c → IsConeOf n c cone
        → HasCircuitOutput cone k ↔ HasCircuitOutputAt c n k }
{
    refining_is_circuit();
    refining_keeps_runs();
    runs_keep_witnesses();
}

/// Law: two circuits merged have a witness exactly where one of them has one, and the other a run as long from an initial
/// state with every constraint at each step.
pub fn merged_witnesses_are_pairs()
    ensures { (first second : Circuit) (k : ℕ) → IsCircuit first → IsCircuit second
        → HasCircuitWitness (merged first second) k
        ↔ ((HasCircuitWitness first k × HasCircuitRun second k)
        ⊎ (HasCircuitRun first k × HasCircuitWitness second k)) }
{
    merging_pairs_runs();
    leaves_fix_values();
}

/// Law: a file's machine shows what the file's circuit shows.
pub fn shown_runs_are_machine_runs()
    ensures runs { (f : File) (limit k : ℕ) → Fits f limit
        → HasCircuitRun (circuit_of f) k ↔ HasRun f k }
    ensures witnesses { (f : File) (limit k : ℕ) → Fits f limit
        → HasCircuitWitness (circuit_of f) k ↔ HasWitness f k }
    ensures outputs { (f : File) (limit k : ℕ) → Fits f limit
        → HasCircuitOutput (circuit_of f) k ↔ HasOutput f k }
    ensures output { (f : File) (limit n k : ℕ) → Fits f limit
        → HasCircuitOutputAt (circuit_of f) n k ↔ HasOutputAt f n k }
    ensures bad { (f : File) (limit n k : ℕ) → Fits f limit
        → HasCircuitBadAt (circuit_of f) n k ↔ HasBadAt f n k }
    ensures bads { (f : File) (limit k : ℕ) → Fits f limit
        → HasCircuitBadBy (circuit_of f) k ↔ HasBadBy f k }
{
    joins_runs();
    files_are_circuits();
    circuit_witnesses_are_file_witnesses();
}

/// Law: a file that is read again as a circuit has the circuit's witnesses.
pub fn written_circuits_have_witnesses()
    ensures { (c : Circuit) (f : File) (k : ℕ) → IsReadAgain c f
        → HasCircuitWitness c k ↔ HasWitness f k }
{
    circuit_witnesses_are_file_witnesses();
}

/// Law: and it shows the circuit's outputs.
pub fn written_circuits_have_outputs()
    ensures { (c : Circuit) (f : File) (k : ℕ) → IsReadAgain c f
        → HasCircuitOutput c k ↔ HasOutput f k }
{
    shown_runs_are_machine_runs();
}

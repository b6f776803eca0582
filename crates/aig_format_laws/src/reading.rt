//! What a file's circuit is: a circuit, whose runs are those of the file's machine.

ghost use Rattle.std.specs.Prelude.{◌≡◌, ◌≤◌, ◌^◌, ◌↔◌, ℕ, Bool, List, length};
ghost use Rattle.std.specs.List.{AllByRecursion};
ghost use Rattle.aig_circuit.specs.Circuit.{IsCircuit, IsClosed};
ghost use Rattle.aig_circuit.specs.Runs.{IsRun, IsInitial};
ghost use Rattle.aig_circuit.specs.Tree.{edge_value};
ghost use Rattle.aig_format.specs.File.{File, used};
ghost use Rattle.aig_format.specs.Fits.{Accepts, Fits};
ghost use Rattle.aig_format.specs.Circuit.{circuit_of, edge_of};
ghost use Rattle.aig_format.specs.Machine as machine;
ghost use Rattle.aig_format.specs.Machine.{value_of_literal};
ghost use Rattle.aig_format.specs.Variables.{IsKnown};
ghost use Rattle.aig_format.specs.Writable.{AreTexts, IsWritable};
ghost use Rattle.aig_format_laws.specs.MachineRuns.{AgreeOnInputs, AgreeOnKnown};
ghost use Rattle.aig_format_laws.specs.Nodes.{HasNodeValues, values_over};

/// Law: the circuit of a file that fits has all that every circuit has, has no free leaf, and is within the limit; each literal that
/// is used is of 0 or of a defined variable; names are texts; and the circuit of an accepted file has a written form.
pub fn files_are_circuits()
    ensures circuit { (f : File) (limit : ℕ) → Fits f limit → IsCircuit (circuit_of f) }
    ensures closed { (f : File) (limit : ℕ) → Fits f limit → IsClosed (circuit_of f) }
    ensures within { (f : File) (limit : ℕ) → Fits f limit → length (circuit_of f).nodes ≤ limit }
    ensures known { (f : File) (limit : ℕ) → Fits f limit → AllByRecursion (IsKnown f) (used f) }
    ensures texts { (f : File) (limit : ℕ) → Fits f limit → AreTexts (circuit_of f).names }
    ensures writable { (f : File) (limit : ℕ) (bytes : List ℕ) → limit ≤ 2 ^ 31
        → Accepts bytes limit f → IsWritable (circuit_of f) }
{}

/// Law: each run of the machine has leaf values that are a run of the circuit, whose nodes have the variables' values; the
/// values that each run of the circuit gives the nodes of the variables are a run of the machine; initial states are initial states; and a
/// literal has the value of its edge.
pub fn joins_runs()
    ensures forth { (f : File) (limit last : ℕ) (run : ℕ → ℕ → Bool)
        → Fits f limit → machine.IsMachineRun f last run
        → (x : ℕ → ℕ → Bool) × IsRun (circuit_of f) last x × HasNodeValues f last x run }
    ensures back { (f : File) (limit last : ℕ) (x : ℕ → ℕ → Bool)
        → Fits f limit → IsRun (circuit_of f) last x
        → machine.IsMachineRun f last (values_over f x) }
    ensures starts { (f : File) (limit last : ℕ) (x run : ℕ → ℕ → Bool)
        → Fits f limit → HasNodeValues f last x run
        → machine.IsMachineInitial f run ↔ IsInitial (circuit_of f) (x 0) }
    ensures literals { (f : File) (last : ℕ) (x run : ℕ → ℕ → Bool) → HasNodeValues f last x run
        → (t e : ℕ) → t ≤ last → IsKnown f e
        → edge_value (circuit_of f).nodes (x t) (edge_of f e) ≡ value_of_literal (run t) e }
{}

/// Law: the values of the inputs at each step and of the latches at step 0 determine a run of a file's machine, and all such
/// values have a run.
pub fn inputs_determine_runs()
    ensures one { (f : File) (limit last : ℕ) (run other : ℕ → ℕ → Bool) → Fits f limit
        → machine.IsMachineRun f last run → machine.IsMachineRun f last other
        → AgreeOnInputs f last run other → AgreeOnKnown f last run other }
    ensures each { (f : File) (limit last : ℕ) (given : ℕ → ℕ → Bool) → Fits f limit
        → (run : ℕ → ℕ → Bool) × machine.IsMachineRun f last run × AgreeOnInputs f last given run }
{}

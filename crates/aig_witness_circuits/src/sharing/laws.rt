//! A law of shared leaves.

ghost use Rattle.std.specs.Prelude.{◌≡◌, ℕ, Option};
ghost use Rattle.aig_circuit.specs.Circuit.{Circuit};
ghost use Rattle.aig_witness_circuits.specs.Named.{Shares};
ghost use Rattle.aig_witness_circuits.specs.Exact.{model_leaf};
ghost use Rattle.aig_witness_circuits.specs.Simulation.{Sharing};

/// Law: for each model and each witness circuit there is one way to share leaves, in whichever order the pairs stand.
pub fn shared_leaves_are_one()
    ensures { (node : ℕ → Option ℕ) (model witness : Circuit) (shared other : Sharing)
        → Shares node model witness shared → Shares node model witness other → (n : ℕ)
        → model_leaf shared n ≡ model_leaf other n }
{}

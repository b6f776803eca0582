//! Laws of structural hashing.

ghost use Rattle.std.specs.Prelude.{◌≡◌};
ghost use Rattle.aig_circuit.specs.Circuit.{Circuit, IsCircuit};
ghost use Rattle.aig_circuit.specs.Runs.{KeepsRuns};
ghost use Rattle.aig_strash.specs.Exchange.{image_of};
ghost use Rattle.aig_strash.specs.Strash.{KeepsRepresentatives, MergesTrees, NumbersRepresentatives, strashed};

/// Law: the strashed circuit is a circuit.
pub fn strashing_is_circuit()
    ensures { (c : Circuit) → IsCircuit c → IsCircuit (strashed c) }
{}

/// Law: a node's representative is the least node with its tree, and its new number is the count of the kept nodes before its
/// representative.
pub fn strashing_numbers_representatives()
    ensures { (c : Circuit) → IsCircuit c → NumbersRepresentatives c.nodes (image_of c.nodes) }
{}

/// Law: the strashed circuit has the kept nodes, each of its kind and with its name, and all inputs.
pub fn strashing_keeps_representatives()
    ensures { (c : Circuit) → IsCircuit c → KeepsRepresentatives c (strashed c) (image_of c.nodes) }
{}

/// Law: gates have one image exactly where their trees are equal up to exchange, and keep their trees.
pub fn strashing_merges_trees()
    ensures { (c : Circuit) → IsCircuit c → MergesTrees c (strashed c) (image_of c.nodes) }
{}

/// Law: the strashed circuit has the runs, initial states and values of the old one.
pub fn strashing_keeps_runs()
    ensures { (c : Circuit) → IsCircuit c → KeepsRuns c (strashed c) (image_of c.nodes) }
{}

/// Law: a circuit that was strashed is its own strashing.
pub fn strashing_twice()
    ensures { (c : Circuit) → IsCircuit c → strashed (strashed c) ≡ strashed c }
{}

//! Laws of re-encoding.

ghost use Rattle.std.specs.Prelude.{◌≡◌};
ghost use Rattle.aig_circuit.specs.Circuit.{Circuit, IsCircuit, IsClosed};
ghost use Rattle.aig_circuit.specs.Runs.{AreAsLong, KeepsRuns};
ghost use Rattle.aig_circuit.specs.Reencode.{IsReencoded, new_number, reencoded};

/// Law: the re-encoded circuit is a closed circuit with as many nodes and entries.
pub fn reencoding_is_circuit()
    ensures circuit { (c : Circuit) → IsCircuit c → IsClosed c → IsCircuit (reencoded c) }
    ensures closed { (c : Circuit) → IsCircuit c → IsClosed c → IsClosed (reencoded c) }
    ensures long { (c : Circuit) → IsCircuit c → IsClosed c → AreAsLong c (reencoded c) }
{}

/// Law: in the re-encoded circuit inputs come first, and then the leaves of latches.
pub fn reencoding_is_placed()
    ensures { (c : Circuit) → IsCircuit c → IsClosed c → IsReencoded (reencoded c) }
{}

/// Law: the re-encoded circuit has the runs, initial states and values of the old one, under the new numbers.
pub fn reencoding_keeps_runs()
    ensures { (c : Circuit) → IsCircuit c → IsClosed c → KeepsRuns c (reencoded c) (new_number c) }
{}

/// Law: a placed circuit is its own re-encoding, and so is every circuit that was re-encoded.
pub fn reencoding_twice()
    ensures placed { (c : Circuit) → IsCircuit c → IsClosed c → IsReencoded c → reencoded c ≡ c }
    ensures twice { (c : Circuit) → IsCircuit c → IsClosed c
        → reencoded (reencoded c) ≡ reencoded c }
{}

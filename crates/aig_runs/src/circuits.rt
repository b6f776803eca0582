//! Laws of refuted queries of circuits.

ghost use Rattle.std.specs.Prelude.{◌↔◌, ◌++◌, ℕ, List};
ghost use Rattle.aig_base.specs.declared.logic.literal.Lit.{Lit};
ghost use Rattle.aig_base.specs.Formula.{clauses_in, IsSatisfiable};
ghost use Rattle.aig_circuit.specs.Circuit.{Circuit};
ghost use Rattle.aig_format.specs.File.{File};
ghost use Rattle.aig_format.specs.Circuit.{circuit_of};
ghost use Rattle.aig_format.specs.Fits.{Fits};
ghost use Rattle.aig_runs.specs.CircuitQueries.{AsksOfCircuit};
ghost use Rattle.aig_runs.specs.Safety.{IsCircuitSafeAt, IsSafeAt};

use crate::circuit_witnesses_are_file_witnesses;

/// Law: where no assignment satisfies both lists of clauses of a circuit's query, the circuit has no run of k + 1 steps from a
/// start on which every constraint holds and, at the last step, some bad edge.
pub fn refuted_circuit_queries_have_no_witness()
    ensures { (c unrolled : Circuit) (k : ℕ) (clauses : List (List (List Lit)))
        (extra : List (List Lit))
        → AsksOfCircuit c k unrolled clauses extra
        → ¬ IsSatisfiable (clauses_in clauses ++ extra) → IsCircuitSafeAt c k }
{}

/// Law: a file's machine has no such run exactly where the file's circuit has none.
pub fn safe_circuits_are_safe_machines()
    ensures { (f : File) (limit k : ℕ) → Fits f limit
        → IsCircuitSafeAt (circuit_of f) k ↔ IsSafeAt f k }
{
    circuit_witnesses_are_file_witnesses();
}

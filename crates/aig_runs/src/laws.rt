//! Laws of encoding, which rest on what unrolling and clauses promise.

ghost use Rattle.std.specs.Prelude.{◌≡◌, ◌↔◌, ◌≤◌, ℕ, Bool, List};
ghost use Rattle.aig_base.specs.declared.logic.literal.Lit.{Lit};
ghost use Rattle.aig_circuit.specs.Circuit.{Circuit, IsCircuit};
ghost use Rattle.aig_circuit.specs.Runs.{AgreeOnLeaves};
ghost use Rattle.aig_cnf.specs.Cnf.{FixesRoots, HasClauses, NodeValuesSatisfy};
ghost use Rattle.aig_format.specs.File.{File};
ghost use Rattle.aig_format.specs.Fits.{Fits};
ghost use Rattle.aig_format.specs.Circuit.{circuit_of};
ghost use Rattle.aig_format_laws.specs.Nodes.{HasNodeValues, values_over};
ghost use Rattle.aig_unroll.specs.Unroll.{UnrollsTo};
ghost use Rattle.aig_runs.specs.Circuits.{AssignmentsAreCircuitRuns, CircuitRunsAreAssignments};
ghost use Rattle.aig_runs.specs.CircuitQueries.{AsksOfCircuit, IsCircuitWitness};
ghost use Rattle.aig_runs.specs.Encodes.{Encodes};
ghost use Rattle.aig_runs.specs.Queries.{IsQueryOf, IsRefuted, IsSafeTo, IsWitness, query_clauses};
ghost use Rattle.aig_runs.specs.WindowClauses.{AsksWindow};
ghost use Rattle.aig_runs.specs.declared.window.Window.{Window};

use aig_cnf::clauses_are_one;

/// Law: of every circuit, assignments that satisfy the clauses of its unrolled circuit are runs, and runs are assignments.
pub fn clauses_are_circuit_runs()
    ensures assignments { (c unrolled : Circuit) (k : ℕ) (clauses : List (List (List Lit)))
        → UnrollsTo c k unrolled → FixesRoots unrolled clauses
        → AssignmentsAreCircuitRuns c unrolled k clauses }
    ensures runs { (c unrolled : Circuit) (k : ℕ) (clauses : List (List (List Lit)))
        → IsCircuit c → UnrollsTo c k unrolled → NodeValuesSatisfy unrolled clauses
        → CircuitRunsAreAssignments c unrolled k clauses }
{}

/// Law: of every file that fits, the same holds of the runs of its machine.
pub fn clauses_are_file_runs()
    ensures { (f : File) (limit k : ℕ) (optimize : Bool) (unrolled : Circuit)
        (clauses : List (List (List Lit)))
        → Fits f limit → UnrollsTo (circuit_of f) k unrolled → HasClauses unrolled optimize clauses
        → FixesRoots unrolled clauses → NodeValuesSatisfy unrolled clauses
        → Encodes f k optimize (circuit_of f) unrolled clauses }
{}

/// Law: of every circuit, whatever its initial edges, the query clauses of its unrolled circuit ask for its witnesses.
pub fn circuit_queries_ask()
    ensures { (c unrolled : Circuit) (k : ℕ) (clauses : List (List (List Lit)))
        → IsCircuit c → UnrollsTo c k unrolled → FixesRoots unrolled clauses
        → NodeValuesSatisfy unrolled clauses
        → AsksOfCircuit c k unrolled clauses (query_clauses c k unrolled) }
{}

/// Law: a witness of a file's machine has leaf values that are a witness of its circuit, the values that a witness of the
/// circuit gives the nodes of the variables are a witness of the machine, and they are one for one; so what asks for the
/// circuit's witnesses asks for those of the machine.
pub fn circuit_witnesses_are_file_witnesses()
    ensures forth { (f : File) (limit k : ℕ) (run : ℕ → ℕ → Bool) → Fits f limit → IsWitness f k run
        → (x : ℕ → ℕ → Bool) × IsCircuitWitness (circuit_of f) k x × HasNodeValues f k x run }
    ensures back { (f : File) (limit k : ℕ) (x : ℕ → ℕ → Bool) → Fits f limit
        → IsCircuitWitness (circuit_of f) k x → IsWitness f k (values_over f x) }
    ensures one { (f : File) (limit k : ℕ) (x z run : ℕ → ℕ → Bool) → Fits f limit
        → HasNodeValues f k x run → HasNodeValues f k z run → AgreeOnLeaves (circuit_of f) k x z }
    ensures asks { (f : File) (limit k : ℕ) (unrolled : Circuit) (clauses : List (List (List Lit)))
        (extra : List (List Lit)) → Fits f limit
        → AsksOfCircuit (circuit_of f) k unrolled clauses extra
        → IsQueryOf f k (circuit_of f) unrolled clauses extra }
{}

/// Law: the query clauses of an encoded file ask for the witnesses of its machine.
pub fn queries_ask()
    ensures { (f : File) (limit k : ℕ) (optimize : Bool) (circuit unrolled : Circuit)
        (clauses : List (List (List Lit)))
        → Fits f limit → Encodes f k optimize circuit unrolled clauses
        → IsQueryOf f k circuit unrolled clauses (query_clauses circuit k unrolled) }
{}

/// Law: the queries of all steps up to n are refuted exactly where no bad literal is reached up to step n.
pub fn refuted_queries_are_safe()
    ensures { (f : File) (n : ℕ) (circuit unrolled : ℕ → Circuit)
        (clauses : ℕ → List (List (List Lit))) (extra : ℕ → List (List Lit))
        → ((k : ℕ) → k ≤ n → IsQueryOf f k (circuit k) (unrolled k) (clauses k) (extra k))
        → ((k : ℕ) → k ≤ n → IsRefuted (clauses k) (extra k)) ↔ IsSafeTo f n }
{}

/// Law: for each file, each number of steps and each setting there is one encoding.
pub fn encodings_are_one()
    ensures { (f : File) (k : ℕ) (optimize : Bool) (circuit unrolled other extra : Circuit)
        (clauses others : List (List (List Lit)))
        → Encodes f k optimize circuit unrolled clauses → Encodes f k optimize other extra others
        → (circuit ≡ other) × (unrolled ≡ extra) × (clauses ≡ others) }
{
    clauses_are_one();
}

/// Law: for each circuit, each window and each setting there is one list of clauses of either kind.
pub fn windows_are_one()
    ensures { (form : Window) (c : Circuit) (k : ℕ) (optimize : Bool)
        (lists others : List (List (List Lit))) (extra more : List (List Lit))
        → AsksWindow form c k optimize lists extra → AsksWindow form c k optimize others more
        → (lists ≡ others) × (extra ≡ more) }
{
    clauses_are_one();
}

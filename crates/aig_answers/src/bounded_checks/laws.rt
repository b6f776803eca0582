//! Laws of the clauses of bounded checks.

ghost use Rattle.std.specs.Prelude.{◌≡◌, ◌≤◌, ◌↔◌, ◌++◌, ℕ, Bool, false, All};
ghost use Rattle.aig_base.specs.Formula.{IsSatisfiable, clauses_in};
ghost use Rattle.aig_circuit.specs.Circuit.{Circuit, IsCircuit};
ghost use Rattle.aig_circuit.specs.Edge.{edge_to};
ghost use Rattle.aig_circuit.specs.View.{lists_circuit};
ghost use Rattle.aig_format.specs.File.{File};
ghost use Rattle.aig_format.specs.Fits.{Fits};
ghost use Rattle.aig_runs.specs.Queries.{IsSafeTo};
ghost use Rattle.aig_runs.specs.Safety.{IsCircuitSafeAt};
ghost use Rattle.aig_answers.specs.declared.bounded_checks.clauses.BoundedClauses.{BoundedClauses};
ghost use Rattle.aig_answers.specs.Asking.{AsksBounded, AsksOfBads};

/// Law: the clauses of a file's question can't be satisfied exactly where no bad state is reached up to the last step; and none
/// is where the question's output is the constant false.
pub fn refuted_questions_are_safe()
    ensures refuted { (f : File) (limit k : ℕ) (optimize : Bool) (made : BoundedClauses)
        → Fits f limit → AsksBounded f k optimize made
        → (¬ IsSatisfiable (clauses_in made.clauses ++ made.extra)) ↔ IsSafeTo f k }
    ensures folded { (f : File) (limit k : ℕ) (optimize : Bool) (made : BoundedClauses)
        → Fits f limit → AsksBounded f k optimize made
        → All (λ e. e ≡ edge_to 0 false) made.question.circuit.properties.outputs.items
        → IsSafeTo f k }
{}

/// Law: the clauses of a circuit's question can't be satisfied exactly where no bad edge is reached at a step up to the last one; and
/// none is where the question's output is the constant false.
pub fn refuted_circuit_questions_are_safe()
    ensures refuted { (c : Circuit) (k : ℕ) (optimize : Bool) (made : BoundedClauses)
        → IsCircuit c → AsksOfBads c k optimize made
        → (¬ IsSatisfiable (clauses_in made.clauses ++ made.extra))
        ↔ ((n : ℕ) → n ≤ k → IsCircuitSafeAt c n) }
    ensures folded { (c : Circuit) (k : ℕ) (optimize : Bool) (made : BoundedClauses)
        → IsCircuit c → AsksOfBads c k optimize made
        → All (λ e. e ≡ edge_to 0 false) made.question.circuit.properties.outputs.items
        → (n : ℕ) → n ≤ k → IsCircuitSafeAt c n }
{}

/// Law: a circuit's question has one list of clauses and one further clause, and its inputs stand at one list of places.
pub fn circuit_questions_are_one()
    ensures clauses { (c : Circuit) (k : ℕ) (optimize : Bool) (one other : BoundedClauses)
        → AsksOfBads c k optimize one → AsksOfBads c k optimize other
        → (one.clauses ≡ other.clauses) × (one.extra ≡ other.extra) }
    ensures places { (c : Circuit) (k : ℕ) (optimize : Bool) (one other : BoundedClauses)
        → AsksOfBads c k optimize one → AsksOfBads c k optimize other
        → (lists_circuit one.question.circuit ≡ lists_circuit other.question.circuit)
        × (one.question.places.items ≡ other.question.places.items) }
{}

/// Law: a file's question has one list of clauses and one further clause, and its inputs stand at one list of places. So a proof of
/// the clauses that one process prints, and a solver's answer to them, are judged by the clauses that another makes.
pub fn bounded_clauses_are_one()
    ensures clauses { (f : File) (k : ℕ) (optimize : Bool) (one other : BoundedClauses)
        → AsksBounded f k optimize one → AsksBounded f k optimize other
        → (one.clauses ≡ other.clauses) × (one.extra ≡ other.extra) }
    ensures places { (f : File) (k : ℕ) (optimize : Bool) (one other : BoundedClauses)
        → AsksBounded f k optimize one → AsksBounded f k optimize other
        → (lists_circuit one.question.circuit ≡ lists_circuit other.question.circuit)
        × (one.question.places.items ≡ other.question.places.items) }
{}

//! Laws about the clauses of several steps.

ghost use Rattle.std.specs.Prelude.{◌↔◌, ◌≤◌, ◌+◌, ℕ, All, Contains, List, false};
ghost use Rattle.aig_base.specs.declared.logic.literal.Lit.{Lit};
ghost use Rattle.aig_base.specs.Formula.{clauses_in, IsSatisfiable};
ghost use Rattle.aig_circuit.specs.Circuit.{Circuit, IsCircuit};
ghost use Rattle.aig_cnf.specs.Cnf.{HasClauses};
ghost use Rattle.aig_format.specs.Circuit.{circuit_of};
ghost use Rattle.aig_format.specs.File.{File};
ghost use Rattle.aig_format.specs.Fits.{Fits};
ghost use Rattle.aig_runs.specs.CircuitQueries.{HasCircuitWitness};
ghost use Rattle.aig_runs.specs.Induction.{IsKInductive};
ghost use Rattle.aig_runs.specs.Safety.{IsCircuitSafeAt};
ghost use Rattle.aig_runs.specs.declared.window.Window.TheVariants.{Plain};
ghost use Rattle.aig_unroll.specs.Frame.{with_steps};
ghost use Rattle.aig_unroll.specs.Unroll.{UnrollsTo};
ghost use Rattle.aig_steps.specs.Induction.{IsCircuitInductive};
ghost use Rattle.aig_steps.specs.Stepwise.{AsksForRuns, GoesOn, stepwise_clauses, stepwise_query, stepwise_window};

/// Law: the assignments that satisfy the clauses of the steps 0 to k are exactly the runs of k + 1
/// steps, from any state, on which every constraint is true.
pub fn steps_ask_for_runs()
    ensures { (c unrolled : Circuit) (k : ℕ) → IsCircuit c → IsCircuit unrolled
        → UnrollsTo c k unrolled → AsksForRuns c unrolled k }
{}

/// Law: if further steps are added, the clauses of earlier steps and the meaning of variables don't
/// change.
pub fn steps_go_on()
    ensures { (c : Circuit) (j k : ℕ) → j ≤ k → GoesOn c j k }
{}

/// Law: the clauses of the steps 0 to k contain the clauses of the unrolled circuit in which each
/// gate is encoded as an and.
pub fn steps_contain_encodings()
    ensures { (c : Circuit) (k : ℕ) (lists : List (List (List Lit)))
        → IsCircuit (with_steps c k) → HasClauses (with_steps c k) false lists
        → All (Contains (stepwise_clauses c k)) (clauses_in lists) }
{}

/// Law: the clauses of the query for a bad state at step k are satisfiable if and only if a run
/// from an initial state meets every constraint at the steps 0 to k and is bad at step k. So if
/// they are refuted, the circuit is safe at step k.
pub fn stepwise_queries_ask()
    ensures asks { (c unrolled : Circuit) (k : ℕ) → IsCircuit c → IsCircuit unrolled
        → UnrollsTo c k unrolled → IsSatisfiable (stepwise_query c k) ↔ HasCircuitWitness c k }
    ensures safe { (c unrolled : Circuit) (k : ℕ) → IsCircuit c → IsCircuit unrolled
        → UnrollsTo c k unrolled → ¬ IsSatisfiable (stepwise_query c k) → IsCircuitSafeAt c k }
{}

/// Law: if the clauses of the query for a window of k + 2 steps are refuted, the circuit has no
/// such window that is bad only at its last step. The same is true for the machine of a file with
/// this circuit (`inductive_windows_are_safe`).
pub fn stepwise_windows_are_inductive()
    ensures circuits { (c unrolled : Circuit) (k : ℕ) → IsCircuit c → IsCircuit unrolled
        → UnrollsTo c (k + 1) unrolled → ¬ IsSatisfiable (stepwise_window c k)
        → IsCircuitInductive c k }
    ensures files { (f : File) (limit k : ℕ) (unrolled : Circuit) → Fits f limit
        → IsCircuit unrolled → UnrollsTo (circuit_of f) (k + 1) unrolled
        → ¬ IsSatisfiable (stepwise_window (circuit_of f) k) → IsKInductive Plain f k }
{}

/// Law: if a circuit is safe at the steps 0 to k, and has no window of k + 2 steps that is bad only
/// at its last step, it is safe at every step.
pub fn inductive_circuits_are_safe()
    ensures { (c : Circuit) (k n : ℕ) → ((t : ℕ) → t ≤ k → IsCircuitSafeAt c t)
        → IsCircuitInductive c k → IsCircuitSafeAt c n }
{}

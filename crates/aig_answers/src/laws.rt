//! Laws of the clauses that ask for windows, and of proofs of them.

ghost use Rattle.std.specs.Prelude.{◌+◌, ◌++◌, ◌↔◌, ℕ, Bool, IsTrue, List, Option, Result};
ghost use Rattle.std.specs.List.{list_any};
ghost use Rattle.aig_base.specs.Formula.{IsSatisfiable, clauses_in};
ghost use Rattle.aig_base.specs.declared.logic.literal.Lit.{Lit};
ghost use Rattle.aig_answers.specs.Answers.{IsCircuitQuery, TellsOfCircuit, TellsOfProof};
ghost use Rattle.aig_answers.specs.declared.circuits.CircuitQuery.{CircuitQuery};
ghost use Rattle.aig_circuit.specs.Circuit.{Circuit};
ghost use Rattle.aig_format.specs.Circuit.{circuit_of};
ghost use Rattle.aig_format.specs.File.{File};
ghost use Rattle.aig_format.specs.Fits.{Fits};
ghost use Rattle.aig_format.specs.Machine.{value_of_literal};
ghost use Rattle.aig_refutation.specs.declared.error.RefutationError.{RefutationError};
ghost use Rattle.aig_runs.specs.Induction.{IsWindow};
ghost use Rattle.aig_runs.specs.Safety.{IsGood};
ghost use Rattle.aig_runs.specs.WindowClauses.{AsksWindow};
ghost use Rattle.aig_runs.specs.declared.window.Window.{Window};

use aig_cnf::clauses_are_one;
use aig_runs::refuted_windows_are_inductive;

/// Law: the clauses that ask for a window of a file's machine can be satisfied exactly where there is a run of `k + 2` steps,
/// from any state, that is a window of the form and has a bad literal at its last step. Some bad literal holds exactly where
/// not all are false.
pub fn windows_are_asked()
    ensures asked { (form : Window) (f : File) (limit k : ℕ) (optimize : Bool)
        (clauses : List (List (List Lit))) (extra : List (List Lit))
        → Fits f limit → AsksWindow form (circuit_of f) k optimize clauses extra
        → IsSatisfiable (clauses_in clauses ++ extra)
        ↔ ((run : ℕ → ℕ → Bool) × IsWindow form f k run
        × IsTrue (list_any (value_of_literal (run (k + 1))) f.properties.bads)) }
    ensures bad { (f : File) (values : ℕ → Bool)
        → IsTrue (list_any (value_of_literal values) f.properties.bads) ↔ (¬ IsGood f values) }
{
    refuted_windows_are_inductive();
}

/// Law: what the text of a proof shows of the clauses of a circuit's query it shows of those that any call makes: for each circuit, each
/// number of steps and each setting there is one list of them.
pub fn circuit_clauses_are_one()
    ensures query { (c : Circuit) (k : ℕ) (optimize : Bool) (text : Option (List ℕ))
        (answer : Result (Unit {0}) RefutationError) (q : CircuitQuery)
        → IsCircuitQuery c k optimize q → TellsOfProof q.clauses q.extra text answer
        → TellsOfCircuit k optimize text c answer }
{
    clauses_are_one();
}

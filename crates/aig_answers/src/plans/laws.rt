//! Laws of questions and of plans.

ghost use Rattle.std.specs.Prelude.{◌≡◌, ℕ, All, Bool, List, Ok, Option};
ghost use Rattle.aig_circuit.specs.Circuit.{Circuit, IsCircuit};
ghost use Rattle.aig_format.specs.File.{File};
ghost use Rattle.aig_format.specs.Fits.{Fits};
ghost use Rattle.aig_runs.specs.Queries.{IsSafeTo};
ghost use Rattle.aig_runs.specs.declared.window.Window.{Window};
ghost use Rattle.aig_answers.specs.Answers.{IsCircuitOf};
ghost use Rattle.aig_answers.specs.Plans.{AreRefuted, Covers, HasRoom, Holds, Makes, room_of};
ghost use Rattle.aig_answers.specs.declared.plans.asking.Ask.{Ask};
ghost use Rattle.aig_answers.specs.declared.plans.asking.Ask.TheVariants as asks;
ghost use Rattle.aig_answers.specs.declared.plans.asking.Question.{Question};
ghost use Rattle.aig_answers.specs.declared.windows.WindowClauses.{WindowClauses};
ghost use Rattle.aig_answers.specs.Plans.{plan_certified, plan_each, plan_to};

use crate::bounded_checks::{circuit_questions_are_one, refuted_circuit_questions_are_safe};
use aig_cnf::clauses_are_one;
use aig_runs::{
    inductive_windows_are_safe, refuted_circuit_queries_have_no_witness,
    refuted_windows_are_inductive, safe_circuits_are_safe_machines, safe_steps_are_safe,
    windows_are_one,
};

/// Law: what is asked holds where the clauses that ask it can't be satisfied, or none are needed.
pub fn refuted_asks_hold()
    ensures { (a : Ask) (optimize : Bool) (c : Circuit) (made : Option WindowClauses)
        → IsCircuit c → Makes a optimize c made → AreRefuted made → Holds a c }
{
    refuted_circuit_queries_have_no_witness();
    refuted_circuit_questions_are_safe();
    refuted_windows_are_inductive();
}

/// Law: for each circuit, each question and each setting there are the same clauses, or none are needed. So a proof of the clauses that
/// one process prints is held against those that another makes.
pub fn question_clauses_are_one()
    ensures { (a : Ask) (optimize : Bool) (c : Circuit) (one other : Option WindowClauses)
        → Makes a optimize c one → Makes a optimize c other → one ≡ other }
{
    clauses_are_one();
    circuit_questions_are_one();
    windows_are_one();
}

/// Law: where no bad state is reached at the steps 0 to k, and a window of k + 2 steps is asked for, no bad state is reached at any
/// step by the machine of a file whose circuit it is, names aside. So it is enough that a plan that asks for a window, and of each step
/// before its last one, holds.
pub fn covering_plans_are_safe()
    ensures window { (form : Window) (k : ℕ) (c : Circuit) (f : File) (bound : ℕ)
        → Holds (asks.UpTo k) c → Holds (asks.Window k form) c
        → Fits f bound → IsCircuitOf f c → (n : ℕ) → IsSafeTo f n }
    ensures plan { (plan : List Question) (c : Circuit) (f : File) (bound : ℕ) → Covers plan
        → All (λ q. Holds q.ask c) plan
        → Fits f bound → IsCircuitOf f c → (n : ℕ) → IsSafeTo f n }
{
    safe_circuits_are_safe_machines();
    safe_steps_are_safe();
    inductive_windows_are_safe();
}

/// Law: so do the plans of `safe .. to`, of `safe .. each`, and of a certificate's joint circuit.
pub fn command_plans_cover()
    ensures to { (k : ℕ) (form : Window) (base step : Bool) → Covers (plan_to k form base step) }
    ensures each { (k : ℕ) (form : Window) (base step : Bool)
        → Covers (plan_each k form base step) }
    ensures certified { (optimize : Bool) → Covers (plan_certified optimize) }
{}

/// Law: where a circuit isn't refused for its size, there is room for each question of a plan.
pub fn plans_have_room()
    ensures { (limit : ℕ) (plan : List Question) (c : Circuit) → room_of limit plan c ≡ Ok tt
        → All (λ q. HasRoom limit q.ask c) plan }
{}

//! A law of the questions.

ghost use Rattle.std.specs.Prelude.{◌≡◌, ℕ, Option};
ghost use Rattle.aig_circuit.specs.Circuit.{Circuit};
ghost use Rattle.aig_witness_circuit_checks.specs.Simulated.{IsQuestionOf};
ghost use Rattle.aig_witness_circuits.specs.declared.condition.Condition.{Condition};

use aig_witness_circuits::shared_leaves_are_one;

/// Law: for each model, each witness circuit and each condition there is one question: the one that is printed is the one that is checked.
pub fn condition_questions_are_one()
    ensures { (condition : Condition) (node : ℕ → Option ℕ) (m w q other : Circuit)
        → IsQuestionOf condition node m w q → IsQuestionOf condition node m w other → q ≡ other }
{
    shared_leaves_are_one();
}

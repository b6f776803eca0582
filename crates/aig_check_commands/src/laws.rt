//! Laws of the clauses that commands print and of those that proofs are held against.

ghost use Rattle.std.specs.Prelude.{◌≡◌, Bool, List, Some, ℕ};
ghost use Rattle.aig_answers.specs.Plans.{Makes};
ghost use Rattle.aig_answers.specs.declared.plans.asking.Ask.{Ask};
ghost use Rattle.aig_answers.specs.declared.windows.WindowClauses.{WindowClauses};
ghost use Rattle.aig_circuit.specs.Circuit.{Circuit};
ghost use Rattle.aig_check_commands.specs.Questions.{ArePrinted};

use aig_answers::{circuit_questions_are_one, question_clauses_are_one};

/// Law: the clauses that are printed of a question of a circuit, as any process does, are those that a proof of the question is held
/// against, as any process does, where some are needed.
pub fn printed_clauses_are_checked()
    ensures { (ask : Ask) (optimize : Bool) (m : Circuit) (comments : List ℕ)
        (printed checked : WindowClauses) → ArePrinted ask optimize m comments printed
        → Makes ask optimize m (Some checked) → printed ≡ checked }
{
    circuit_questions_are_one();
    question_clauses_are_one();
}

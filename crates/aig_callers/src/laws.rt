//! Laws of the texts that are written of joint circuits.

ghost use Rattle.std.specs.Prelude.{◌≡◌, ℕ, Bool, List};
ghost use Rattle.aig_answers.specs.Answers.{IsCircuitQuery};
ghost use Rattle.aig_answers.specs.declared.circuits.CircuitQuery.{CircuitQuery};
ghost use Rattle.aig_base.specs.declared.logic.literal.Lit.{Lit};
ghost use Rattle.aig_answers.specs.Asking.{AsksBounded, AsksOfBads};
ghost use Rattle.aig_answers.specs.declared.bounded_checks.clauses.BoundedClauses.{BoundedClauses};
ghost use Rattle.aig_circuit.specs.Circuit.{Circuit};
ghost use Rattle.aig_edits.specs.Joints.{IsJointOf};
ghost use Rattle.aig_edits.specs.declared.pairing.Pairing.{Pairing};
ghost use Rattle.aig_encode.specs.Encoding.{IsQuery};
ghost use Rattle.aig_encode.specs.declared.query_clauses.Query.{Query};
ghost use Rattle.aig_format.specs.Circuit.{circuit_of, text_of};
ghost use Rattle.aig_format.specs.File.{File};
ghost use Rattle.aig_format.specs.Fits.{Accepts};
ghost use Rattle.aig_runs.specs.WindowClauses.{AsksWindow};
ghost use Rattle.aig_runs.specs.declared.window.Window.{Window};

use aig_answers::circuit_questions_are_one;
use aig_cnf::clauses_are_one;
use aig_format::reads_exactly;
use aig_runs::windows_are_one;

/// Law: the file that the text of a joint circuit is has the clauses of the joint circuit's query, those of its windows, and those of
/// its question for the steps up to one. So `check_goal` judges proofs about a miter, or about a file beside its certificate, by the
/// clauses that any call makes of that circuit's text.
pub fn joint_files_ask_the_same()
    ensures query { (pairing : Pairing) (f g h : File) (m : Circuit) (limit k : ℕ)
        (optimize : Bool) (one : Query) (other : CircuitQuery) → IsJointOf pairing f g m
        → Accepts (text_of m) limit h → IsQuery k optimize h one
        → IsCircuitQuery m k optimize other
        → (one.encoded.clauses ≡ other.clauses) × (one.extra ≡ other.extra) }
    ensures window { (pairing : Pairing) (f g h : File) (m : Circuit) (limit k : ℕ)
        (form : Window) (optimize : Bool) (lists others : List (List (List Lit)))
        (extra more : List (List Lit)) → IsJointOf pairing f g m → Accepts (text_of m) limit h
        → AsksWindow form (circuit_of h) k optimize lists extra
        → AsksWindow form m k optimize others more → (lists ≡ others) × (extra ≡ more) }
    ensures question { (pairing : Pairing) (f g h : File) (m : Circuit) (limit k : ℕ)
        (optimize : Bool) (one other : BoundedClauses) → IsJointOf pairing f g m
        → Accepts (text_of m) limit h → AsksBounded h k optimize one
        → AsksOfBads m k optimize other
        → (one.clauses ≡ other.clauses) × (one.extra ≡ other.extra) }
{
    reads_exactly();
    clauses_are_one();
    windows_are_one();
    circuit_questions_are_one();
}

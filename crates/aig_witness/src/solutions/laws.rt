//! Laws of solvers' answers, and what the witness of a solution says of the file's machine.

ghost use Rattle.std.specs.Prelude.{◌≡◌, ◌^◌, ◌<◌, ℕ, Bool, Err, List, Ok, length};
ghost use Rattle.std.specs.List.{flat_map};
ghost use Rattle.aig_base.specs.declared.logic.literal.Lit.{Lit};
ghost use Rattle.aig_base.specs.declared.logic.three.Lbool.{Lbool};
ghost use Rattle.aig_circuit.specs.Circuit.{Circuit, IsCircuit};
ghost use Rattle.aig_format.specs.File.{File};
ghost use Rattle.aig_format.specs.Fits.{Fits};
ghost use Rattle.aig_runs.specs.Encodes.{Encodes};
ghost use Rattle.aig_runs.specs.Queries.{IsQueryOf, SatisfiesBoth};
ghost use Rattle.aig_witness.specs.declared.solutions.error.SolutionError.{SolutionError};
ghost use Rattle.aig_witness.specs.SolverAnswers.{solution_in};
ghost use Rattle.aig_witness.specs.Solutions.{AreValuesOf, IsWitnessIn};
ghost use Rattle.aig_witness.specs.Written.{solution_text, unsatisfiable_text};
ghost use Rattle.aig_witness.specs.Witness.{Witness};
ghost use Rattle.aig_witness.specs.Machine.{ShowsBad};

/// Law: where values are those of an assignment that satisfies both the clauses of a file's query and the further ones, the
/// witness that they say shows a bad state of the file's machine.
pub fn solutions_show()
    ensures { (f : File) (limit k : ℕ) (optimize : Bool) (circuit unrolled : Circuit)
        (clauses : List (List (List Lit))) (extra : List (List Lit))
        (v : ℕ → Bool) (values : List Lbool) (w : Witness)
        → Fits f limit → IsCircuit unrolled
        → Encodes f k optimize circuit unrolled clauses
        → IsQueryOf f k circuit unrolled clauses extra
        → SatisfiesBoth v clauses extra → AreValuesOf v (length unrolled.nodes) values
        → IsWitnessIn circuit unrolled k values w
        → ShowsBad f w }
{}

/// Law: the values are read from a solver's answer that has them, however they are parted into lines; and that there are none from
/// the answer that says so.
pub fn solutions_are_read()
    ensures read { (rows : List (List Lbool)) → length (flat_map (λ row. row) rows) < 2 ^ 32
        → let values = flat_map (λ row. row) rows in
        solution_in (length values) (solution_text rows) ≡ Ok values }
    ensures refused { (variables : ℕ)
        → solution_in variables unsatisfiable_text ≡ Err SolutionError.Unsatisfiable }
{}

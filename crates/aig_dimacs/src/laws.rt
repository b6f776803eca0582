//! Laws of the DIMACS text.

ghost use Rattle.std.specs.Prelude.{◌≡◌, ℕ, ◌^◌, ◌<◌, List, Some, length};
ghost use Rattle.aig_base.specs.declared.logic.literal.Lit.{Lit};
ghost use Rattle.aig_base.specs.Clauses.{AreBelow};
ghost use Rattle.aig_dimacs.specs.Reading.{parse_formula};
ghost use Rattle.aig_dimacs.specs.Text.{IsFormula, dimacs_of};

/// Law: the count of variables and the clauses are read from their text.
pub fn formulas_are_read()
    ensures { (variables : ℕ) (clauses : List (List Lit)) → IsFormula variables clauses
        → parse_formula (dimacs_of variables clauses) ≡ Some (variables, clauses) }
{}

/// Law: the text tells the count of variables and the clauses, with their order and that of their literals.
pub fn texts_tell_formulas()
    ensures { (variables others : ℕ) (clauses extra : List (List Lit))
        → IsFormula variables clauses → IsFormula others extra
        → dimacs_of variables clauses ≡ dimacs_of others extra
        → (variables ≡ others) × (clauses ≡ extra) }
{}

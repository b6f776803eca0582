//! Which files fit, and how their variables are numbered.

ghost use Rattle.std.specs.Prelude.{◌≡◌, ◌/◌, ◌<◌, ◌≤◌, ℕ, IsFalse, IsTrue, None, Some, length};
ghost use Rattle.aig_format.specs.declared.FileKind.TheVariants.{Binary, Text};
ghost use Rattle.aig_format.specs.File.{File, GateLine, defined};
ghost use Rattle.aig_format.specs.Fits.{Fits, is_well_founded};
ghost use Rattle.aig_format.specs.Circuit.{circuit_of};
ghost use Rattle.aig_format.specs.Levels.{level_above, level_of};
ghost use Rattle.aig_format.specs.Numbering.{is_compact, node_of_variable};
ghost use Rattle.aig_format.specs.Variables.{gate_of_variable, is_defined, is_known};
ghost use Rattle.aig_format_laws.specs.Numbers.{ComesFirst};

/// Law: a text file that fits is well-founded, also where it is compact; a binary file is compact. No more variables are defined than
/// up to the greatest.
pub fn text_files_are_well_founded()
    ensures text { (f : File) (limit : ℕ) → Fits f limit → f.kind ≡ Text
        → IsTrue (is_well_founded f) }
    ensures binary { (f : File) (limit : ℕ) → Fits f limit → f.kind ≡ Binary
        → IsTrue (is_compact f) }
    ensures enough { (f : File) (limit : ℕ) → Fits f limit → length (defined f) ≤ f.greatest }
{}

/// Law: what no gate defines has level 0; the level of a gate's variable is one more than the greater level of its operands'
/// variables, and it has none where one of these has none.
pub fn levels_follow_operands()
    ensures leaf { (f : File) (v : ℕ) → gate_of_variable f v ≡ None → level_of f v ≡ Some 0 }
    ensures gate { (f : File) (v : ℕ) (g : GateLine) → gate_of_variable f v ≡ Some g
        → level_of f v ≡ level_above (level_of f (g.rhs0 / 2)) (level_of f (g.rhs1 / 2)) }
{}

/// Law: variable 0 is node 0; variable 0 and the defined variables have one node each, and every node is that of one of them.
/// In a compact file a variable is its own number, and else variables are numbered by level and, within a level, by variable.
pub fn numbers_follow_levels()
    ensures zero { (f : File) → node_of_variable f 0 ≡ 0 }
    ensures within { (f : File) (limit v : ℕ) → Fits f limit → IsTrue (is_known f v)
        → node_of_variable f v < length (circuit_of f).nodes }
    ensures one { (f : File) (limit u v : ℕ) → Fits f limit → IsTrue (is_known f u)
        → node_of_variable f u ≡ node_of_variable f v → u ≡ v }
    ensures each { (f : File) (limit n : ℕ) → Fits f limit → n < length (circuit_of f).nodes
        → (v : ℕ) × IsTrue (is_known f v) × (node_of_variable f v ≡ n) }
    ensures compact { (f : File) (v : ℕ) → IsTrue (is_compact f) → v ≤ f.greatest
        → node_of_variable f v ≡ v }
    ensures well_founded { (f : File) (limit u v : ℕ) → Fits f limit → IsFalse (is_compact f)
        → IsTrue (is_defined f u) → IsTrue (is_defined f v) → ComesFirst f u v
        → node_of_variable f u < node_of_variable f v }
{}

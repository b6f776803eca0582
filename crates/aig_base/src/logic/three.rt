//! Three truth values.

ghost use Rattle.std.specs.Prelude.{◌≡◌};

use std::ops::{BitAnd, Not};

/// False, true or unknown.
///
/// `!` inverts a value and leaves the unknown one. `&` is false where one side is, true where both are, and else
/// unknown.
#[derive(Clone, Copy, Debug, PartialEq, Eq)]
pub enum Lbool {
    /// False.
    FALSE,
    /// True.
    TRUE,
    /// Unknown.
    NONE,
}

impl Default for Lbool {
    ghost use Rattle.aig_base.specs.declared.logic.three.Lbool.TheVariants.{NONE};

    ghost is_default = { λ value. value ≡ NONE };

    /// Returns the unknown value.
    fn default() -> Lbool {
        Self::NONE
    }
}

impl Lbool {
    ghost use Rattle.aig_base.specs.Three.{lbool_not_if};

    /// Returns the inverse where `x` is true, and else the value.
    pub fn not_if(self, x: bool) -> Lbool
        ensures { result ≡ lbool_not_if x self }
    {
        if x { !self } else { self }
    }
}

impl Not for Lbool {
    type Output = Lbool;

    ghost use Rattle.aig_base.specs.Three.{lbool_not};

    ghost not_gives = { λ value inverse. inverse ≡ lbool_not value };

    fn not(self) -> Lbool {
        match self {
            Lbool::FALSE => Lbool::TRUE,
            Lbool::TRUE => Lbool::FALSE,
            Lbool::NONE => Lbool::NONE,
        }
    }
}

impl BitAnd for Lbool {
    type Output = Lbool;

    ghost use Rattle.aig_base.specs.Three.{lbool_and};

    ghost bitand_gives = { λ a b both. both ≡ lbool_and a b };

    fn bitand(self, other: Lbool) -> Lbool {
        match (self, other) {
            (Lbool::FALSE, _) | (_, Lbool::FALSE) => Lbool::FALSE,
            (Lbool::TRUE, Lbool::TRUE) => Lbool::TRUE,
            _ => Lbool::NONE,
        }
    }
}

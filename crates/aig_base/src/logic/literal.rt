//! Variables and their literals.

ghost use Rattle.std.specs.Prelude.{◌≡◌, ◌<◌, ◌^◌, true};
ghost use Rattle.aig_base.specs.Clauses.{var_of, var_number, lit_to, variable_of, is_positive, number_of_lit, inverse_lit};

use std::marker::Model;
use std::ops::Not;

/// A variable, by its number, which is below 2^31.
#[derive(Clone, Copy, Debug, PartialEq, Eq)]
pub struct Var {
    number: u32,
}

impl Model for Var {
    ghost use Rattle.std.specs.Prelude.{ℕ, ◌<◌, ◌^◌};

    ghost Value = { ℕ };

    ghost view = { λ a. a.number };

    ghost invariant = { λ a. a.number < 2 ^ 31 };

    ghost inverse = { λ n. record { number = n } };
}

impl Var {
    /// Returns the variable of a number.
    ///
    /// # Requirements
    ///
    /// - `n` is below 2^31.
    pub fn new(n: usize) -> Var
        requires { n < 2 ^ 31 }
        ensures { result ≡ var_of n }
    {
        Var { number: n as u32 }
    }

    /// Returns the literal that is the variable itself.
    pub fn lit(self) -> Lit
        ensures { result ≡ lit_to (var_number self) true }
    {
        Lit::new(self, true)
    }

    /// Its number, as it is kept.
    pub(crate) fn number(self) -> u32
        ensures { result ≡ var_number self }
    {
        self.number
    }
}

impl From<Var> for usize {
    ghost from_gives = { λ var n. n ≡ var_number var };

    fn from(var: Var) -> usize {
        var.number as usize
    }
}

/// A variable or its inverse, as one number: twice the variable's, and one more where it is inverted.
#[derive(Clone, Copy, Debug, PartialEq, Eq)]
pub struct Lit {
    code: u32,
}

impl Lit {
    /// Returns the literal of a variable, inverted where `polarity` is false.
    pub fn new(var: Var, polarity: bool) -> Lit
        ensures { result ≡ lit_to (var_number var) polarity }
    {
        let code = 2 * var.number;
        Lit {
            code: if polarity { code } else { code + 1 },
        }
    }

    /// Returns its variable.
    pub fn var(&self) -> Var
        ensures { result ≡ var_of (variable_of self.now) }
    {
        Var {
            number: self.code / 2,
        }
    }

    /// Returns whether it is not inverted.
    pub fn polarity(&self) -> bool
        ensures { result ≡ is_positive self.now }
    {
        self.code % 2 == 0
    }
}

impl Not for Lit {
    type Output = Lit;

    ghost not_gives = { λ lit inverse. inverse ≡ inverse_lit lit };

    fn not(self) -> Lit {
        Lit {
            code: if self.polarity() {
                self.code + 1
            } else {
                self.code - 1
            },
        }
    }
}

impl From<Lit> for u32 {
    ghost from_gives = { λ lit number. number ≡ number_of_lit lit };

    fn from(lit: Lit) -> u32 {
        lit.code
    }
}

impl From<u32> for Lit {
    ghost from_gives = { λ number lit. number_of_lit lit ≡ number };

    fn from(number: u32) -> Lit {
        Lit { code: number }
    }
}

//! The conditions of a certificate.

ghost use Rattle.std.specs.Prelude.{◌≡◌, Some};
ghost use Rattle.aig_witness_circuits.specs.Names.{condition_name};

use std::fmt;

/// A condition that a witness circuit meets as a certificate of a model (certificates of the hardware model checking
/// competition). Together they make the model safe at every step. It is printed by its name, in small letters.
#[derive(Clone, Copy, Debug, PartialEq, Eq)]
pub enum Condition {
    /// Where the model is in an initial state, and the witness circuit's own latches start, the witness circuit is in one.
    Reset,
    /// Where the model makes a step, and the witness circuit's own latches do, the witness circuit makes one.
    Transition,
    /// Where the witness circuit's state is good, so is the model's.
    Property,
    /// Each initial state of the witness circuit is good.
    Base,
    /// A step of the witness circuit from a good state leads to a good one.
    Step,
}

impl Condition {
    /// The condition's name.
    pub fn name(self) -> &'static str
        ensures { result.now ≡ condition_name self }
    {
        match self {
            Condition::Reset => "reset",
            Condition::Transition => "transition",
            Condition::Property => "property",
            Condition::Base => "base",
            Condition::Step => "step",
        }
    }
}

impl fmt::Display for Condition {
    ghost output = { λ condition. Some (condition_name condition) };

    fn fmt<W: fmt::Write>(&self, f: &mut fmt::Formatter<W>) -> fmt::Result {
        f.write_str(self.name())
    }
}

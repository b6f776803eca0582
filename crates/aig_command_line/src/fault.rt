//! What a refusal is about.

ghost use Rattle.aig_command_line.specs.Faults.{fault_text};

use crate::path::ShownPath;
use crate::tally::Place;
use std::fmt::{self, Display};

/// Why a program refuses something, and which file that is about.
#[derive(Clone, Copy)]
pub enum Fault<'a, E> {
    /// It is about no file.
    Alone(E),
    /// It is about a file.
    In {
        /// The path of the file.
        path: &'a str,
        /// Where in the file reading stopped.
        place: Place,
        /// Why it is refused.
        error: E,
    },
}

impl<'a, E: Display> Display for Fault<'a, E> {
    ghost output = { fault_text E.output };

    fn fmt<W: fmt::Write>(&self, f: &mut fmt::Formatter<W>) -> fmt::Result {
        match self {
            Fault::Alone(error) => write!(f, "{error}"),
            Fault::In { path, place, error } => {
                let path = ShownPath { path };
                match place {
                    Place::Whole => write!(f, "{path}: {error}"),
                    Place::Line(line) => write!(f, "{path}: line {line}: {error}"),
                    Place::Byte(byte) => write!(f, "{path}: byte {byte}: {error}"),
                }
            }
        }
    }
}

//! Which nodes the variables of a file are.

ghost use Rattle.std.specs.Prelude.{◌≡◌};
ghost use Rattle.aig_reader.specs.Reading.{node_told};

use aig_circuit::CircuitLists;
use aig_ordering::Recorded;
use aig_renumber::Numbering;

/// Which nodes the variables of a file are.
#[derive(Drop)]
pub enum VariableNodes {
    /// Each variable up to this one is its own node.
    Own(usize),
    /// At the place of a variable stands n + 1 for node n, and 0 where it is none.
    Table(Vec<u32>),
}

/// A circuit that was read, and which of its nodes the file's variables are.
#[derive(Drop)]
pub struct NumberedLists {
    /// The lists of the circuit.
    pub lists: CircuitLists,
    /// The nodes of the variables.
    pub variables: VariableNodes,
}

impl VariableNodes {
    /// The node of a variable, if it is 0 or defined.
    pub fn node(&self, variable: usize) -> Option<usize>
        ensures { result ≡ node_told self.now variable }
    {
        match self {
            VariableNodes::Own(greatest) => {
                if variable <= *greatest {
                    Some(variable)
                } else {
                    None
                }
            }
            VariableNodes::Table(table) => {
                let numbers = Recorded { table };
                if numbers.has(variable) {
                    Some(numbers.number(variable))
                } else {
                    None
                }
            }
        }
    }
}

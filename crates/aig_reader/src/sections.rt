//! What the sections of a file give.

ghost use Rattle.std.specs.Prelude.{◌≡◌};
ghost use Rattle.aig_circuit.specs.View.{lists_circuit, names_of};
ghost use Rattle.aig_reader.specs.Sections.{AreEmpty, circuit_with};

use crate::variable_nodes::{NumberedLists, VariableNodes};
use aig_circuit::{AigEdge, AigLatch, AigNode, CircuitLists, Properties};
use std::alloc::Global;
use std::collections::HashMap;

/// The lists of a file's sections.
#[derive(Drop)]
pub struct Lists {
    /// The numbers of the inputs, in the file's order.
    pub inputs: Vec<usize>,
    /// The latches, in the file's order.
    pub latchs: Vec<AigLatch>,
    /// The property lists.
    pub properties: Properties<AigEdge>,
}

/// The nodes of a file, and which of them its variables are.
#[derive(Drop)]
pub struct Numbered {
    /// The nodes, the first of which is false.
    pub nodes: Vec<AigNode>,
    /// The nodes of the variables.
    pub variables: VariableNodes,
}

/// What the sections of a file give: nodes, and lists that name them.
#[derive(Drop)]
pub struct Sections {
    /// The nodes.
    pub numbered: Numbered,
    /// The lists.
    pub lists: Lists,
}

impl Lists {
    /// No entries.
    pub fn new(alloc: Global) -> Self
        ensures { AreEmpty result }
    {
        Lists {
            inputs: Vec::new(alloc),
            latchs: Vec::new(alloc),
            properties: Properties::new(alloc),
        }
    }
}

impl Sections {
    /// The lists of the circuit, with these names.
    pub fn with_names(self, names: HashMap<usize, String>) -> NumberedLists
        ensures lists { lists_circuit result.lists ≡ circuit_with self (names_of names.entries) }
        ensures variables { result.variables ≡ self.numbered.variables }
    {
        let Sections { numbered, lists } = self;
        let Numbered { nodes, variables } = numbered;
        let Lists {
            inputs,
            latchs,
            properties,
        } = lists;
        let lists = CircuitLists {
            nodes,
            inputs,
            latchs,
            properties,
            names,
        };
        NumberedLists { lists, variables }
    }
}

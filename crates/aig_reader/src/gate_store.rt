//! Where the gates that were read are held.

ghost use Rattle.std.specs.Prelude.{◌≡◌, ℕ, ◌+◌, ◌/◌, ◌<◌, ◌≤◌, ◌&&◌, nat_lt, [], ◌∷◌, ◌++◌, List, IfOk, OnOk, true, vec_len};
ghost use Rattle.aig_format.specs.File.{GateLine};
ghost use Rattle.aig_format.specs.Numbering.{is_above_operands};
ghost use Rattle.aig_ordering.specs.Gates.{nodes_in};
ghost use Rattle.aig_reader.specs.Gates.{AreFirstNodes, AreHeld, AreInTable, ArePlaced, MayFollow, is_in_order, line_of, literals_of};
ghost use Rattle.aig_reader.specs.declared.gate_store.GateStore.TheVariants as held;
ghost use Rattle.aig_format.specs.declared.FileKind.{FileKind};
ghost use Rattle.aig_reader.specs.Variables.{AreDefined, IsNewAmong};

use crate::nodes::{add_leaves, first_node, put_gate, reserve_nodes};
use crate::table::Table;
use crate::variables::DefinedVariables;
use aig_circuit::AigNode;
use aig_ordering::{GateEntry, Operands, variable_node};
use std::alloc::{AllocError, Global};

/// Gates that rise, each above its operands.
#[derive(Drop)]
pub struct InOrder {
    /// The nodes of the first variables, from 0 on.
    pub nodes: Vec<AigNode>,
    /// The literal that the last gate defines, or 0.
    pub last: u32,
}

/// The gates that were read.
#[derive(Drop)]
pub enum GateStore {
    /// They rise, each above its operands, and the variables below them are defined by them or before them.
    InOrder(InOrder),
    /// It is not so: the operands of each of the first variables, from 0 on, that is a gate.
    Shuffled(Table),
}

impl InOrder {
    /// Whether the literal of a gate is above that of the last one, and above those of its operands.
    fn is_above(&self, lhs: u32, operands: Operands) -> bool
        ensures { result ≡ (nat_lt self.now.last lhs && is_above_operands (line_of lhs operands)) }
    {
        self.last < lhs && operands.rhs0 / 2 < lhs / 2 && operands.rhs1 / 2 < lhs / 2
    }

    /// Whether a gate may be the next one of a file in which no variable is missing and gates rise, each above its operands:
    /// the variables that it passes over are defined.
    fn is_next(&self, variables: &DefinedVariables, lhs: u32, operands: Operands) -> bool
        ensures { MayFollow self.now variables.now (line_of lhs operands) result }
    {
        self.is_above(lhs, operands) && variables.are_defined(self.nodes.len(), lhs as usize / 2)
    }

    /// Puts a gate in its place.
    fn put(&mut self, lhs: u32, operands: Operands) -> Result<(), AllocError>
        ensures { (size : ℕ) (before : List GateLine) → AreHeld size before (held.InOrder self.old)
            → IsNewAmong (literals_of before) lhs → 2 ≤ lhs → lhs / 2 < size → OnOk result
            (AreHeld size (before ++ line_of lhs operands ∷ []) (held.InOrder self.new)
            × (self.new.last ≡ lhs)) }
    {
        let variable = lhs as usize / 2;
        reserve_nodes(&mut self.nodes, variable + 1)?;
        put_gate(&mut self.nodes, variable_node(variable, Some(operands)));
        self.last = lhs;
        Ok(())
    }
}

impl GateStore {
    /// No gates.
    pub fn new(alloc: Global) -> Result<Self, AllocError>
        ensures { IfOk result
            (λ gates. (greatest : ℕ) (leaves : List ℕ) → ArePlaced greatest leaves [] gates) }
    {
        Ok(GateStore::InOrder(InOrder {
            nodes: first_node(alloc)?,
            last: 0,
        }))
    }

    /// Puts a gate that doesn't follow those before it: all gates are put in a table first, if they are in none yet.
    // Outside `put`, so that no room for tables is cleared there for each gate.
    #[cold]
    fn put_in_table(
        &mut self,
        alloc: Global,
        lhs: u32,
        operands: Operands,
    ) -> Result<(), AllocError>
        requires { (greatest : ℕ) × (leaves : List ℕ) × (before : List GateLine)
            × ArePlaced greatest leaves before self.old }
        ensures { (greatest : ℕ) (leaves : List ℕ) (before : List GateLine)
            → ArePlaced greatest leaves before self.old
            → IsNewAmong (literals_of before) lhs → 2 ≤ lhs → lhs / 2 ≤ greatest
            → OnOk result
            (AreInTable (greatest + 1) (before ++ line_of lhs operands ∷ []) self.new) }
    {
        match self {
            GateStore::InOrder(rising) => {
                let mut table = Table::new(alloc, &rising.nodes)?;
                let pushed = table.push(lhs, operands);
                *self = GateStore::Shuffled(table);
                pushed
            }
            GateStore::Shuffled(table) => table.push(lhs, operands),
        }
    }

    /// Puts a gate in its place, whose variable is the last that was defined. Where gates don't rise, or a variable below
    /// theirs is defined by none before, all gates are put in a table.
    pub fn put(
        &mut self,
        alloc: Global,
        variables: &DefinedVariables,
        lhs: u32,
        operands: Operands,
    ) -> Result<(), AllocError>
        requires { (greatest : ℕ) × (leaves : List ℕ) × (before : List GateLine)
            × ArePlaced greatest leaves before self.old }
        ensures { (kind : FileKind) (greatest : ℕ) (leaves : List ℕ) (before : List GateLine)
            → ArePlaced greatest leaves before self.old
            → AreDefined kind greatest variables.now ((leaves ++ literals_of before) ++ lhs ∷ [])
            → IsNewAmong (literals_of before) lhs → 2 ≤ lhs → lhs / 2 ≤ greatest
            → OnOk result
            (ArePlaced greatest leaves (before ++ line_of lhs operands ∷ []) self.new) }
    {
        match self {
            GateStore::InOrder(rising) => {
                if rising.is_next(variables, lhs, operands) {
                    return rising.put(lhs, operands);
                }
                self.put_in_table(alloc, lhs, operands)
            }
            GateStore::Shuffled(table) => table.push(lhs, operands),
        }
    }

    /// Whether they are held as nodes.
    pub fn is_in_order(&self) -> bool
        ensures { result ≡ is_in_order self.now }
    {
        matches!(self, GateStore::InOrder(_))
    }

    /// The nodes of so many variables, where gates rise: leaves in the places of variables without a gate.
    pub fn into_nodes(self, len: usize) -> Result<Vec<AigNode>, AllocError>
        requires { is_in_order self ≡ true }
        ensures { (greatest : ℕ) (leaves : List ℕ) (gates : List GateLine) → len ≡ greatest + 1
            → ArePlaced greatest leaves gates self → IfOk result
            (λ nodes. AreFirstNodes gates nodes.items × (vec_len nodes ≡ len)) }
    {
        match self {
            GateStore::InOrder(rising) => {
                let InOrder { mut nodes, last: _ } = rising;
                reserve_nodes(&mut nodes, len)?;
                add_leaves(&mut nodes, len);
                Ok(nodes)
            }
            GateStore::Shuffled(_) => unreachable!(),
        }
    }

    /// The gates of so many variables in a table.
    pub fn into_table(self, alloc: Global, len: usize) -> Result<Vec<GateEntry>, AllocError>
        requires { (greatest : ℕ) × (leaves : List ℕ) × (gates : List GateLine)
            × ArePlaced greatest leaves gates self }
        ensures { (greatest : ℕ) (leaves : List ℕ) (gates : List GateLine) → len ≡ greatest + 1
            → ArePlaced greatest leaves gates self → IfOk result
            (λ table. AreFirstNodes gates (nodes_in table.items) × (vec_len table ≡ len)) }
    {
        match self {
            GateStore::InOrder(rising) => Table::new(alloc, &rising.nodes)?.into_entries(len),
            GateStore::Shuffled(table) => table.into_entries(len),
        }
    }
}

//! The gates of a file's variables, by the literals of their operands.

ghost use Rattle.std.specs.Prelude.{◌≡◌, None, Some};
ghost use Rattle.aig_ordering.specs.Gates.{falling, node_in};
ghost use Rattle.aig_ordering.specs.Lists.{edge_from};

use aig_circuit::{AigEdge, AigNode, false_node, gate_node, leaf_node};
use std::marker::Model;

/// The operands of a gate, as literals. They take a sixth of the memory of a node.
#[derive(Clone, Copy)]
pub struct Operands {
    /// The literal of one of them.
    pub rhs0: u32,
    /// The literal of the other.
    pub rhs1: u32,
}

/// What a table of gates has for a variable: a gate's operands, or nothing. It takes no more memory than the operands.
#[derive(Clone, Copy)]
pub struct GateEntry {
    /// The greater operand, or 0 where there is no gate.
    greater: u32,
    /// The lesser operand, or 1 where there is no gate.
    lesser: u32,
}

impl Model for GateEntry {
    ghost use Rattle.std.specs.Prelude.{◌≡◌, ◌<◌, if◌then◌else◌, nat_lt, Option, None, Some};
    ghost use Rattle.aig_ordering.specs.declared.gates.Operands.{Operands};
    ghost use Rattle.aig_ordering.specs.Gates.{greater_in, lesser_in};

    ghost Value = { Option Operands };

    ghost view = { λ e. if nat_lt e.greater e.lesser then None
        else Some (record { rhs0 = e.greater; rhs1 = e.lesser }) };

    ghost invariant = { λ e. e.greater < e.lesser → (e.greater ≡ 0) × (e.lesser ≡ 1) };

    ghost inverse = { λ gate. record { greater = greater_in gate; lesser = lesser_in gate } };
}

impl GateEntry {
    /// The entry of a variable without a gate.
    pub fn none() -> GateEntry
        ensures { result ≡ None }
    {
        GateEntry {
            greater: 0,
            lesser: 1,
        }
    }

    /// The entry of a gate, with the greater operand first.
    pub fn of(operands: Operands) -> GateEntry
        ensures { result ≡ Some (falling operands) }
    {
        GateEntry {
            greater: operands.rhs0.max(operands.rhs1),
            lesser: operands.rhs0.min(operands.rhs1),
        }
    }

    /// The gate's operands, the greater one first, or nothing.
    pub fn operands(&self) -> Option<Operands>
        ensures { result ≡ self.now }
    {
        if self.greater < self.lesser {
            None
        } else {
            Some(Operands {
                rhs0: self.greater,
                rhs1: self.lesser,
            })
        }
    }
}

/// The edge of a literal.
pub fn edge_of(literal: u32) -> AigEdge
    ensures { result ≡ edge_from literal }
{
    AigEdge::new(literal as usize / 2, literal % 2 == 1)
}

/// The node of a variable that has this gate, or none.
pub fn variable_node(variable: usize, gate: Option<Operands>) -> AigNode
    ensures { result ≡ node_in variable gate }
{
    match gate {
        Some(operands) => gate_node(variable, edge_of(operands.rhs0), edge_of(operands.rhs1)),
        None if variable == 0 => false_node(),
        None => leaf_node(variable),
    }
}

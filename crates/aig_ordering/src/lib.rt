//! The order of a file's variables by level: where a text file leaves variables out or has its gates in any order, the
//! numbers that its variables get as nodes.
#![tactic(auto)]

mod bits;
mod gate_nodes;
mod gates;
mod levels;
mod numbers;
mod order;

pub use bits::{has_bit, set_bit};
pub use gate_nodes::nodes;
pub use gates::{GateEntry, Operands, edge_of, variable_node};
pub use numbers::Recorded;
pub use order::{Ordered, order_by_level};

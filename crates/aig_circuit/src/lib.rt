//! Circuits of the And-Inverter Graph library: edges, nodes, and what is said of them.
#![tactic(auto)]

mod ands;
pub mod checks;
mod edge;
pub mod inits;
mod laws;
pub mod leaves;
pub mod marks;
mod node;
mod prop_list;
mod properties;
mod view;

pub use ands::{AndsIter, gates_among};
pub use edge::{AigEdge, inverts_back, keeps_edges_by_literal, orders_by_literal};
pub use laws::{further_gates_are_gates, inverses_have_other_values, leaves_fix_values};
pub use node::{AigLatch, AigNode, AigNodeType, false_node, gate_node, leaf_node};
pub use prop_list::PropList;
pub use properties::Properties;
pub use view::{CircuitLists, CircuitView};

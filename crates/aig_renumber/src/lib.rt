//! Circuits with other numbers for their nodes, as a binary file of AIGER has them.
#![tactic(auto)]

mod circuit;
mod laws;
mod lists;
mod nodes;
mod numbering;
mod reencoding;
mod renumbered;

pub use circuit::renumber;
pub use laws::{
    reencoding_is_circuit, reencoding_is_placed, reencoding_keeps_runs, reencoding_twice,
};
pub use numbering::Numbering;
pub use reencoding::reencode;
pub use renumbered::{
    renumber_edges, renumber_latches, renumber_nodes, renumber_properties, renumber_sets,
    renumbered_edge, renumbered_latch, renumbered_node,
};

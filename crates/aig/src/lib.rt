//! And-Inverter Graphs: sequential circuits of and gates and inverters, read from and written to AIGER.
#![tactic(auto)]

mod aiger;
mod cnf;
mod files;
mod graph;
mod others;
mod strash;
mod ternary;
mod writable;

pub use aig_circuit::{AigEdge, AigLatch, AigNode, AigNodeType, AndsIter, PropList};
pub use aig_reader::{ReadError, Section};
pub use aiger::WriteError;
pub use graph::Aig;
pub use ternary::TernarySimulate;

//! Reads AIGER files, text and binary, from a source of bytes.
#![tactic(auto)]

mod edges;
mod error;
mod gate_store;
mod gates;
mod header;
mod inputs;
mod justice;
mod latches;
mod lines;
mod nodes;
mod numbering;
mod properties;
mod reader;
mod sections;
mod table;
mod variable_nodes;
mod variables;

pub use error::{ReadError, Section};
pub use reader::{read, read_numbered, read_with, read_with_resets};
pub use variable_nodes::{NumberedLists, VariableNodes};

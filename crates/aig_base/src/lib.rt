//! What the crates of the circuit library share: the fault of memory, literals and clauses, and streams of bytes.
#![tactic(auto)]

mod logic;
mod memory;
mod std_stream;
mod stream;
mod test_streams;

pub use logic::{DagCnf, Lbool, Lit, LitVvec, Var, VarVMap};
pub use memory::MemoryError;
pub use std_stream::{FromRead, ToWrite};
pub use stream::{Sink, Source, StreamFault};
pub use test_streams::{Parts, Taker};

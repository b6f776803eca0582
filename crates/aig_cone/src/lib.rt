//! Cones of nodes, and the circuit of a cone.
#![tactic(auto)]

mod cone;
mod laws;
mod refine;
mod search;

pub use cone::{coi, fanin_logic_cone};
pub use laws::{refining_is_circuit, refining_keeps_runs, refining_twice};
pub use refine::coi_refine;

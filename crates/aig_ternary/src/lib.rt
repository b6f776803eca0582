//! Simulation of circuits in three values.
#![tactic(auto)]

mod laws;
mod simulate;
mod simulator;
mod step;

pub use laws::known_values_hold;
pub use simulate::ternary_simulate;
pub use simulator::Simulator;

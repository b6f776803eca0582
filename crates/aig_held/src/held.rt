//! What a handle holds.

use crate::simulated::Simulated;
use aig::Aig;
use aig_steps::Unrolling;

/// A circuit, a simulation of one, or one that is unrolled step by step.
#[derive(Drop)]
pub enum Held {
    Circuit(Aig),
    Simulation(Simulated),
    Unrolling(Unrolling),
}

//! Circuits in memory for C: exports whose contracts speak of the circuit, the simulation or the unrolled circuit that a handle holds. `include/aig_circuit.h`
//! says to C what each takes and gives.
//!
//! No call has a `requires`: a handle that holds nothing, an edge that isn't there and memory that is refused are answered by a status.
#![tactic(auto)]

/// Lends what a handle holds to what gives the status, where it is of this kind.
macro_rules! lend_as {
    ($kind:ident, $alloc:expr, $handle:expr, $value:ident => $status:expr) => {{
        let Some(mut held) = $handle.take($alloc) else {
            return EMPTY;
        };
        let status = match &mut *held {
            Held::$kind($value) => $status,
            _ => EMPTY,
        };
        $handle.put($alloc, held);
        status
    }};
}

/// Lends the circuit of a handle.
macro_rules! lend {
    ($alloc:expr, $handle:expr, $aig:ident => $status:expr) => {
        lend_as!(Circuit, $alloc, $handle, $aig => $status)
    };
}

/// Lends the simulation of a handle.
macro_rules! lend_simulation {
    ($alloc:expr, $handle:expr, $simulated:ident => $status:expr) => {
        lend_as!(Simulation, $alloc, $handle, $simulated => $status)
    };
}

/// Lends the unrolled circuit of a handle.
macro_rules! lend_unrolling {
    ($alloc:expr, $handle:expr, $unrolling:ident => $status:expr) => {
        lend_as!(Unrolling, $alloc, $handle, $unrolling => $status)
    };
}

mod building;
mod checks;
mod clauses;
mod cones;
mod connectives;
mod files;
mod handles;
mod latches;
mod lists;
mod names;
mod questions;
mod reading;
mod simulation;
mod simulations;
mod status;
mod transforms;
mod unrolling;
mod unrolling_checks;

//! Proofs of the conditions of a certificate.

use aig_base::FromRead;
use aig_refutation::RefutationError;
use aig_subjects::FileSubject;
use aig_witness_circuit_checks::{Condition, ConditionError, SimulationError, check_simulated};
use std::alloc::Global;

/// The limit on nodes.
const LIMIT: usize = 1 << 24;

/// A latch that stays 0, and is bad.
const STUCK: &[u8] = b"aag 1 0 1 0 0 1\n2 2\n2\n";

/// The same latch, of which nothing is bad.
const FREE: &[u8] = b"aag 1 0 1 0 0 1\n2 2\n0\n";

/// A latch that takes turns.
const TURNING: &[u8] = b"aag 1 0 1 0 0 1\n2 3\n2\n";

/// The latch of `STUCK`, and one that starts with its inverse.
const FOLLOWING: &[u8] = b"aag 2 0 2 0 0 1\n2 2\n4 4 3\n2\n";

/// The latch of `STUCK`, and one that starts with its own inverse.
const CIRCULAR: &[u8] = b"aag 2 0 2 0 0 1\n2 2\n4 4 5\n2\n";

/// Why empty proofs that a witness circuit is a certificate of `STUCK` are refused, if they are.
fn simulated(alloc: Global, witness: &[u8]) -> Option<SimulationError> {
    let none: &[u8] = b"";
    let mut file = FromRead::new(STUCK);
    let mut witness = FromRead::new(witness);
    let mut reset = FromRead::new(none);
    let mut transition = FromRead::new(none);
    let mut property = FromRead::new(none);
    let mut base = FromRead::new(none);
    let mut step = FromRead::new(none);
    check_simulated(
        alloc,
        FileSubject::Own,
        &mut file,
        &mut witness,
        LIMIT,
        true,
        &mut reset,
        &mut transition,
        &mut property,
        &mut base,
        &mut step,
    )
    .err()
}

// The questions of `STUCK` beside itself fold to false, so that their clauses are in conflict at once. Beside `FREE` the one of the
// property is the latch, and beside `TURNING` the one of the steps is true.
#[test]
fn takes_conditions_that_fold_to_false(rt: HostRuntime) {
    let alloc = rt.alloc();
    let unfinished = ConditionError::Refutation(RefutationError::Unfinished);
    let property = SimulationError::Condition(Condition::Property, unfinished);
    let transition = SimulationError::Condition(Condition::Transition, unfinished);
    assert!(rt; simulated(alloc, STUCK) == None);
    assert!(rt; simulated(alloc, FREE) == Some(property));
    assert!(rt; simulated(alloc, TURNING) == Some(transition));
}

#[test]
fn takes_resets_that_are_functions_without_a_circle(rt: HostRuntime) {
    let alloc = rt.alloc();
    assert!(rt; simulated(alloc, FOLLOWING) == None);
    assert!(rt; simulated(alloc, CIRCULAR) == Some(SimulationError::Circular));
}

//! Proofs of a file's query, in both settings of clauses.

use crate::shown::LIMIT;
use crate::tests::goals::{fault_of, refused};
use aig_answers::{Goal, GoalFault, check_goal};
use aig_command_line::InMemory;
use aig_refutation::RefutationError;
use aig_subjects::{FileSubject, Subject};
use std::alloc::Global;
use std::test::Fail;

/// A latch that stays 0, an input, and gates that are their exclusive or: bad where that is true and the input isn't, which is
/// never.
const DIFFERING: &[u8] = b"aag 6 1 1 0 4 1\n2\n4 4\n12\n6 5 2\n8 4 3\n10 9 7\n12 11 3\n";

/// Why a proof of the query for step 0 is refused, if it is.
fn fault(alloc: Global, optimize: bool, proof: &[u8]) -> Option<GoalFault> {
    fault_of(check_goal(
        alloc,
        LIMIT,
        Subject::File(FileSubject::Own),
        Goal::Refuted(0),
        optimize,
        optimize,
        &mut [InMemory::new(DIFFERING)],
        &mut [InMemory::new(proof)],
    ))
}

// Clauses 5, 6, 7, 9 and 10 are `6 2 3`, `-7 -2`, `-7 -6`, `-3` and `7`.
#[test]
fn takes_a_proof_of_optimized_clauses_alone(rt: HostRuntime) -> Result<(), Fail> {
    let proof = b"11 0 10 6 7 9 5 0\n";
    let step = refused(0, RefutationError::Step);
    assert!(rt; fault(rt.alloc(), true, proof) == None);
    assert!(rt; fault(rt.alloc(), false, proof) == step);
    Ok(())
}

// Clauses 2, 6, 10, 11, 12, 14 and 15 are `-4 2`, `-5 3`, `6 4 5`, `-7 -2`, `-7 -6`, `-3` and `7`.
#[test]
fn takes_a_proof_of_raw_clauses_alone(rt: HostRuntime) -> Result<(), Fail> {
    let proof = b"16 0 15 11 12 14 2 6 10 0\n";
    let unnamed = refused(0, RefutationError::Unnamed);
    assert!(rt; fault(rt.alloc(), false, proof) == None);
    assert!(rt; fault(rt.alloc(), true, proof) == unnamed);
    Ok(())
}

//! Proofs of joint circuits, in both settings of clauses.

use crate::shown::{COMPARISON, LIMIT};
use crate::tests::goals::{fault_of, refused};
use aig_answers::{Goal, GoalFault, Window, check_goal};
use aig_command_line::InMemory;
use aig_edits::{Misfit, PairError};
use aig_refutation::RefutationError;
use aig_subjects::{FileSubject, Subject, SubjectError};
use std::alloc::Global;

/// A latch that stays 0, an input, and gates that are their exclusive or: bad where that is true and the input isn't, which is
/// never.
const DIFFERING: &[u8] = b"aag 6 1 1 0 4 1\n2\n4 4\n12\n6 5 2\n8 4 3\n10 9 7\n12 11 3\n";

/// The latch and the input, and that the latch is 0 as a constraint.
const HELD: &[u8] = b"aag 2 1 1 0 0 0 1\n2\n4 4\n5\n";

/// The and of two inputs.
const AND: &[u8] = b"aag 3 2 0 1 1\n2\n4\n6\n6 4 2\n";

/// Why proofs that `HELD` is a certificate of `DIFFERING` are refused, if they are.
fn certified(alloc: Global, optimize: bool, base: &[u8], step: &[u8]) -> Option<GoalFault> {
    fault_of(check_goal(
        alloc,
        LIMIT,
        Subject::Certified(FileSubject::Own),
        Goal::SafeBySteps(0, Window::Plain),
        optimize,
        optimize,
        &mut [InMemory::new(DIFFERING), InMemory::new(HELD)],
        &mut [InMemory::new(base), InMemory::new(step)],
    ))
}

/// Why a proof that two files are equal at step 0 is refused, if it is.
fn equal(alloc: Global, optimize: bool, other: &[u8], proof: &[u8]) -> Option<GoalFault> {
    fault_of(check_goal(
        alloc,
        LIMIT,
        Subject::Miter(COMPARISON),
        Goal::Refuted(0),
        optimize,
        optimize,
        &mut [InMemory::new(AND), InMemory::new(other)],
        &mut [InMemory::new(proof)],
    ))
}

// The joint circuit is `DIFFERING` with the latch as a second bad edge. Clauses 5, 6, 7, 9 and 10 of its query are `6 2 3`,
// `-7 -2`, `-7 -6`, `-3` and `7 3`, and 11, 13, 14, 17 and 18 of its window `11 3 8`, `-12 -8`, `-12 -11`, `-3` and `12 3`.
// Raw, 2, 6, 10, 11, 12, 14 and 15 are `-4 2`, `-5 3`, `6 4 5`, `-7 -2`, `-7 -6`, `-3` and `7 3`, and 15, 17, 22, 23, 24, 27
// and 28 of the window `-9 8`, `-10 3`, `11 9 10`, `-12 -8`, `-12 -11`, `-3` and `12 3`.
#[test]
fn takes_proofs_of_a_certificate_in_their_setting_alone(rt: HostRuntime) {
    let alloc = rt.alloc();
    let base = b"11 0 9 10 6 7 5 0\n";
    let step = b"19 0 17 18 13 14 11 0\n";
    let raw_base = b"16 0 14 15 11 12 2 6 10 0\n";
    let raw_step = b"29 0 27 28 23 24 15 17 22 0\n";
    let (other, unnamed) = (RefutationError::Step, RefutationError::Unnamed);
    assert!(rt; certified(alloc, true, base, step) == None);
    assert!(rt; certified(alloc, false, raw_base, raw_step) == None);
    assert!(rt; certified(alloc, false, base, raw_step) == refused(0, other));
    assert!(rt; certified(alloc, true, raw_base, step) == refused(0, unnamed));
    assert!(rt; certified(alloc, false, raw_base, step) == refused(1, other));
    assert!(rt; certified(alloc, true, base, raw_step) == refused(1, unnamed));
}

// The miter has the and twice, 4 and 5, and 8 as their exclusive or. Clauses 2 to 9 of its query are `-4 2`, `-4 3`, `4 -2 -3`,
// `-5 2`, `-5 3`, `5 -2 -3`, `-8 4 5` and `-8 -4 -5`, and 12 is `8`. Raw, 10, 13, 14, 15 and 17 are `6 -4 -5`, `7 4 5`, `-8 -6`,
// `-8 -7` and `8`.
#[test]
fn takes_proofs_of_equal_ands_in_their_setting_alone(rt: HostRuntime) {
    let alloc = rt.alloc();
    let proof = b"13 -4 0 12 2 3 7 9 0\n14 0 12 13 8 5 6 4 0\n";
    let raw = b"18 -4 0 17 14 2 3 7 10 0\n19 0 17 18 15 13 5 6 4 0\n";
    let (other, unnamed) = (RefutationError::Step, RefutationError::Unnamed);
    assert!(rt; equal(alloc, true, AND, proof) == None);
    assert!(rt; equal(alloc, false, AND, raw) == None);
    assert!(rt; equal(alloc, false, AND, proof) == refused(0, other));
    assert!(rt; equal(alloc, true, AND, raw) == refused(0, unnamed));
}

/// That the counts of the files don't fit.
fn unfit(misfit: Misfit) -> Option<GoalFault> {
    let error = PairError::Misfit(misfit);
    Some(GoalFault::Subject(SubjectError::Pair(error)))
}

#[test]
fn refuses_files_that_do_not_fit(rt: HostRuntime) {
    let alloc = rt.alloc();
    let inputs = unfit(Misfit::Inputs(2, 1));
    let outputs = unfit(Misfit::Outputs(1, 0));
    assert!(rt; equal(alloc, true, b"aag 1 1 0 1 0\n2\n2\n", b"0\n") == inputs);
    assert!(rt; equal(alloc, true, b"aag 2 2 0 0 0\n2\n4\n", b"0\n") == outputs);
}

//! Proofs of what another call prints, and programs on files in memory.

use crate::instances::{Files, printed_of_check, printed_of_compress};
use crate::taking::{taken_as_equal, taken_of_certificate, taken_of_question};
use aig_answers::{Ask, Window, asked_with};
use std::alloc::Global;

/// A latch that stays 0, and is bad where it is 1.
const STUCK: &[u8] = b"aag 1 0 1 0 0 1\n2 2\n2\n";

/// The and of two inputs is bad, and one of them is.
const BOTH: &[u8] = b"aag 3 2 0 0 1 2\n2\n4\n6\n2\n6 4 2\n";

// The query of step 0 has the clauses that the latch is 0 and that it is 1, and the question up to step 1 those that the constant is; those
// of the window have them of the same variable, which is the latch at both steps.
#[test]
fn takes_proofs_of_what_is_printed(rt: HostRuntime) {
    let alloc = rt.alloc();
    let none = b"".as_slice();
    let step = taken_of_question(alloc, STUCK, asked_with(true, Ask::Step(0)), none);
    assert!(rt; matches!(&step, Ok((_, Ok(())))));
    let window = asked_with(false, Ask::Window(0, Window::Plain));
    let window = taken_of_question(alloc, STUCK, window, none);
    assert!(rt; matches!(&window, Ok((_, Ok(())))));
    let certificate = taken_of_certificate(alloc, STUCK, STUCK, true, none, none);
    assert!(rt; matches!(&certificate, Ok((_, Ok(())))));
    let equal = taken_as_equal(alloc, STUCK, STUCK, 0, true, none);
    assert!(rt; matches!(&equal, Ok((_, Ok(())))));
    let stays = taken_of_question(alloc, STUCK, asked_with(true, Ask::UpTo(1)), none);
    assert!(rt; matches!(&stays, Ok((_, Ok(())))));
    let reached = taken_of_question(alloc, BOTH, asked_with(true, Ask::UpTo(1)), none);
    assert!(rt; matches!(&reached, Ok((_, Err(_)))));
}

/// What `aigcheck` prints for a line of words.
fn printed_of(alloc: Global, line: &str, files: &Files<'_>) -> Option<Vec<u8>> {
    let mut words = Vec::new(alloc);
    for word in line.split_whitespace() {
        words.push(String::from_str(alloc, word).ok()?).ok()?;
    }
    printed_of_check(alloc, words, files)
}

#[test]
fn prints_what_the_programs_print(rt: HostRuntime) {
    let alloc = rt.alloc();
    let files = Files {
        file: STUCK,
        other: STUCK,
        beside: b"",
    };
    let refuted = printed_of(alloc, "refuted FILE 0 PROOF", &files);
    assert!(rt; refuted.as_deref() == Some(b"no bad state at step 0\n".as_slice()));
    let compressed = printed_of_compress(alloc, BOTH).ok().flatten();
    let text = b"aag 4 2 0 0 2 1\n2\n4\n9\n6 4 2\n8 7 3\n".as_slice();
    assert!(rt; compressed.as_deref() == Some(text));
}

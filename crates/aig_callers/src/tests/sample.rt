//! What the sample writes.

use crate::sample::show_all;
use aig_base::{FromRead, ToWrite};
use std::test::Fail;

/// The and of two inputs.
const AND: &[u8] = b"aag 3 2 0 1 1\n2\n4\n6\n6 4 2\n";

/// A counter of two bits, bad where it is at 3.
const COUNTER: &[u8] = b"\
    aag 11 1 2 0 8 1\n2\n4 10\n14 20\n22\n6 4 2\n8 5 3\n10 9 7\n12 4 2\n16 14 12\n18 15 13\n\
    20 19 17\n22 14 4\ni0 step\nl0 low\nl1 high\n";

/// Two steps of it.
const COUNTER_TWICE: &[u8] = b"\
    aag 20 2 2 0 16 2\n2\n24\n4 30\n14 38\n22\n40\n6 4 2\n8 5 3\n10 9 7\n12 4 2\n16 14 12\n\
    18 15 13\n20 19 17\n22 14 4\n26 24 10\n28 25 11\n30 29 27\n32 24 10\n34 32 20\n\
    36 33 21\n38 37 35\n40 20 10\ni0 step\nl0 low\nl1 high\n";

/// Two steps of the and, bad where its first input holds and it does not.
const AND_TWICE: &[u8] = b"\
    aag 10 4 0 2 6 2\n2\n4\n12\n14\n6\n16\n10\n20\n6 4 2\n8 6 2\n10 9 2\n16 14 12\n\
    18 16 12\n20 19 12\n";

#[test]
fn writes_a_counter_and_steps(rt: HostRuntime) -> Result<(), Fail> {
    let alloc = rt.alloc();
    let mut source = FromRead::new(AND);
    let mut sink = ToWrite::new(Vec::new(alloc));
    assert!(rt; show_all(alloc, &mut source, &mut sink).is_ok());
    let mut wanted = Vec::new(alloc);
    for part in [COUNTER, COUNTER_TWICE, AND_TWICE] {
        wanted.extend_from_slice(part)?;
    }
    assert!(rt; sink.into_inner() == wanted);
    Ok(())
}

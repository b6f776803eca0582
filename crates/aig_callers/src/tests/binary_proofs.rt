//! Binary proofs, the bytes of which come one by one.

use aig_base::{DagCnf, Lit, LitVvec, MemoryError, Parts, Var};
use aig_refutation::{RefutationError, check_refutation};
use std::alloc::Global;
use std::test::Fail;

/// Which of two literals are inverted, in each way.
const SIGNS: [[bool; 2]; 4] = [[true, true], [true, false], [false, true], [false, false]];

/// All four clauses of variables 1 and 2, which no assignment makes true.
fn four(alloc: Global) -> Result<LitVvec, MemoryError> {
    let mut clauses = LitVvec::new(alloc);
    for [a, b] in SIGNS {
        clauses.push(&[Lit::new(Var::new(1), a), Lit::new(Var::new(2), b)])?;
    }
    Ok(clauses)
}

/// Why a proof that these clauses can't be satisfied is refused, if it is. A read fails after `limit` bytes.
fn fault(
    alloc: Global,
    proof: &[u8],
    limit: Option<usize>,
) -> Result<Option<RefutationError>, Fail> {
    let mut cnf = DagCnf::new(alloc)?;
    cnf.new_var()?;
    cnf.new_var()?;
    let mut bytes = Vec::new(alloc);
    bytes.extend_from_slice(proof)?;
    let mut source = Parts::new(bytes, 1, limit);
    Ok(check_refutation(alloc, &cnf, &four(alloc)?, &mut source).err())
}

// Variable v is written as 2 * (v + 1), and as one more where it is inverted.
#[test]
fn takes_binary_steps(rt: HostRuntime) -> Result<(), Fail> {
    let alloc = rt.alloc();
    assert!(rt; fault(alloc, b"a\x04\0a\0", None)? == None);
    assert!(rt; fault(alloc, b"a\x84\x80\0\0", None)? == None);
    assert!(rt; fault(alloc, b"d\x04\0a\x04\0and more", None)? == None);
    Ok(())
}

#[test]
fn refuses_other_binary_steps(rt: HostRuntime) -> Result<(), Fail> {
    let alloc = rt.alloc();
    let step = Some(RefutationError::Step);
    assert!(rt; fault(alloc, b"d\x04\x06\0a\x04\0a\0", None)? == step);
    assert!(rt; fault(alloc, b"a\x86\x80\x08\0", None)? == Some(RefutationError::Unfinished));
    assert!(rt; fault(alloc, b"a\x88\x80\x08\0", None)? == Some(RefutationError::Literal));
    assert!(rt; fault(alloc, b"a\x01\0", None)? == Some(RefutationError::Binary));
    Ok(())
}

#[test]
fn refuses_binary_proofs_that_end_early(rt: HostRuntime) -> Result<(), Fail> {
    let alloc = rt.alloc();
    let unfinished = Some(RefutationError::Unfinished);
    assert!(rt; fault(alloc, b"d\x04\x06\0", None)? == unfinished);
    assert!(rt; fault(alloc, b"d\x04\x06\0d\x04", None)? == Some(RefutationError::Binary));
    assert!(rt; fault(alloc, b"a\x04\0a\0", Some(2))? == Some(RefutationError::Stream));
    Ok(())
}

// A deletion in a text, and one in which a byte stands that no text has.
#[test]
fn tells_texts_and_binary_proofs_apart(rt: HostRuntime) -> Result<(), Fail> {
    let alloc = rt.alloc();
    assert!(rt; fault(alloc, b"d 2 0\n2 0\n", None)? == None);
    assert!(rt; fault(alloc, b"d \0a\x04\0", None)? == None);
    Ok(())
}

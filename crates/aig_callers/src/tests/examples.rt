//! The examples of the docstrings of `aig` and `aig_encode`: `tests/pages/test_examples.py` checks that each stands here, line for line.

use crate::tests::read;
use aig::{Aig, AigEdge, TernarySimulate};
use aig_base::{FromRead, Lbool, Var};
use aig_encode::{encode, query};
use std::test::Fail;

#[test]
fn reads_a_file(rt: HostRuntime) -> Result<(), Fail> {
    let alloc = rt.alloc();
    let file = b"aag 3 2 0 1 1\n2\n4\n6\n6 4 2\n";
    let mut source = FromRead::new(file.as_slice());
    let aig = Aig::from_aiger(alloc, &mut source, 1 << 24)?;
    assert!(rt; aig.num_nodes() == 4);
    assert!(rt; aig.inputs() == [1, 2].as_slice());
    assert!(rt; aig.outputs() == [AigEdge::from(3)].as_slice());
    Ok(())
}

#[test]
fn adds_a_gate_or_folds(rt: HostRuntime) -> Result<(), Fail> {
    let alloc = rt.alloc();
    let mut aig = Aig::new(alloc)?;
    let x = AigEdge::from(aig.new_input()?);
    let y = AigEdge::from(aig.new_input()?);
    let both = aig.new_and_node(x, y)?;
    let again = aig.new_and_node(x, y)?;
    let never = aig.new_and_node(x, !x)?;
    let edges = (AigEdge::from(3), AigEdge::from(4), AigEdge::constant(false));
    assert!(rt; (both, again, never) == edges && aig.num_nodes() == 5);
    Ok(())
}

#[test]
fn refines_a_circuit(rt: HostRuntime) -> Result<(), Fail> {
    let alloc = rt.alloc();
    let aig = read(alloc, b"aag 2 2 0 1 0\n2\n4\n4\n")?;
    let (refined, old_numbers) = aig.coi_refine()?;
    assert!(rt; refined.num_nodes() == 2 && refined.outputs() == [AigEdge::from(1)].as_slice());
    assert!(rt; old_numbers.get(Var::new(1)) == Some(Var::new(2)));
    Ok(())
}

#[test]
fn appends_a_copy(rt: HostRuntime) -> Result<(), Fail> {
    let alloc = rt.alloc();
    let mut both = read(alloc, b"aag 3 2 0 1 1\n2\n4\n6\n6 4 2\n")?;
    let copy = both.clone()?;
    both.merge(&copy)?;
    let (first, second) = (AigEdge::from(3), AigEdge::from(6));
    assert!(rt; both.num_nodes() == 7 && both.outputs() == [first, second].as_slice());
    Ok(())
}

#[test]
fn unrolls_a_toggle(rt: HostRuntime) -> Result<(), Fail> {
    let alloc = rt.alloc();
    let toggle = read(alloc, b"aag 1 0 1 1 0\n2 3\n2\n")?;
    let unrolled = toggle.unroll_to(1)?;
    let latch = AigEdge::from(1);
    assert!(rt; unrolled.num_nodes() == 2 && unrolled.outputs() == [latch, !latch].as_slice());
    Ok(())
}

#[test]
fn merges_equal_gates(rt: HostRuntime) -> Result<(), Fail> {
    let alloc = rt.alloc();
    let file = b"aag 6 2 0 2 4\n2\n4\n10\n12\n6 4 2\n8 4 2\n10 6 2\n12 8 2\n";
    let aig = read(alloc, file)?;
    let hashed = aig.strash()?;
    let gate = AigEdge::from(4);
    assert!(rt; aig.num_nodes() == 7 && hashed.num_nodes() == 5);
    assert!(rt; hashed.outputs() == [gate, gate].as_slice());
    Ok(())
}

#[test]
fn encodes_an_exclusive_or(rt: HostRuntime) -> Result<(), Fail> {
    let alloc = rt.alloc();
    let aig = read(alloc, b"aag 5 2 0 1 3\n2\n4\n11\n6 4 2\n8 5 3\n10 9 7\n")?;
    let plain = aig.cnf(false)?.num_clauses();
    let optimized = aig.cnf(true)?.num_clauses();
    assert!(rt; plain == 10 && optimized == 5);
    Ok(())
}

#[test]
fn simulates_a_toggle(rt: HostRuntime) -> Result<(), Fail> {
    let alloc = rt.alloc();
    let state = vec![in alloc; Lbool::FALSE]?;
    let steps = vec![in alloc; Vec::new(alloc), Vec::new(alloc)]?;
    let toggle = read(alloc, b"aag 1 0 1 1 0\n2 3\n2\n")?;
    let latch = AigEdge::from(1);
    assert!(rt; toggle.latchs().len() == 1 && toggle.inputs().len() == 0 && toggle.has_edge(latch));
    let values = TernarySimulate::new(&toggle, state).simulate_all(steps, latch)?;
    assert!(rt; values.as_slice() == [Lbool::FALSE, Lbool::TRUE].as_slice());
    Ok(())
}

#[test]
fn encodes_a_toggle(rt: HostRuntime) -> Result<(), Fail> {
    let alloc = rt.alloc();
    let file = b"aag 1 0 1 1 0\n2 3\n2\n";
    let mut source = FromRead::new(file.as_slice());
    let encoded = encode(alloc, &mut source, 1 << 24, 1, true)?;
    let latch = AigEdge::from(1);
    assert!(rt; encoded.unrolled.outputs() == [latch, !latch].as_slice());
    assert!(rt; encoded.clauses.num_vars() == 2 && encoded.clauses.num_clauses() == 1);
    Ok(())
}

#[test]
fn queries_a_toggle(rt: HostRuntime) -> Result<(), Fail> {
    let alloc = rt.alloc();
    let file = b"aag 1 0 1 0 0 1\n2 3\n2\n";
    let mut source = FromRead::new(file.as_slice());
    let extra = query(alloc, &mut source, 1 << 24, 1, true)?.extra;
    let unit = [!Var::new(1).lit()];
    assert!(rt; extra.len() == 2);
    assert!(rt; extra.clause(0) == unit.as_slice() && extra.clause(1) == unit.as_slice());
    Ok(())
}

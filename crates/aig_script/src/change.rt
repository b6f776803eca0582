//! Steps that make another circuit, or change one as a whole.

use crate::script::{Refusal, Script};
use crate::show::{call, print, print_answer, print_map};
use crate::words::{Line, find};
use aig::Aig;
use aig_base::{MemoryError, VarVMap};
use std::alloc::Global;
use std::io::Print;
use std::mem;

/// What is made of a circuit.
enum Making {
    New,
    Strash,
    Move,
    UnrollTo,
    Reencode,
}

/// What is done with the circuit, or with the one that is kept.
enum Change {
    Make(Making),
    Keep,
    Swap,
    Unroll,
    Merge,
    Constrain,
}

const STEPS: [(&str, Change); 10] = [
    ("new", Change::Make(Making::New)),
    ("keep", Change::Keep),
    ("swap", Change::Swap),
    ("strash", Change::Make(Making::Strash)),
    ("aig_move", Change::Make(Making::Move)),
    ("unroll_to", Change::Make(Making::UnrollTo)),
    ("reencode", Change::Make(Making::Reencode)),
    ("unroll", Change::Unroll),
    ("merge", Change::Merge),
    ("gate_init_to_constraint", Change::Constrain),
];

/// The circuit in the order of a binary file, if no leaf is free.
fn reencoded(aig: &Aig) -> Result<Aig, Refusal> {
    if !aig.is_closed() {
        return Err(Refusal::FreeLeaf);
    }
    Ok(aig.reencode()?)
}

/// The circuit with the further steps that a word names.
fn unrolled(aig: &Aig, numbers: &[usize]) -> Result<Aig, Refusal> {
    let [k] = numbers else {
        return Err(Refusal::NotAllowed);
    };
    Ok(aig.unroll_to(*k)?)
}

/// Adds a step of the circuit that was kept.
fn unroll(script: &mut Script) -> Result<(), Refusal> {
    if !script.circuit.begins_with(&script.kept) {
        return Err(Refusal::NotAllowed);
    }
    Ok(script.circuit.unroll(&script.kept)?)
}

/// A copy of a circuit.
fn copied(aig: &Aig) -> Result<Aig, MemoryError> {
    Ok(aig.clone()?)
}

/// The circuit that is made of another.
fn made(alloc: Global, aig: &Aig, making: &Making, numbers: &[usize]) -> Result<Aig, Refusal> {
    let made = match making {
        Making::New => Aig::new(alloc),
        Making::Strash => aig.strash(),
        Making::Move => aig.aig_move(),
        Making::UnrollTo => return unrolled(aig, numbers),
        Making::Reencode => return reencoded(aig),
    };
    Ok(made?)
}

/// Takes a step of the table.
fn alter(script: &mut Script, step: &Change, numbers: &[usize]) -> Result<(), Refusal> {
    match step {
        Change::Make(making) => {
            script.circuit = made(script.alloc, &script.circuit, making, numbers)?;
        }
        Change::Keep => script.kept = copied(&script.circuit)?,
        Change::Swap => mem::swap(&mut script.circuit, &mut script.kept),
        Change::Unroll => unroll(script)?,
        Change::Merge => script.circuit.merge(&script.kept)?,
        Change::Constrain => script.circuit.gate_init_to_constraint()?,
    }
    Ok(())
}

/// The circuit of what its lists need, and the old numbers, if it fits literals.
fn refined(aig: &Aig) -> Result<(Aig, VarVMap), Refusal> {
    if !aig.fits_lits() {
        return Err(Refusal::NotAllowed);
    }
    Ok(aig.coi_refine()?)
}

/// Refines the circuit to what its lists need.
fn refine<R: Print>(rt: &R, script: &mut Script) {
    match call!(rt, refined(&script.circuit)) {
        Ok((made, map)) => {
            print_map(rt, &map);
            script.circuit = made;
        }
        Err(refusal) => print(rt, &refusal),
    }
}

/// Replaces the bad edges by one, and prints the old ones.
fn compress<R: Print>(rt: &R, aig: &mut Aig) {
    print_answer(rt, &call!(rt, aig.compress_property()));
}

/// Takes a step of this file, if it is one.
pub(crate) fn take<R: Print>(rt: &R, script: &mut Script, line: Line<'_>) -> bool {
    if let Some(step) = find(&STEPS, line.name) {
        print_answer(rt, &call!(rt, alter(script, step, line.numbers)));
    } else if line.name == "compress_property" {
        compress(rt, &mut script.circuit);
    } else if line.name == "coi_refine" {
        refine(rt, script);
    } else {
        return false;
    }
    true
}

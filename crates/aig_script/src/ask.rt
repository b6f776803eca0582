//! Steps that ask something of a circuit.

use crate::script::{Refusal, Script};
use crate::show::{call, print, print_answer, print_circuit, print_dag};
use crate::words::{Line, edges, has_edges};
use aig::Aig;
use aig_base::DagCnf;
use std::alloc::Global;
use std::collections::HashSet;
use std::io::Print;

/// The clauses of the circuit's gates, if it fits literals.
fn clauses(circuit: &Aig, optimize: bool) -> Result<DagCnf, Refusal> {
    if !circuit.fits_lits() {
        return Err(Refusal::NotAllowed);
    }
    Ok(circuit.cnf(optimize)?)
}

/// Prints the clauses of the circuit's gates.
fn cnf<R: Print>(rt: &R, circuit: &Aig, optimize: bool) {
    match call!(rt, clauses(circuit, optimize)) {
        Ok(clauses) => print_dag(rt, &clauses),
        Err(refusal) => print(rt, &refusal),
    }
}

/// The cone of edges.
fn cone(alloc: Global, circuit: &Aig, literals: &[usize]) -> Result<Vec<bool>, Refusal> {
    let edges = edges(alloc, literals)?;
    if !has_edges(circuit, &edges) {
        return Err(Refusal::NotAllowed);
    }
    Ok(circuit.fanin_logic_cone(&edges)?)
}

/// What nodes reach, latches crossed.
fn reached(circuit: &Aig, nodes: &[usize]) -> Result<HashSet<usize>, Refusal> {
    if !nodes.iter().all(|id| circuit.has_node(*id)) {
        return Err(Refusal::NotAllowed);
    }
    Ok(circuit.coi(nodes)?)
}

/// Prints a node's name.
fn symbol<R: Print>(rt: &R, circuit: &Aig, numbers: &[usize]) {
    match numbers {
        [id] => print_answer(rt, &call!(rt, circuit.get_symbol(*id))),
        _ => print(rt, &Refusal::NotAllowed),
    }
}

/// Takes a step of this file, if it is one.
pub(crate) fn take<R: Print>(rt: &R, script: &Script, line: Line<'_>) -> bool {
    let (circuit, numbers) = (&script.circuit, line.numbers);
    match line.name {
        "show" => print_circuit(rt, circuit),
        "get_symbol" => symbol(rt, circuit, numbers),
        "begins_with" => print(rt, &circuit.begins_with(&script.kept)),
        "cnf" => cnf(rt, circuit, true),
        "cnf_raw" => cnf(rt, circuit, false),
        "fanin_logic_cone" => print_answer(rt, &call!(rt, cone(script.alloc, circuit, numbers))),
        "coi" => print_answer(rt, &call!(rt, reached(circuit, numbers))),
        _ => return false,
    }
    true
}

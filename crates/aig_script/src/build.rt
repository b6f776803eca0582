//! Steps that add gates to a circuit, or change its leaves and entries.

use crate::script::{Refusal, Script};
use crate::show::{call, print, print_answer};
use crate::words::{Line, edge, edges, find, has_edges};
use crate::{leaves, properties};
use aig::{Aig, AigEdge};
use std::alloc::Global;
use std::fs;
use std::io::Print;
use std::rt::Files;

/// The connectives of two edges.
enum Pair {
    And,
    Or,
    Imply,
    Eq,
    TrivialAnd,
    TrivialOr,
}

/// The connectives of lists of edges.
enum Many {
    Ands,
    Ors,
    TrivialAnds,
    TrivialOrs,
}

const PAIRS: [(&str, Pair); 6] = [
    ("and", Pair::And),
    ("or", Pair::Or),
    ("imply", Pair::Imply),
    ("eq", Pair::Eq),
    ("trivial_and", Pair::TrivialAnd),
    ("trivial_or", Pair::TrivialOr),
];

const MANY: [(&str, Many); 4] = [
    ("ands", Many::Ands),
    ("ors", Many::Ors),
    ("trivial_ands", Many::TrivialAnds),
    ("trivial_ors", Many::TrivialOrs),
];

/// Adds a connective of two edges.
fn add_gate(aig: &mut Aig, pair: &Pair, literals: &[usize]) -> Result<AigEdge, Refusal> {
    let [a, b] = literals else {
        return Err(Refusal::NotAllowed);
    };
    let (a, b) = (edge(*a), edge(*b));
    if !aig.has_edge(a) || !aig.has_edge(b) {
        return Err(Refusal::NotAllowed);
    }
    let added = match pair {
        Pair::And => aig.new_and_node(a, b),
        Pair::Or => aig.new_or_node(a, b),
        Pair::Imply => aig.new_imply_node(a, b),
        Pair::Eq => aig.new_eq_node(a, b),
        Pair::TrivialAnd => aig.trivial_new_and_node(a, b),
        Pair::TrivialOr => aig.trivial_new_or_node(a, b),
    };
    Ok(added?)
}

/// Adds a connective of a list of edges.
fn add_gates(
    alloc: Global,
    aig: &mut Aig,
    many: &Many,
    literals: &[usize],
) -> Result<AigEdge, Refusal> {
    let edges = edges(alloc, literals)?;
    if !has_edges(aig, &edges) {
        return Err(Refusal::NotAllowed);
    }
    let added = match many {
        Many::Ands => aig.new_ands_node(edges),
        Many::Ors => aig.new_ors_node(edges),
        Many::TrivialAnds => aig.trivial_new_ands_node(edges),
        Many::TrivialOrs => aig.trivial_new_ors_node(edges),
    };
    Ok(added?)
}

/// Names a node by the text of a file.
fn name<R: Print + Files + AllocGlobal>(rt: &R, script: &mut Script, line: Line<'_>) {
    let ([id, ..], [_, path]) = (line.numbers, line.words) else {
        return print(rt, &Refusal::NotAllowed);
    };
    match fs::read_to_string(rt, *path) {
        Ok(name) => print_answer(
            rt,
            &call!(rt, leaves::name(&mut script.circuit, *id, name.as_str())),
        ),
        Err(_) => print(rt, &Refusal::NotAllowed),
    }
}

/// Takes a step that adds gates, if it is one.
fn take_gates<R: Print>(rt: &R, script: &mut Script, line: Line<'_>) -> bool {
    let aig = &mut script.circuit;
    if let Some(pair) = find(&PAIRS, line.name) {
        print_answer(rt, &call!(rt, add_gate(aig, pair, line.numbers)));
        return true;
    }
    if let Some(many) = find(&MANY, line.name) {
        print_answer(
            rt,
            &call!(rt, add_gates(script.alloc, aig, many, line.numbers)),
        );
        return true;
    }
    false
}

/// Takes a step that changes leaves or entries, if it is one.
fn take_entries<R: Print>(rt: &R, script: &mut Script, line: Line<'_>) -> bool {
    let aig = &mut script.circuit;
    if let Some(leaf) = find(&leaves::STEPS, line.name) {
        print_answer(rt, &call!(rt, leaves::change(aig, leaf, line.numbers)));
        return true;
    }
    if let Some(entry) = find(&properties::STEPS, line.name) {
        print_answer(
            rt,
            &call!(rt, properties::change(script.alloc, aig, entry, line)),
        );
        return true;
    }
    false
}

/// Takes a step of this file, if it is one.
pub(crate) fn take<R: Print + Files + AllocGlobal>(
    rt: &R,
    script: &mut Script,
    line: Line<'_>,
) -> bool {
    if line.name == "name" {
        name(rt, script, line);
        return true;
    }
    take_gates(rt, script, line) || take_entries(rt, script, line)
}

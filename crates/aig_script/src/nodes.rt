//! Steps of the calls that tell of a circuit's parts, or put one in the place of another.

use crate::script::Refusal;
use crate::show::{print, print_answer, print_titled};
use crate::words::{Line, edge, find};
use aig::{Aig, AigEdge, AigNode};
use std::io::Print;

/// Which part of the circuit.
enum Part {
    Counts,
    Node,
    NodeMap,
    Latch,
    SetNode,
}

const STEPS: [(&str, Part); 5] = [
    ("counts", Part::Counts),
    ("node", Part::Node),
    ("node_map", Part::NodeMap),
    ("latch_fields", Part::Latch),
    ("set_node", Part::SetNode),
];

/// Prints what is told of all nodes.
fn print_counts<R: Print>(rt: &R, circuit: &Aig) {
    print_titled(rt, "num_nodes", &circuit.num_nodes());
    print_titled(rt, "nodes_range", &circuit.nodes_range());
    print_titled(
        rt,
        "nodes_range_with_false",
        &circuit.nodes_range_with_false(),
    );
    print_titled(rt, "is_closed", &circuit.is_closed());
    print_titled(rt, "fits_lits", &circuit.fits_lits());
    for node in circuit.ands_iter() {
        print_titled(rt, "and", node);
    }
}

/// Prints what a node's calls tell.
fn print_fields<R: Print>(rt: &R, node: &AigNode) {
    print_titled(rt, "node_id", &node.node_id());
    print_titled(rt, "typ", node.typ());
    print_titled(rt, "is_and", &node.is_and());
    print_titled(rt, "is_leaf", &node.is_leaf());
    if node.is_and() {
        print_titled(rt, "fanin", &node.fanin());
        print_titled(rt, "fanin0", &node.fanin0());
        print_titled(rt, "fanin1", &node.fanin1());
    }
}

/// Prints what is told of a number, and of the node that has it.
fn print_node<R: Print>(rt: &R, circuit: &Aig, id: usize) {
    print_titled(rt, "has_node", &circuit.has_node(id));
    print_titled(rt, "has_edge", &circuit.has_edge(AigEdge::from(id)));
    print_titled(rt, "is_free_leaf", &circuit.is_free_leaf(id));
    if circuit.has_node(id) {
        print_fields(rt, &circuit[id]);
    }
}

/// Prints a node with other numbers.
fn print_mapped<R: Print>(rt: &R, circuit: &Aig, id: usize) {
    if circuit.has_node(id) {
        print(rt, &circuit[id].map(&|id| id ^ 3));
    }
}

/// Prints what a latch's calls tell.
fn print_latch<R: Print>(rt: &R, circuit: &Aig, i: usize) {
    if let Some(latch) = circuit.latchs().get(i) {
        print_titled(rt, "input", &latch.input());
        print_titled(rt, "next", &latch.next());
        print_titled(rt, "init", &latch.init());
    }
}

/// A gate with other operands, if there is a gate of this number.
fn changed(circuit: &Aig, id: usize, first: AigEdge, second: AigEdge) -> Option<AigNode> {
    if !circuit.has_node(id) {
        return None;
    }
    let mut node = circuit[id];
    if !node.is_and() {
        return None;
    }
    node.set_fanin0(first);
    node.set_fanin1(second);
    Some(node)
}

/// Puts a gate with these operands in the place of a node, where that admits it.
fn set_node(circuit: &mut Aig, numbers: &[usize]) -> Result<(), Refusal> {
    let [i, id, first, second] = numbers else {
        return Err(Refusal::NotAllowed);
    };
    match changed(circuit, *id, edge(*first), edge(*second)) {
        Some(node) if circuit.admits(*i, &node) => {
            circuit.set_node(*i, node);
            Ok(())
        }
        _ => Err(Refusal::NotAllowed),
    }
}

/// Takes a step of the table.
fn take_part<R: Print>(rt: &R, circuit: &mut Aig, step: &Part, numbers: &[usize]) {
    match (step, numbers) {
        (Part::Counts, _) => print_counts(rt, circuit),
        (Part::Node, [id]) => print_node(rt, circuit, *id),
        (Part::NodeMap, [id]) => print_mapped(rt, circuit, *id),
        (Part::Latch, [i]) => print_latch(rt, circuit, *i),
        _ => print_answer(rt, &set_node(circuit, numbers)),
    }
}

/// Takes a step of this file, if it is one.
pub(crate) fn take<R: Print>(rt: &R, circuit: &mut Aig, line: Line<'_>) -> bool {
    match find(&STEPS, line.name) {
        Some(step) => {
            take_part(rt, circuit, step, line.numbers);
            true
        }
        None => false,
    }
}

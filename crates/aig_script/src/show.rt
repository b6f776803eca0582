//! How circuits, clauses and answers are printed: as their fields, without taking memory.
//!
//! An output that fails lacks lines, and is told so from what is wanted.

use aig::Aig;
use aig_base::{DagCnf, LitVvec, Var, VarVMap};
use std::fmt::Debug;
use std::io::Print;

/// Prints the name of a step.
pub(crate) fn print_name<R: Print>(rt: &R, name: &str) {
    let _ = println!(rt; "> {name}");
}

/// Prints a line.
pub(crate) fn print_title<R: Print>(rt: &R, title: &str) {
    let _ = println!(rt; "{title}");
}

/// Makes a call between the lines `call` and `answer`.
macro_rules! call {
    ($rt:expr, $call:expr) => {{
        crate::show::print_title($rt, "call");
        let answer = $call;
        crate::show::print_title($rt, "answer");
        answer
    }};
}

pub(crate) use call;

/// Prints a value.
pub(crate) fn print<R: Print, T: Debug>(rt: &R, value: &T) {
    let _ = println!(rt; "{value:?}");
}

/// Prints an answer, or why there is none.
pub(crate) fn print_answer<R: Print, T: Debug, E: Debug>(rt: &R, answer: &Result<T, E>) {
    match answer {
        Ok(value) => print(rt, value),
        Err(error) => print(rt, error),
    }
}

/// Prints a value behind a title.
pub(crate) fn print_titled<R: Print, T: Debug>(rt: &R, title: &str, value: &T) {
    let _ = println!(rt; "{title} {value:?}");
}

/// Prints the names in rising number.
fn print_names<R: Print>(rt: &R, circuit: &Aig) {
    let _ = print!(rt; "names");
    for id in circuit.nodes_range_with_false() {
        if let Some(name) = circuit.symbols().get(&id) {
            let _ = print!(rt; " {id}={name}");
        }
    }
    let _ = println!(rt; "");
}

/// Prints all of a circuit, a line a list.
pub(crate) fn print_circuit<R: Print>(rt: &R, circuit: &Aig) {
    print_titled(rt, "nodes", &circuit.nodes());
    print_titled(rt, "inputs", &circuit.inputs());
    print_titled(rt, "latches", &circuit.latchs());
    print_titled(rt, "outputs", &circuit.outputs());
    print_titled(rt, "bads", &circuit.bads());
    print_titled(rt, "constraints", &circuit.constraints());
    print_titled(rt, "justice", &circuit.justice());
    print_titled(rt, "fairness", &circuit.fairness());
    print_names(rt, circuit);
}

/// Prints clauses, one a line.
pub(crate) fn print_clauses<R: Print>(rt: &R, clauses: &LitVvec) {
    for i in 0..clauses.len() {
        print_titled(rt, "clause", &clauses.clause(i));
    }
}

/// Prints the clauses of each variable.
pub(crate) fn print_dag<R: Print>(rt: &R, clauses: &DagCnf) {
    for number in 0..clauses.num_vars() {
        print_titled(rt, "variable", &number);
        print_clauses(rt, clauses.clauses_of(Var::new(number)));
    }
    let _ = println!(rt; "{} clauses", clauses.num_clauses());
}

/// The nodes of a map are looked for among so many.
const MOST_MAPPED: usize = 100;

/// Prints which old numbers a map gives the nodes of a circuit, and how many it maps.
pub(crate) fn print_map<R: Print>(rt: &R, map: &VarVMap) {
    for number in 0..MOST_MAPPED {
        if let Some(image) = map.get(Var::new(number)) {
            let _ = println!(rt; "{number} was {}", usize::from(image));
        }
    }
    let _ = println!(rt; "{} mapped", map.len());
}

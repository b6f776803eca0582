//! Steps on edges, literals and three values, and the words of refusals.

ghost use Rattle.std.specs.Prelude.{◌<◌, ◌^◌};

use crate::script::Refusal;
use crate::show::{print, print_titled};
use crate::simulation::value;
use crate::words::{Line, edge, find};
use aig::{AigEdge, ReadError, Section, WriteError};
use aig_base::{Lbool, Lit, MemoryError, StreamFault, Var};
use aig_encode::EncodeError;
use std::fmt::{Debug, Display};
use std::io::Print;

/// What is asked of a value.
enum Value {
    Edge,
    EdgeMap,
    EdgeWith,
    Less,
    Literal,
    Three,
    Faults,
}

const STEPS: [(&str, Value); 7] = [
    ("edge", Value::Edge),
    ("edge_map", Value::EdgeMap),
    ("edge_with", Value::EdgeWith),
    ("less", Value::Less),
    ("literal", Value::Literal),
    ("three", Value::Three),
    ("faults", Value::Faults),
];

/// Prints what an edge's calls tell of constants.
fn print_constants<R: Print>(rt: &R, e: AigEdge) {
    print_titled(rt, "is_const", &e.is_const());
    print_titled(
        rt,
        "is_constant",
        &(e.is_constant(false), e.is_constant(true)),
    );
    print_titled(rt, "try_to_constant", &e.try_to_constant());
    if e.is_const() {
        print_titled(rt, "to_constant", &e.to_constant());
    }
}

/// Prints what an edge's calls tell.
fn print_edge<R: Print>(rt: &R, e: AigEdge) {
    print_titled(rt, "node_id", &e.node_id());
    print_titled(rt, "compl", &e.compl());
    print_titled(rt, "not_if", &(e.not_if(false), e.not_if(true)));
    print_constants(rt, e);
    if e.node_id() < 1 << 31 {
        print_titled(rt, "to_lit", &u32::from(e.to_lit()));
        print_titled(rt, "from_lit", &AigEdge::from_lit(e.to_lit()));
    }
}

/// An edge with the number and the inversion of another.
fn changed(e: AigEdge, other: AigEdge) -> AigEdge {
    let mut changed = e;
    changed.set_nodeid(other.node_id());
    changed.set_compl(other.compl());
    changed
}

/// Prints what a literal's calls tell.
fn print_literal<R: Print>(rt: &R, number: usize) {
    let Ok(number) = u32::try_from(number) else {
        return print(rt, &Refusal::NotAllowed);
    };
    let lit = Lit::from(number);
    print_titled(rt, "var", &usize::from(lit.var()));
    print_titled(rt, "polarity", &lit.polarity());
    print_titled(rt, "inverse", &u32::from(!lit));
    print_titled(rt, "made", &u32::from(Lit::new(lit.var(), lit.polarity())));
    print_titled(rt, "positive", &u32::from(lit.var().lit()));
}

/// Prints what three values' calls tell.
fn print_three<R: Print>(rt: &R, one: Lbool, other: Lbool) {
    print_titled(rt, "and", &(one & other));
    print_titled(rt, "not", &!one);
    print_titled(rt, "not_if", &(one.not_if(false), one.not_if(true)));
    print_titled(rt, "default", &Lbool::default());
}

/// The three value of the first letter of a word.
fn three(word: &str) -> Lbool {
    match word.bytes().next() {
        Some(letter) => value(letter),
        None => Lbool::NONE,
    }
}

/// Prints a refusal, and its words.
fn print_fault<R: Print, E: Debug + Display>(rt: &R, fault: &E) {
    let _ = println!(rt; "{fault:?} {fault}");
}

const READ_FAULTS: [ReadError; 15] = [
    ReadError::Memory,
    ReadError::Stream,
    ReadError::Header,
    ReadError::TooMany,
    ReadError::Syntax(Section::Inputs),
    ReadError::Syntax(Section::Latches),
    ReadError::Syntax(Section::Outputs),
    ReadError::Syntax(Section::Bads),
    ReadError::Literal(Section::Constraints),
    ReadError::Literal(Section::Justice),
    ReadError::Literal(Section::Fairness),
    ReadError::Literal(Section::Gates),
    ReadError::Delta,
    ReadError::Name,
    ReadError::Open,
];

const WRITE_FAULTS: [WriteError; 7] = [
    WriteError::Memory,
    WriteError::Stream,
    WriteError::FreeLeaf,
    WriteError::InitialEdge,
    WriteError::Name,
    WriteError::TooLarge,
    WriteError::Open,
];

const ENCODE_FAULTS: [EncodeError; 3] = [
    EncodeError::Read(ReadError::Delta),
    EncodeError::Memory,
    EncodeError::TooLarge,
];

/// Prints the refusals of readers and encoders.
fn print_read_faults<R: Print>(rt: &R) {
    for fault in READ_FAULTS {
        print_fault(rt, &fault);
    }
    for fault in ENCODE_FAULTS {
        print_fault(rt, &fault);
    }
}

/// Prints the other refusals, each with its number.
fn print_numbered_faults<R: Print>(rt: &R) {
    for fault in WRITE_FAULTS {
        print_fault(rt, &fault);
        print(rt, &(fault as u8));
    }
    print_fault(rt, &MemoryError::Memory);
    print(rt, &(MemoryError::Memory as u8));
    print_fault(rt, &StreamFault::Failed);
    print(rt, &(StreamFault::Failed as u8));
}

/// Takes a step on two edges.
fn take_pair<R: Print>(rt: &R, step: &Value, one: AigEdge, other: AigEdge) {
    match step {
        Value::Less => print(rt, &(one < other, one == other)),
        _ => print(rt, &changed(one, other)),
    }
}

/// Takes a step of the table.
fn take_value<R: Print>(rt: &R, step: &Value, line: Line<'_>) {
    match (step, line.numbers, line.words) {
        (Value::Faults, [], _) => {
            print_read_faults(rt);
            print_numbered_faults(rt);
        }
        (Value::Edge, [e], _) => print_edge(rt, edge(*e)),
        (Value::EdgeMap, [e], _) => print(rt, &edge(*e).map(&|id| id ^ 5)),
        (Value::Literal, [number], _) => print_literal(rt, *number),
        (Value::Three, _, [one, other]) => print_three(rt, three(one), three(other)),
        (_, [one, other], _) => take_pair(rt, step, edge(*one), edge(*other)),
        _ => print(rt, &Refusal::NotAllowed),
    }
}

/// Takes a step of this file, if it is one.
pub(crate) fn take<R: Print>(rt: &R, line: Line<'_>) -> bool {
    match find(&STEPS, line.name) {
        Some(step) => {
            take_value(rt, step, line);
            true
        }
        None => false,
    }
}

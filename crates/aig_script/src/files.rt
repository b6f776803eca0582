//! Steps that read files, and make clauses of them.

ghost use Rattle.std.specs.Prelude.{◌<◌, ◌≤◌, ◌^◌, IfOk};

use crate::script::{Refusal, Script};
use crate::show::{call, print, print_circuit, print_clauses, print_dag, print_title};
use crate::words::{Line, find};
use aig::{Aig, ReadError};
use aig_base::Parts;
use aig_encode::{Query, encode, query};
use std::alloc::Global;
use std::fs;
use std::io::Print;
use std::path::Path;
use std::rt::Files;

/// What a file is read for.
enum Reading {
    Circuit,
    CircuitOfPath,
    Encode,
    EncodeRaw,
    Query,
    QueryRaw,
}

const STEPS: [(&str, Reading); 6] = [
    ("read", Reading::Circuit),
    ("from_file", Reading::CircuitOfPath),
    ("encode", Reading::Encode),
    ("encode_raw", Reading::EncodeRaw),
    ("query", Reading::Query),
    ("query_raw", Reading::QueryRaw),
];

/// The limits on nodes are from 1 to this.
const MOST: usize = 1 << 31;

/// A limit on nodes.
fn limit_of(number: usize) -> Result<usize, Refusal>
    ensures some { IfOk result (λ limit. 1 ≤ limit) }
    ensures few { IfOk result (λ limit. limit ≤ 2 ^ 31) }
{
    if number < 1 || number > MOST {
        return Err(Refusal::NotAllowed);
    }
    Ok(number)
}

/// The bytes of a file, of which so many come at a time, and which fail after some where a number says so.
pub(crate) fn source<R: Files + AllocGlobal>(
    rt: &R,
    path: &str,
    piece: usize,
    fails: &[usize],
) -> Result<Parts, Refusal> {
    match fs::read(rt, path) {
        Ok(bytes) if piece > 0 => Ok(Parts::new(bytes, piece, fails.first().copied())),
        _ => Err(Refusal::NotAllowed),
    }
}

/// Takes a circuit in place of the one before, or prints why there is none.
fn take_circuit<R: Print>(rt: &R, script: &mut Script, made: Result<Aig, ReadError>) {
    match made {
        Ok(circuit) => script.circuit = circuit,
        Err(error) => print(rt, &error),
    }
}

/// Reads a file.
fn read<R: Print + Files + AllocGlobal>(
    rt: &R,
    script: &mut Script,
    path: &str,
    numbers: &[usize],
) -> Result<(), Refusal> {
    let [piece, limit, fails @ ..] = numbers else {
        return Err(Refusal::NotAllowed);
    };
    let limit = limit_of(*limit)?;
    let mut source = source(rt, path, *piece, fails)?;
    let made = call!(rt, Aig::from_aiger(script.alloc, &mut source, limit));
    take_circuit(rt, script, made);
    Ok(())
}

/// Reads the file of a path, with a limit on nodes.
fn from_file<R: Print + Files>(
    rt: &R,
    script: &mut Script,
    path: &str,
    numbers: &[usize],
) -> Result<(), Refusal> {
    let [limit] = numbers else {
        return Err(Refusal::NotAllowed);
    };
    let limit = limit_of(*limit)?;
    let path = Path::new(path);
    let made = call!(rt, Aig::from_file(rt, script.alloc, path, limit));
    take_circuit(rt, script, made);
    Ok(())
}

/// Takes the circuit of a file with further steps, and keeps the file's own.
fn encode_file<R: Print + Files + AllocGlobal>(
    rt: &R,
    script: &mut Script,
    path: &str,
    numbers: &[usize],
    optimize: bool,
) -> Result<(), Refusal> {
    let [k, piece, limit, fails @ ..] = numbers else {
        return Err(Refusal::NotAllowed);
    };
    let limit = limit_of(*limit)?;
    let mut source = source(rt, path, *piece, fails)?;
    match call!(rt, encode(script.alloc, &mut source, limit, *k, optimize)) {
        Ok(encoded) => {
            script.kept = encoded.circuit;
            script.circuit = encoded.unrolled;
        }
        Err(error) => print(rt, &error),
    }
    Ok(())
}

/// Prints a query: the circuit with further steps, its clauses, and the further ones.
fn print_query<R: Print>(rt: &R, asked: &Query) {
    print_circuit(rt, &asked.encoded.unrolled);
    print_dag(rt, &asked.encoded.clauses);
    print_title(rt, "extra");
    print_clauses(rt, &asked.extra);
}

/// Prints the query of a source with further steps, or why there is none.
fn print_asked<R: Print>(rt: &R, alloc: Global, source: &mut Parts, k: usize, optimize: bool) {
    match call!(rt, query(alloc, source, MOST, k, optimize)) {
        Ok(asked) => print_query(rt, &asked),
        Err(error) => print(rt, &error),
    }
}

/// Prints the query of a file with further steps.
fn query_file<R: Print + Files + AllocGlobal>(
    rt: &R,
    script: &Script,
    path: &str,
    numbers: &[usize],
    optimize: bool,
) -> Result<(), Refusal> {
    let [k] = numbers else {
        return Err(Refusal::NotAllowed);
    };
    let mut source = source(rt, path, 7, &[])?;
    print_asked(rt, script.alloc, &mut source, *k, optimize);
    Ok(())
}

/// Takes a step of the table.
fn take_file<R: Print + Files + AllocGlobal>(
    rt: &R,
    script: &mut Script,
    step: &Reading,
    line: Line<'_>,
) -> Result<(), Refusal> {
    let ([path, ..], [_, numbers @ ..]) = (line.words, line.numbers) else {
        return Err(Refusal::NotAllowed);
    };
    match step {
        Reading::Circuit => read(rt, script, path, numbers),
        Reading::CircuitOfPath => from_file(rt, script, path, numbers),
        Reading::Encode => encode_file(rt, script, path, numbers, true),
        Reading::EncodeRaw => encode_file(rt, script, path, numbers, false),
        Reading::Query => query_file(rt, script, path, numbers, true),
        Reading::QueryRaw => query_file(rt, script, path, numbers, false),
    }
}

/// Takes a step of this file, if it is one.
pub(crate) fn take<R: Print + Files + AllocGlobal>(
    rt: &R,
    script: &mut Script,
    line: Line<'_>,
) -> bool {
    let Some(step) = find(&STEPS, line.name) else {
        return false;
    };
    if let Err(refusal) = take_file(rt, script, step, line) {
        print(rt, &refusal);
    }
    true
}

//! The words of a step.

ghost use Rattle.std.specs.Prelude.{All, IsTrue, IfSome};
ghost use Rattle.aig_circuit.specs.Circuit.{IsInRange};

use aig::{Aig, AigEdge};
use aig_base::MemoryError;
use std::alloc::Global;

/// The name of a step, its words, and the numbers that these spell.
#[derive(Clone, Copy)]
pub(crate) struct Line<'a> {
    pub(crate) name: &'a str,
    pub(crate) words: &'a [&'a str],
    pub(crate) numbers: &'a [usize],
}

/// The words of a line.
pub(crate) fn words(alloc: Global, line: &str) -> Result<Vec<&str>, MemoryError> {
    let mut words = Vec::new(alloc);
    for word in line.split_whitespace() {
        words.push(word)?;
    }
    Ok(words)
}

/// The number that each word spells; for one that spells none the greatest, which nothing has.
pub(crate) fn numbers(alloc: Global, words: &[&str]) -> Result<Vec<usize>, MemoryError> {
    let mut numbers = Vec::new(alloc);
    for word in words {
        numbers.push(word.parse::<usize>().unwrap_or(usize::MAX))?;
    }
    Ok(numbers)
}

/// The step of some words, if there are any.
pub(crate) fn line_of<'a>(words: &'a [&'a str], numbers: &'a [usize]) -> Option<Line<'a>> {
    match (words, numbers) {
        ([name, words @ ..], [_, numbers @ ..]) => Some(Line {
            name,
            words,
            numbers,
        }),
        _ => None,
    }
}

/// What stands beside a name in a table.
pub(crate) fn find<'a, T>(table: &'a [(&'a str, T)], name: &str) -> Option<&'a T> {
    for (other, it) in table {
        if *other == name {
            return Some(it);
        }
    }
    None
}

/// The edge of a literal.
pub(crate) fn edge(literal: usize) -> AigEdge {
    AigEdge::new(literal / 2, literal % 2 == 1)
}

/// The edge of the first of some literals, if there is one.
pub(crate) fn first_edge(literals: &[usize]) -> Option<AigEdge> {
    match literals {
        [literal, ..] => Some(edge(*literal)),
        [] => None,
    }
}

/// The edges of literals.
pub(crate) fn edges(alloc: Global, literals: &[usize]) -> Result<Vec<AigEdge>, MemoryError> {
    let mut edges = Vec::new(alloc);
    for literal in literals {
        edges.push(edge(*literal))?;
    }
    Ok(edges)
}

/// Whether there are nodes of all of these edges' numbers.
pub(crate) fn has_edges(aig: &Aig, edges: &[AigEdge]) -> bool
    ensures { IsTrue result → All (IsInRange aig.now.nodes) edges.now }
{
    edges.iter().all(|e| aig.has_edge(*e))
}

/// Whether there is a node of an edge's number, where there is an edge.
pub(crate) fn has_optional(aig: &Aig, e: Option<AigEdge>) -> bool
    ensures { IsTrue result → IfSome e (IsInRange aig.now.nodes) }
{
    match e {
        Some(e) => aig.has_edge(e),
        None => true,
    }
}

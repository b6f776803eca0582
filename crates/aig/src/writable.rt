//! Whether a circuit can be written.

ghost use Rattle.std.specs.Prelude.{◌↔◌, ◌<◌, ◌^◌, All, Any, Contains, IfErr, IsTrue, OnOk, length};
ghost use Rattle.aig_circuit.specs.Circuit.{IsCircuit};
ghost use Rattle.aig_circuit.specs.View.{names_of};
ghost use Rattle.aig_format.specs.Writable.{HasLineFeed, FitsFormat, named_nodes};
ghost use Rattle.aig.specs.Writing.{IsRefusal, IsVerdictOf};

use crate::aiger::WriteError;
use crate::graph::{Aig, MOST_NODES};
use aig_circuit::inits::are_inits_constant;
use aig_circuit::{AigEdge, AigLatch};
use std::collections::HashMap;

/// The greatest number that a file can have.
const GREATEST_NUMBER: usize = u32::MAX as usize;

/// Whether a text holds a line feed.
fn holds_line_feed(text: &str) -> bool
    ensures { IsTrue result ↔ Contains text.now 10 }
{
    text.as_bytes().contains(&b'\n')
}

/// Whether the node of this number has a name that holds a line feed.
fn has_line_feed(symbols: &HashMap<usize, String>, id: usize) -> bool
    ensures { IsTrue result ↔ HasLineFeed (names_of symbols.now.entries) id }
{
    match symbols.get(&id) {
        Some(name) => holds_line_feed(name.as_str()),
        None => false,
    }
}

/// Whether one of the nodes of these numbers has a name that holds a line feed.
fn input_has_line_feed(symbols: &HashMap<usize, String>, ids: &[usize]) -> bool
    ensures { IsTrue result ↔ Any (HasLineFeed (names_of symbols.now.entries)) ids.now }
{
    ids.iter().any(|id| has_line_feed(symbols, *id))
}

/// Whether the leaf of one of the latches has a name that holds a line feed.
fn latch_has_line_feed(symbols: &HashMap<usize, String>, latchs: &[AigLatch]) -> bool
    ensures { IsTrue result
        ↔ Any (λ latch. HasLineFeed (names_of symbols.now.entries) latch.input) latchs.now }
{
    latchs
        .iter()
        .any(|latch| has_line_feed(symbols, latch.input()))
}

/// Whether each of the counts is at most 2^32 - 1.
fn are_numbers(counts: &[usize]) -> bool
    ensures { IsTrue result ↔ All (λ n. n < 2 ^ 32) counts.now }
{
    counts.iter().all(|count| *count <= GREATEST_NUMBER)
}

/// Whether each set has at most 2^32 - 1 edges.
fn are_short(sets: &[Vec<AigEdge>]) -> bool
    ensures { IsTrue result ↔ All (λ set. length set.items < 2 ^ 32) sets.now }
{
    sets.iter().all(|set| set.len() <= GREATEST_NUMBER)
}

impl Aig {
    /// Whether the name of an input or a latch holds a line feed.
    fn names_hold_line_feed(&self) -> bool
        ensures { IsTrue result ↔ Any (HasLineFeed self.now.names) (named_nodes self.now) }
    {
        let symbols = self.symbols();
        input_has_line_feed(symbols, self.inputs()) || latch_has_line_feed(symbols, self.latchs())
    }

    /// Whether nodes and lists are within the format's numbers.
    fn is_small(&self) -> bool
        ensures small { IsTrue result ↔ FitsFormat self.now }
        ensures circuit { IsCircuit self.now }
    {
        let counts = [
            self.inputs().len(),
            self.latchs().len(),
            self.outputs().len(),
            self.bads().len(),
            self.constraints().len(),
            self.justice().len(),
            self.fairness().len(),
        ];
        if self.num_nodes() > MOST_NODES {
            return false;
        }
        if !are_numbers(&counts) {
            return false;
        }
        are_short(self.justice())
    }

    /// The first refusal that applies, if one does.
    pub(crate) fn check_writable(&self) -> Result<(), WriteError>
        ensures tells { IsVerdictOf self.now result }
        ensures own { IfErr result IsRefusal }
        ensures circuit { OnOk result (IsCircuit self.now) }
    {
        if !self.is_closed() {
            Err(WriteError::FreeLeaf)
        } else if !are_inits_constant(self.latchs()) {
            Err(WriteError::InitialEdge)
        } else if self.names_hold_line_feed() {
            Err(WriteError::Name)
        } else if !self.is_small() {
            Err(WriteError::TooLarge)
        } else {
            Ok(())
        }
    }
}

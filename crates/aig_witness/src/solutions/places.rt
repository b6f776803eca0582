//! Where the leaves of a circuit stand in the circuit unrolled.

ghost use Rattle.std.specs.Prelude.{◌≡◌, Contains, IfOk, count_by, length};
ghost use Rattle.aig_circuit.specs.Circuit.{Circuit, IsCircuit};
ghost use Rattle.aig_witness.specs.Turns.{CountsOthers, HasStep, MarksLatchLeaves};
ghost use Rattle.aig_unroll.specs.Places.{is_other_leaf, other_leaves, place_at};

use aig::Aig;
use aig_base::MemoryError;
use aig_circuit::{AigLatch, AigNode, CircuitView};
use std::alloc::Global;
use std::marker::Model;

/// A circuit, owned or borrowed.
pub trait HasLeaves {
    /// The circuit.
    ghost circuit: { Self → Circuit };

    /// The nodes.
    fn nodes(&self) -> &[AigNode]
        ensures value { result.now ≡ (circuit self.now).nodes }
        ensures circuit { IsCircuit (circuit self.now) };

    /// The numbers of the inputs.
    fn inputs(&self) -> &[usize]
        ensures value { result.now ≡ (circuit self.now).inputs }
        ensures circuit { IsCircuit (circuit self.now) };

    /// The latches.
    fn latchs(&self) -> &[AigLatch]
        ensures value { result.now ≡ (circuit self.now).latchs }
        ensures circuit { IsCircuit (circuit self.now) };
}

impl HasLeaves for Aig {
    ghost circuit = { λ c. c };

    fn nodes(&self) -> &[AigNode] {
        self.nodes()
    }

    fn inputs(&self) -> &[usize] {
        self.inputs()
    }

    fn latchs(&self) -> &[AigLatch] {
        self.latchs()
    }
}

impl<'a> HasLeaves for CircuitView<'a> {
    ghost circuit = { λ c. c };

    fn nodes(&self) -> &[AigNode] {
        self.nodes()
    }

    fn inputs(&self) -> &[usize] {
        self.inputs()
    }

    fn latchs(&self) -> &[AigLatch] {
        self.latchs()
    }
}

/// Marks the leaves of latches.
fn mark_latchs<C: HasLeaves>(alloc: Global, circuit: &C) -> Result<Vec<bool>, MemoryError>
    ensures { IfOk result (λ marks. MarksLatchLeaves (C.circuit circuit.now) marks.items) }
{
    let latchs = circuit.latchs();
    let mut marks = vec![in alloc; false; circuit.nodes().len()]?;
    for latch in latchs {
        marks[latch.input()] = true;
    }
    Ok(marks)
}

/// For each node how many leaves that are no latch's come before it, and how many there are.
fn count_others<C: HasLeaves>(
    alloc: Global,
    circuit: &C,
    marks: &[bool],
) -> Result<(Vec<usize>, usize), MemoryError>
    requires { MarksLatchLeaves (C.circuit circuit.now) marks.now }
    ensures turns { IfOk result (λ counts. CountsOthers (C.circuit circuit.now) counts.0.items) }
    ensures all { let c = C.circuit circuit.now in
        IfOk result (λ counts. counts.1 ≡ count_by (is_other_leaf c) c.nodes) }
    ensures circuit { IsCircuit (C.circuit circuit.now) }
{
    let nodes = circuit.nodes();
    let mut turns = Vec::with_capacity(alloc, nodes.len())?;
    let mut count = 0;
    for (i, node) in nodes.iter().enumerate() {
        turns.push(count)?;
        if node.is_leaf() && !marks[i] {
            count += 1;
        }
    }
    Ok((turns, count))
}

/// Where the leaves of a circuit that are no latch's stand in the circuit unrolled. It is made once, in a pass over the
/// nodes, and then tells a place at once.
#[derive(Drop)]
pub struct Places<'a, C: HasLeaves> {
    circuit: &'a C,
    turns: Vec<usize>,
    others: usize,
}

impl<'a, C: HasLeaves> Model for Places<'a, C> {
    ghost use Rattle.aig_circuit.specs.Circuit.{Circuit};

    ghost Value = { Circuit };

    ghost use Rattle.std.specs.Coded.{codes, coded_ℕ, coded_list};
    ghost use Rattle.std.specs.FinMap as finite_map;
    ghost use Rattle.std.specs.Ordering.{nat_cmp};

    ghost coded = { Prim.hlevel
        (codes, finite_map.code {R = nat_cmp} coded_ℕ (coded_list coded_ℕ)) };

    ghost view = { λ p. C.circuit p.circuit.now };

    ghost use Rattle.aig_witness.specs.Turns.{HasTurns};

    ghost invariant = { λ p. HasTurns (C.circuit p.circuit.now) p.turns.items p.others };
}

impl<'a, C: HasLeaves> Places<'a, C> {
    /// The places of a circuit's leaves. The one error is refused memory.
    pub fn new(alloc: Global, circuit: &'a C) -> Result<Self, MemoryError>
        ensures { IfOk result (λ places. places ≡ C.circuit circuit.entry.now) }
    {
        let marks = mark_latchs(alloc, circuit)?;
        let (turns, others) = count_others(alloc, circuit, &marks)?;
        Ok(Places {
            circuit,
            turns,
            others,
        })
    }

    /// The node that stands for leaf `n`, which is no latch's, at step `t` of the circuit unrolled. Requires that it has the
    /// inputs of that step.
    pub fn place(&self, unrolled: &C, t: usize, n: usize) -> usize
        requires leaf { Contains (other_leaves self.now) n }
        requires step { HasStep self.now (C.circuit unrolled.now) t }
        ensures { result ≡ place_at self.now (C.circuit unrolled.now) t n }
    {
        if t == 0 {
            return n;
        }
        let inputs = unrolled.inputs();
        let before = self.circuit.inputs().len();
        let turn = self.turns[n];
        inputs[before + (t - 1) * self.others + turn]
    }
}

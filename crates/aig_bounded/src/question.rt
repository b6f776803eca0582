//! A bounded check as one question.

ghost use Rattle.std.specs.Prelude.{◌≡◌, ◌<◌, ◌≤◌, ◌^◌, ℕ, IfOk, IsErrOf, All, length};
ghost use Rattle.aig_circuit.specs.Circuit.{Circuit, IsInRange};
ghost use Rattle.aig_circuit.specs.declared.edge.AigEdge.{AigEdge};
ghost use Rattle.aig_circuit.specs.Edges.{HasConstantInit};
ghost use Rattle.aig_circuit.specs.View.{lists_circuit};
ghost use Rattle.aig_bounded.specs.Cut.{IsCutOf, IsKeptOf, KeepsReached, marked_places, whole_question};
ghost use Rattle.aig_bounded.specs.Frames.{AreFrames, net_of};
ghost use Rattle.aig_bounded.specs.Question.{IsQuestion, question_size};

use crate::error::BoundedError;
use crate::frames::Frames;
use crate::place::Place;
use crate::steps::expanded;
use aig_base::MemoryError;
use aig_circuit::{AigEdge, CircuitLists, CircuitView, Properties};
use aig_cone::{coi_refine, fanin_logic_cone, refining_is_circuit, refining_keeps_runs};
use std::alloc::Global;
use std::collections::HashMap;

/// A bounded check as one question: a circuit without latches and with one output.
#[derive(Drop)]
pub struct BoundedCircuit {
    /// The circuit. Its one output is what is asked.
    pub circuit: CircuitLists,
    /// The places of its inputs, one for one.
    pub places: Vec<Place>,
}

/// Makes one question of a bounded check: whether some bad state is reached, within the constraints, at a step from 0 to
/// `last` on a run from an initial state.
///
/// The steps are made one after another, with the constants of the start folded in, and gates folded and shared over all
/// steps. What no bad edge and no constraint reads up to step `last` isn't made, and what the output doesn't reach is
/// dropped. Where the answer needs no search the output is often constant: false where no bad state is reached. Takes time linear
/// in the circuit, times the steps up to the first that changes nothing, at most `last + 1`, and memory for what is made and one
/// step.
///
/// # Requirements
///
/// - Each latch has a constant initial edge or none (`aig_circuit::inits::are_inits_constant`), as in every file.
/// - `1 <= limit <= 2^31`.
///
/// # Errors
///
/// - `TooLarge`: more than `limit` nodes are made. Never where the bound `question_size` is within the limit: one node, and for
///   each of the `last + 1` steps one for each node, bad edge and constraint, and one more.
/// - `Memory`: memory was refused.
pub fn bounded_question(
    alloc: Global,
    circuit: &CircuitView<'_>,
    last: usize,
    limit: usize,
) -> Result<BoundedCircuit, BoundedError>
    requires starts { All HasConstantInit circuit.now.latchs }
    requires some { 1 ≤ limit }
    requires few { limit ≤ 2 ^ 31 }
    ensures question { IfOk result (λ made. (output : AigEdge)
        × IsQuestion circuit.now last (lists_circuit made.circuit) output made.places.items) }
    ensures small { IfOk result (λ made. length made.circuit.nodes.items ≤ limit) }
    // TooLarge only where the bound of what is made passes the limit.
    ensures large { IsErrOf result BoundedError.TooLarge → limit < question_size circuit.now last }
{
    refining_is_circuit();
    refining_keeps_runs();
    let (frames, reached) = expanded(alloc, circuit, last, limit)?;
    let made = cut(alloc, frames, reached)?;
    Ok(made)
}

/// The question of the nodes that its output reaches.
fn cut(alloc: Global, frames: Frames, output: AigEdge) -> Result<BoundedCircuit, MemoryError>
    requires frames { (c : Circuit) × (t : ℕ) × AreFrames c t 0 frames }
    requires there { IsInRange frames.nodes.items output }
    requires few { length frames.nodes.items ≤ 2 ^ 31 }
    ensures { IfOk result
        (λ made. IsCutOf (net_of frames) output (lists_circuit made.circuit) made.places.items) }
{
    let places = kept_places(alloc, &frames, output)?;
    let circuit = kept_circuit(alloc, frames, output)?;
    Ok(BoundedCircuit { circuit, places })
}

/// The circuit of the nodes that the output reaches.
fn kept_circuit(alloc: Global, frames: Frames, output: AigEdge) -> Result<CircuitLists, MemoryError>
    requires frames { (c : Circuit) × (t : ℕ) × AreFrames c t 0 frames }
    requires there { IsInRange frames.nodes.items output }
    requires few { length frames.nodes.items ≤ 2 ^ 31 }
    ensures { IfOk result (λ made.
        IsKeptOf (whole_question (net_of frames) output) (lists_circuit made)) }
{
    let lists = frames.into_lists(alloc, output)?;
    let (circuit, _old_numbers) = coi_refine(alloc, &CircuitView::new(&lists))?;
    Ok(circuit)
}

/// The places of the inputs that the output reaches.
fn kept_places(alloc: Global, frames: &Frames, output: AigEdge) -> Result<Vec<Place>, MemoryError>
    requires frames { (c : Circuit) × (t : ℕ) × AreFrames c t 0 frames.now }
    requires there { IsInRange frames.now.nodes.items output }
    ensures { IfOk result (λ kept. KeepsReached (net_of frames.now) output kept.items) }
{
    let marks = fanin_logic_cone(alloc, &frames.nodes, &[output])?;
    marked_places(alloc, &marks, &frames.inputs, &frames.places)
}

/// The places of the inputs that are marked.
fn marked_places(
    alloc: Global,
    marks: &[bool],
    inputs: &[usize],
    places: &[Place],
) -> Result<Vec<Place>, MemoryError>
    requires there { All (λ n. n < length marks.now) inputs.now }
    requires count { length places.now ≡ length inputs.now }
    ensures { IfOk result (λ kept. kept.items ≡ marked_places marks.now inputs.now places.now) }
{
    let mut kept = Vec::new(alloc);
    for (i, input) in inputs.iter().enumerate() {
        if marks[*input] {
            kept.push(places[i])?;
        }
    }
    Ok(kept)
}

impl Frames {
    /// The circuit of the nodes, with one output.
    fn into_lists(self, alloc: Global, output: AigEdge) -> Result<CircuitLists, MemoryError>
        ensures { IfOk result (λ lists. lists_circuit lists ≡ whole_question (net_of self) output) }
    {
        let mut properties = Properties::new(alloc);
        properties.outputs.push(output)?;
        Ok(CircuitLists {
            nodes: self.nodes,
            inputs: self.inputs,
            latchs: Vec::new(alloc),
            properties,
            names: HashMap::new(alloc),
        })
    }
}

//! The questions as circuits.

ghost use Rattle.std.specs.Prelude.{◌≡◌, ◌<◌, ◌≤◌, IfErr, IfOk, IsErrOf, length, map, filter};
ghost use Rattle.aig_circuit.specs.Circuit.{AreNodes, Circuit, IsCircuit};
ghost use Rattle.aig_circuit.specs.View.{lists_circuit};
ghost use Rattle.aig_witness_circuits.specs.Exact.{asked_base, asked_of, asked_property, asked_reset, asked_step, asked_transition, made_in, model_leaf, question_of, with_bad};
ghost use Rattle.aig_witness_circuits.specs.Frames.{AreCircuits};
ghost use Rattle.aig_witness_circuits.specs.Questions.{AsksIf, CanShareLeaves, Holds};
ghost use Rattle.aig_witness_circuits.specs.declared.condition.Condition.TheVariants as conditions;
ghost use Rattle.aig_witness_circuits.specs.declared.error.QuestionError.TheVariants as errors;
ghost use Rattle.aig_unroll.specs.Places.{leaves_after};

use crate::claims::{push_constraints, push_good, push_moves, push_starts, refuting_edge};
use crate::condition::Condition;
use crate::error::QuestionError;
use crate::frames::{copy_circuit, own_latches};
use aig_base::MemoryError;
use aig_circuit::{AigEdge, AigNode, CircuitLists, CircuitView, Properties, false_node};
use std::alloc::Global;
use std::collections::HashMap;

/// The edge that is never true exactly where the resets fit.
fn reset(
    alloc: Global,
    nodes: &mut Vec<AigNode>,
    model: &CircuitView<'_>,
    witness: &CircuitView<'_>,
    shared: &[(usize, usize)],
) -> Result<AigEdge, MemoryError>
    requires sound { AreNodes nodes.old.items }
    requires shared { CanShareLeaves shared.now model.now witness.now }
    ensures exact { IfOk result (λ e. made_in nodes.new.items e
        ≡ asked_reset nodes.old.items (model_leaf shared.now) model.now witness.now) }
    ensures circuit { IfOk result (λ _. IsCircuit model.now × IsCircuit witness.now) }
{
    let x = copy_circuit(alloc, nodes, model, &[], &[], &[], &[])?;
    let y = copy_circuit(alloc, nodes, witness, &[], &[], shared, &x)?;
    let own = own_latches(alloc, witness, shared)?;
    let mut premises = Vec::new(alloc);
    push_starts(&mut premises, model.latchs(), &x)?;
    push_constraints(&mut premises, model, &x)?;
    push_starts(&mut premises, &own, &y)?;
    let mut conclusions = Vec::new(alloc);
    push_starts(&mut conclusions, witness.latchs(), &y)?;
    push_constraints(&mut conclusions, witness, &y)?;
    refuting_edge(alloc, nodes, &premises, &conclusions)
}

/// The edge that is never true exactly where the steps fit.
fn transition(
    alloc: Global,
    nodes: &mut Vec<AigNode>,
    model: &CircuitView<'_>,
    witness: &CircuitView<'_>,
    shared: &[(usize, usize)],
) -> Result<AigEdge, MemoryError>
    requires sound { AreNodes nodes.old.items }
    requires shared { CanShareLeaves shared.now model.now witness.now }
    ensures exact { IfOk result (λ e. made_in nodes.new.items e
        ≡ asked_transition nodes.old.items (model_leaf shared.now) model.now witness.now) }
    ensures circuit { IfOk result (λ _. IsCircuit model.now × IsCircuit witness.now) }
{
    let x = copy_circuit(alloc, nodes, model, &[], &[], &[], &[])?;
    let y = copy_circuit(alloc, nodes, witness, &[], &[], shared, &x)?;
    let next = copy_circuit(alloc, nodes, model, model.latchs(), &x, &[], &[])?;
    let z = copy_circuit(alloc, nodes, witness, witness.latchs(), &y, shared, &next)?;
    let mut premises = Vec::new(alloc);
    push_constraints(&mut premises, model, &x)?;
    push_constraints(&mut premises, model, &next)?;
    push_constraints(&mut premises, witness, &y)?;
    let mut conclusions = Vec::new(alloc);
    push_moves(&mut conclusions, witness, &y, &z)?;
    push_constraints(&mut conclusions, witness, &z)?;
    refuting_edge(alloc, nodes, &premises, &conclusions)
}

/// The edge that is never true exactly where the properties fit.
fn property(
    alloc: Global,
    nodes: &mut Vec<AigNode>,
    model: &CircuitView<'_>,
    witness: &CircuitView<'_>,
    shared: &[(usize, usize)],
) -> Result<AigEdge, MemoryError>
    requires sound { AreNodes nodes.old.items }
    requires shared { CanShareLeaves shared.now model.now witness.now }
    ensures exact { IfOk result (λ e. made_in nodes.new.items e
        ≡ asked_property nodes.old.items (model_leaf shared.now) model.now witness.now) }
    ensures circuit { IfOk result (λ _. IsCircuit model.now × IsCircuit witness.now) }
{
    let x = copy_circuit(alloc, nodes, model, &[], &[], &[], &[])?;
    let y = copy_circuit(alloc, nodes, witness, &[], &[], shared, &x)?;
    let mut premises = Vec::new(alloc);
    push_constraints(&mut premises, model, &x)?;
    push_constraints(&mut premises, witness, &y)?;
    push_good(&mut premises, witness, &y)?;
    let mut conclusions = Vec::new(alloc);
    push_good(&mut conclusions, model, &x)?;
    refuting_edge(alloc, nodes, &premises, &conclusions)
}

/// The edge that is never true exactly where initial states are good.
fn base(
    alloc: Global,
    nodes: &mut Vec<AigNode>,
    witness: &CircuitView<'_>,
) -> Result<AigEdge, MemoryError>
    requires { AreNodes nodes.old.items }
    ensures exact { IfOk result (λ e. made_in nodes.new.items e
        ≡ asked_base nodes.old.items witness.now) }
    ensures circuit { IfOk result (λ _. IsCircuit witness.now) }
{
    let y = copy_circuit(alloc, nodes, witness, &[], &[], &[], &[])?;
    let mut premises = Vec::new(alloc);
    push_starts(&mut premises, witness.latchs(), &y)?;
    push_constraints(&mut premises, witness, &y)?;
    let mut conclusions = Vec::new(alloc);
    push_good(&mut conclusions, witness, &y)?;
    refuting_edge(alloc, nodes, &premises, &conclusions)
}

/// The edge that is never true exactly where steps lead from good states to good ones.
fn step(
    alloc: Global,
    nodes: &mut Vec<AigNode>,
    witness: &CircuitView<'_>,
) -> Result<AigEdge, MemoryError>
    requires { AreNodes nodes.old.items }
    ensures exact { IfOk result (λ e. made_in nodes.new.items e
        ≡ asked_step nodes.old.items witness.now) }
    ensures circuit { IfOk result (λ _. IsCircuit witness.now) }
{
    let y = copy_circuit(alloc, nodes, witness, &[], &[], &[], &[])?;
    let z = copy_circuit(alloc, nodes, witness, witness.latchs(), &y, &[], &[])?;
    let mut premises = Vec::new(alloc);
    push_good(&mut premises, witness, &y)?;
    push_constraints(&mut premises, witness, &y)?;
    push_constraints(&mut premises, witness, &z)?;
    let mut conclusions = Vec::new(alloc);
    push_good(&mut conclusions, witness, &z)?;
    refuting_edge(alloc, nodes, &premises, &conclusions)
}

/// The edge that is never true exactly where the condition holds.
fn asking_edge(
    alloc: Global,
    nodes: &mut Vec<AigNode>,
    condition: Condition,
    model: &CircuitView<'_>,
    witness: &CircuitView<'_>,
    shared: &[(usize, usize)],
) -> Result<AigEdge, MemoryError>
    requires sound { AreNodes nodes.old.items }
    requires shared { CanShareLeaves shared.now model.now witness.now }
    ensures exact { IfOk result (λ e. made_in nodes.new.items e
        ≡ asked_of condition nodes.old.items (model_leaf shared.now) model.now witness.now) }
    ensures circuit { IfOk result (λ _. AreCircuits condition model.now witness.now) }
{
    match condition {
        Condition::Reset => reset(alloc, nodes, model, witness, shared),
        Condition::Transition => transition(alloc, nodes, model, witness, shared),
        Condition::Property => property(alloc, nodes, model, witness, shared),
        Condition::Base => base(alloc, nodes, witness),
        Condition::Step => step(alloc, nodes, witness),
    }
}

/// The numbers of the leaves.
fn leaves(alloc: Global, nodes: &[AigNode]) -> Result<Vec<usize>, MemoryError>
    ensures { IfOk result (λ leaves. leaves.items ≡ leaves_after 0 nodes.now) }
{
    let mut leaves = Vec::new(alloc);
    for node in nodes {
        if node.is_leaf() {
            leaves.push(node.node_id())?;
        }
    }
    Ok(leaves)
}

/// The circuit of these nodes, whose leaves are inputs, with one bad edge.
fn with_bad(alloc: Global, nodes: Vec<AigNode>, bad: AigEdge) -> Result<CircuitLists, MemoryError>
    ensures { IfOk result (λ lists. lists_circuit lists ≡ with_bad (made_in nodes.items bad)) }
{
    let inputs = leaves(alloc, &nodes)?;
    let mut properties = Properties::new(alloc);
    properties.bads.push(bad)?;
    Ok(CircuitLists {
        nodes,
        inputs,
        latchs: Vec::new(alloc),
        properties,
        names: HashMap::new(alloc),
    })
}

/// The question for a condition, of any size.
fn whole_question(
    alloc: Global,
    condition: Condition,
    model: &CircuitView<'_>,
    witness: &CircuitView<'_>,
    shared: &[(usize, usize)],
) -> Result<CircuitLists, MemoryError>
    requires { CanShareLeaves shared.now model.now witness.now }
    ensures exact { IfOk result (λ lists. lists_circuit lists
        ≡ question_of condition (model_leaf shared.now) model.now witness.now) }
    ensures circuit { IfOk result (λ _. AreCircuits condition model.now witness.now) }
{
    let mut nodes = Vec::new(alloc);
    nodes.push(false_node())?;
    let bad = asking_edge(alloc, &mut nodes, condition, model, witness, shared)?;
    with_bad(alloc, nodes, bad)
}

/// The question for a condition that a witness circuit meets as a certificate of a model: a circuit of gates over inputs, with one
/// bad edge, which no values of the inputs make true exactly where the condition holds. Each pair of `shared` has a leaf of
/// the model and the one of the witness circuit that stands for it, and no leaf of the witness circuit stands in two. In the
/// question a shared leaf is the model's, and where a step is asked for, a latch's leaf after it is its next edge before it.
///
/// # Errors
///
/// - `Memory`: memory was refused.
/// - `TooLarge`: the question has more than `limit` nodes.
pub fn question(
    alloc: Global,
    limit: usize,
    condition: Condition,
    model: &CircuitView<'_>,
    witness: &CircuitView<'_>,
    shared: &[(usize, usize)],
) -> Result<CircuitLists, QuestionError>
    requires { CanShareLeaves shared.now model.now witness.now }
    ensures asks { IfOk result (λ lists.
        AsksIf (Holds condition shared.now model.now witness.now) (lists_circuit lists)) }
    // And it is this one, node by node.
    ensures exact { IfOk result (λ lists. lists_circuit lists
        ≡ question_of condition (model_leaf shared.now) model.now witness.now) }
    ensures few { IfOk result (λ lists. length (lists_circuit lists).nodes ≤ limit) }
    ensures large { IsErrOf result QuestionError.TooLarge
        → let q = question_of condition (model_leaf shared.now) model.now witness.now in
        AsksIf (Holds condition shared.now model.now witness.now) q × (limit < length q.nodes) }
{
    let question = whole_question(alloc, condition, model, witness, shared)?;
    if question.nodes.len() > limit {
        return Err(QuestionError::TooLarge);
    }
    Ok(question)
}

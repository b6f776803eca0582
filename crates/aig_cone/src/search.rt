//! The search for what nodes reach over time.

ghost use Rattle.std.specs.Prelude.{◌≡◌, ◌<◌, ◌↔◌, ℕ, None, Some, All, Contains, IfOk, OnOk, length, slice_index_or};
ghost use Rattle.aig_circuit.specs.Circuit.{AreNodes, IsCircuit};
ghost use Rattle.aig_circuit.specs.Reach.{DependsOn, IsInCone, IsFanin, IsReached};
ghost use Rattle.aig_circuit.specs.Marks.{IsMarked};
ghost use Rattle.aig_cone.specs.Marks.{AreNextStates, Visits};

use aig_base::MemoryError;
use aig_circuit::{AigNode, AigNodeType, CircuitView};
use std::alloc::Global;

/// For each node a mark that says whether it is in the cone of the roots.
pub(crate) fn cone_marks(
    alloc: Global,
    circuit: &CircuitView<'_>,
    roots: &[usize],
) -> Result<Vec<bool>, MemoryError>
    requires there { All (λ n. n < length circuit.now.nodes) roots.now }
    ensures { IfOk result (λ marks.
        (n : ℕ) → IsMarked marks.items n ↔ IsInCone circuit.now roots.now n) }
{
    let next_states = next_states(alloc, circuit)?;
    let mut marks = vec![in alloc; false; circuit.nodes().len()]?;
    mark_cone(alloc, &mut marks, circuit, &next_states, roots)?;
    Ok(marks)
}

/// Marks exactly the cone of the roots.
fn mark_cone(
    alloc: Global,
    marks: &mut [bool],
    circuit: &CircuitView<'_>,
    next_states: &[Option<usize>],
    roots: &[usize],
) -> Result<(), MemoryError>
    requires circuit { IsCircuit circuit.now }
    requires table { AreNextStates circuit.now next_states.now }
    requires there { All (λ n. n < length circuit.now.nodes) roots.now }
    requires lengths { length marks.old ≡ length circuit.now.nodes }
    requires unmarked { (n : ℕ) → ¬ IsMarked marks.old n }
    ensures { OnOk result ((n : ℕ) → IsMarked marks.new n ↔ IsInCone circuit.now roots.now n) }
{
    let mut stack = Vec::new(alloc);
    visit(marks, &mut stack, 0)?;
    visit_all(marks, &mut stack, roots)?;
    follow(marks, &mut stack, circuit, next_states)
}

/// For each node the node of its next edge, if it is a latch's leaf.
fn next_states(alloc: Global, circuit: &CircuitView<'_>) -> Result<Vec<Option<usize>>, MemoryError>
    ensures { IfOk result (λ table. AreNextStates circuit.now table.items) }
{
    let mut table = vec![in alloc; None; circuit.nodes().len()]?;
    for latch in circuit.latchs() {
        table[latch.input()] = Some(latch.next().node_id());
    }
    Ok(table)
}

/// Marks a node and puts it on the stack, unless it was marked.
fn visit(marks: &mut [bool], stack: &mut Vec<usize>, id: usize) -> Result<(), MemoryError>
    requires { id < length marks.old }
    ensures { OnOk result (Visits marks.old marks.new stack.old.items stack.new.items
        (λ n. n ≡ id)) }
{
    if !marks[id] {
        marks[id] = true;
        stack.push(id)?;
    }
    Ok(())
}

/// Visits each of the nodes.
fn visit_all(marks: &mut [bool], stack: &mut Vec<usize>, ids: &[usize]) -> Result<(), MemoryError>
    requires { All (λ n. n < length marks.old) ids.now }
    ensures { OnOk result (Visits marks.old marks.new stack.old.items stack.new.items
        (Contains ids.now)) }
{
    for id in ids {
        visit(marks, stack, *id)?;
    }
    Ok(())
}

/// Visits the operands of a gate.
fn visit_operands(
    marks: &mut [bool],
    stack: &mut Vec<usize>,
    nodes: &[AigNode],
    id: usize,
) -> Result<(), MemoryError>
    requires sound { AreNodes nodes.now }
    requires lengths { length marks.old ≡ length nodes.now }
    requires there { id < length nodes.now }
    ensures { OnOk result (Visits marks.old marks.new stack.old.items stack.new.items
        (IsFanin nodes.now id)) }
{
    if let AigNodeType::And(fanin0, fanin1) = *nodes[id].typ() {
        visit(marks, stack, fanin0.node_id())?;
        visit(marks, stack, fanin1.node_id())?;
    }
    Ok(())
}

/// Visits the node of the next edge of a latch's leaf.
fn visit_next(
    marks: &mut [bool],
    stack: &mut Vec<usize>,
    next_states: &[Option<usize>],
    id: usize,
) -> Result<(), MemoryError>
    requires there { id < length next_states.now }
    requires within { (m : ℕ) → slice_index_or next_states.now id None ≡ Some m
        → m < length marks.old }
    ensures { OnOk result (Visits marks.old marks.new stack.old.items stack.new.items
        (λ m. slice_index_or next_states.now id None ≡ Some m)) }
{
    if let Some(next) = next_states[id] {
        visit(marks, stack, next)?;
    }
    Ok(())
}

/// Visits what comes before a node.
fn visit_before(
    marks: &mut [bool],
    stack: &mut Vec<usize>,
    circuit: &CircuitView<'_>,
    next_states: &[Option<usize>],
    id: usize,
) -> Result<(), MemoryError>
    requires circuit { IsCircuit circuit.now }
    requires table { AreNextStates circuit.now next_states.now }
    requires lengths { length marks.old ≡ length circuit.now.nodes }
    requires there { id < length circuit.now.nodes }
    ensures { OnOk result (Visits marks.old marks.new stack.old.items stack.new.items
        (DependsOn circuit.now id)) }
{
    visit_operands(marks, stack, circuit.nodes(), id)?;
    visit_next(marks, stack, next_states, id)
}

/// Visits all that comes before what is on the stack, until nothing is on it.
fn follow(
    marks: &mut [bool],
    stack: &mut Vec<usize>,
    circuit: &CircuitView<'_>,
    next_states: &[Option<usize>],
) -> Result<(), MemoryError>
    requires circuit { IsCircuit circuit.now }
    requires table { AreNextStates circuit.now next_states.now }
    requires lengths { length marks.old ≡ length circuit.now.nodes }
    requires stacked { (n : ℕ) → IsMarked marks.old n ↔ Contains stack.old.items n }
    ensures { OnOk result ((n : ℕ) →
        IsMarked marks.new n ↔ IsReached (DependsOn circuit.now) stack.old.items n) }
{
    while let Some(id) = stack.pop() {
        visit_before(marks, stack, circuit, next_states, id)?;
    }
    Ok(())
}

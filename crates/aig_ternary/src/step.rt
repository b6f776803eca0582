//! One step in three values: what each node has, and the state that follows.

ghost use Rattle.std.specs.Prelude.{◌≡◌, ◌+◌, ◌<◌, ◌≤◌, ◌++◌, ℕ, All, length, map, replicate, slice_index_or, vec_capacity, vec_len};
ghost use Rattle.aig_base.specs.declared.logic.three.Lbool.TheVariants.{FALSE, NONE};
ghost use Rattle.aig_circuit.specs.Circuit.{AreNodes, IsInRange, latch_leaves};
ghost use Rattle.aig_ternary.specs.Step.{simulation_at, value_by, with_given};
ghost use Rattle.aig_ternary.specs.Ternary.{given_values, stepped, stepped_all, three_node_value, three_values, values_in};

use aig_base::Lbool;
use aig_circuit::{AigEdge, AigLatch, AigNode, AigNodeType, CircuitView};

/// The value of an edge, by the values of nodes.
pub(crate) fn edge_value(values: &[Lbool], e: AigEdge) -> Lbool
    requires { e.node_id < length values.now }
    ensures { result ≡ value_by values.now e }
{
    values[e.node_id()].not_if(e.compl())
}

/// Writes the given values of inputs at their leaves.
fn write_inputs(values: &mut [Lbool], inputs: &[usize], given: &[Lbool])
    requires leaves { All (λ n. n < length values.old) inputs.now }
    requires given { length given.now ≡ length inputs.now }
    ensures { values.new ≡ with_given values.old inputs.now given.now }
{
    for (i, id) in inputs.iter().enumerate() {
        values[*id] = given[i];
    }
}

/// Writes the values of a state at the latches' leaves.
fn write_state(values: &mut [Lbool], latchs: &[AigLatch], state: &[Lbool])
    requires leaves { All (λ n. n < length values.old) (latch_leaves latchs.now) }
    requires state { length state.now ≡ length latchs.now }
    ensures { values.new ≡ with_given values.old (latch_leaves latchs.now) state.now }
{
    for (i, latch) in latchs.iter().enumerate() {
        values[latch.input()] = state[i];
    }
}

/// Values all nodes in rising number, where what stands at leaves is their values.
fn value_nodes(nodes: &[AigNode], values: &mut [Lbool])
    requires sound { AreNodes nodes.now }
    requires lengths { length values.old ≡ length nodes.now }
    ensures { (n : ℕ) → n < length nodes.now → slice_index_or values.new n FALSE
        ≡ three_node_value nodes.now (λ leaf. slice_index_or values.old leaf NONE) n }
{
    for id in 0..nodes.len() {
        match *nodes[id].typ() {
            AigNodeType::False => values[id] = Lbool::FALSE,
            AigNodeType::Leaf => {}
            AigNodeType::And(fanin0, fanin1) => {
                values[id] = edge_value(values, fanin0) & edge_value(values, fanin1);
            }
        }
    }
}

/// Values all nodes, which are unknown before, from the values of inputs and of the state.
pub(crate) fn value_circuit(
    circuit: &CircuitView<'_>,
    inputs: &[Lbool],
    state: &[Lbool],
    values: &mut [Lbool],
)
    requires inputs { length inputs.now ≡ length circuit.now.inputs }
    requires state { length state.now ≡ length circuit.now.latchs }
    requires unknown { values.old ≡ replicate (length circuit.now.nodes) NONE }
    ensures { values.new
        ≡ three_values circuit.now (given_values circuit.now inputs.now state.now) }
{
    write_inputs(values, circuit.inputs(), inputs);
    write_state(values, circuit.latchs(), state);
    value_nodes(circuit.nodes(), values);
}

/// Writes over the state the values of the next edges.
fn move_state(latchs: &[AigLatch], values: &[Lbool], state: &mut [Lbool])
    requires edges { All (λ latch. latch.next.node_id < length values.now) latchs.now }
    requires state { length state.old ≡ length latchs.now }
    ensures { state.new ≡ map (λ latch. value_by values.now latch.next) latchs.now }
{
    for (i, latch) in latchs.iter().enumerate() {
        state[i] = edge_value(values, latch.next());
    }
}

/// Values one step in place, and moves the state.
pub(crate) fn step(
    circuit: &CircuitView<'_>,
    inputs: &[Lbool],
    state: &mut [Lbool],
    values: &mut [Lbool],
)
    requires inputs { length inputs.now ≡ length circuit.now.inputs }
    requires state { length state.old ≡ length circuit.now.latchs }
    requires values { length values.old ≡ length circuit.now.nodes }
    ensures { simulation_at circuit.now state.new values.new
        ≡ stepped (simulation_at circuit.now state.old values.old) inputs.now }
{
    values.fill(Lbool::NONE);
    value_circuit(circuit, inputs, state, values);
    move_state(circuit.latchs(), values, state);
}

/// Values steps in place, one after another, and appends the value of `e` in each. There is room for them.
pub(crate) fn steps(
    circuit: &CircuitView<'_>,
    inputs: &[Vec<Lbool>],
    e: AigEdge,
    state: &mut [Lbool],
    values: &mut [Lbool],
    answers: &mut Vec<Lbool>,
)
    requires inputs { All (λ list. length list.items ≡ length circuit.now.inputs) inputs.now }
    requires edge { IsInRange circuit.now.nodes e }
    requires state { length state.old ≡ length circuit.now.latchs }
    requires values { length values.old ≡ length circuit.now.nodes }
    requires room { vec_len answers.old + length inputs.now ≤ vec_capacity answers.old }
    ensures moved { let from = simulation_at circuit.now state.old values.old in
        simulation_at circuit.now state.new values.new
        ≡ stepped_all from (map (λ list. list.items) inputs.now) }
    ensures answered { let from = simulation_at circuit.now state.old values.old in
        answers.new.items
        ≡ answers.old.items ++ values_in e from (map (λ list. list.items) inputs.now) }
{
    for given in inputs {
        step(circuit, given, state, values);
        answers.push_reserved(edge_value(values, e));
    }
}

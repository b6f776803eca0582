//! Further steps of a circuit.

ghost use Rattle.std.specs.Prelude.{◌≡◌, ◌+◌, ◌-◌, ◌*◌, ◌≤◌, ◌↔◌, IfOk, IsTrue, OnErr, OnOk, length, take};
ghost use Rattle.aig_circuit.specs.Build.{Grows};
ghost use Rattle.aig_circuit.specs.Circuit.{BeginsWith, IsCircuit};
ghost use Rattle.aig_circuit.specs.View.{lists_circuit};
ghost use Rattle.aig_unroll.specs.Step.{IsPrepared, IsUnrolled};
ghost use Rattle.aig_unroll.specs.Unroll.{UnrollsBySteps, UnrollsOnce, UnrollsTo};

use crate::entries::{append_sets, append_step};
use crate::nodes::copy_step;
use aig_base::MemoryError;
use aig_circuit::{AigEdge, CircuitLists, CircuitView};

/// Returns a table with one edge for each node of the circuit, in which `unroll` writes the images of nodes. The one error
/// is refused memory.
pub fn step_table(circuit: &CircuitView<'_>) -> Result<Vec<AigEdge>, MemoryError>
    ensures count { IfOk result (λ images. length images.items ≡ length circuit.now.nodes) }
    ensures circuit { IsCircuit circuit.now }
{
    Ok(vec![in circuit.allocator(); AigEdge::constant(false); circuit.nodes().len()]?)
}

/// Adds the nodes, the inputs and the justice sets of one step more, and makes room for its other entries. A refused one
/// leaves the nodes and the inputs that it added.
fn add_nodes_and_reserve(
    lists: &mut CircuitLists,
    from: &CircuitView<'_>,
    images: &mut [AigEdge],
) -> Result<(), MemoryError>
    requires circuit { IsCircuit (lists_circuit lists.old) }
    requires begins { BeginsWith (lists_circuit lists.old) from.now }
    requires table { length images.old ≡ length from.now.nodes }
    ensures nodes { Grows lists.old.nodes.items lists.new.nodes.items }
    ensures inputs { take (length lists.old.inputs.items) lists.new.inputs.items
        ≡ lists.old.inputs.items }
    ensures ok { OnOk result (IsPrepared from.now lists.old lists.new images.new) }
    ensures err { OnErr result
        (lists_circuit lists.new
        ≡ record (lists_circuit lists.old)
        { nodes = lists.new.nodes.items; inputs = lists.new.inputs.items }) }
{
    copy_step(
        &mut lists.nodes,
        &mut lists.inputs,
        &lists.latchs,
        from,
        images,
    )?;
    lists.properties.reserve(from.properties())?;
    append_sets(&mut lists.properties.justice, from.justice(), images)
}

/// Adds one step of the circuit `from` to the circuit of `lists`, in place (crate aig, `unroll`).
///
/// A latch's leaf has in the new step the value of the latch's present next edge. Every other leaf becomes a new leaf
/// that is an input, in rising number, and each gate is rebuilt by `aig_build::new_and_node`. Then each next edge becomes the
/// image of the next edge in `from`, and to each property list the image of each entry of `from` is appended, to justice
/// a set for each set. Initial edges, names, latch leaves, old inputs and old entries stay. Takes time linear in `from`.
///
/// `images` is a table with one entry for each node of `from`, as `step_table` makes it. What it holds at entry doesn't
/// matter. Requires that `lists` begins with `from`. The one error is refused memory, and after it the circuit is as it
/// was.
pub fn unroll(
    lists: &mut CircuitLists,
    from: &CircuitView<'_>,
    images: &mut [AigEdge],
) -> Result<(), MemoryError>
    requires circuit { IsCircuit (lists_circuit lists.old) }
    requires begins { BeginsWith (lists_circuit lists.old) from.now }
    requires table { length images.old ≡ length from.now.nodes }
    ensures circuit { OnOk result (IsCircuit (lists_circuit lists.new)) }
    ensures unrolls { OnOk result
        (UnrollsOnce from.now (lists_circuit lists.old) (lists_circuit lists.new)) }
    ensures err { OnErr result (lists_circuit lists.new ≡ lists_circuit lists.old) }
{
    let nodes = lists.nodes.len();
    let inputs = lists.inputs.len();
    match add_nodes_and_reserve(lists, from, images) {
        Ok(()) => {
            append_step(lists, from, images);
            Ok(())
        }
        Err(error) => {
            lists.nodes.truncate(nodes);
            lists.inputs.truncate(inputs);
            Err(error)
        }
    }
}

/// Returns the circuit with `k` steps more of itself: a copy to which `unroll` adds one step after another (crate aig,
/// `unroll_to`). The one error is refused memory.
pub fn unroll_to(circuit: &CircuitView<'_>, k: usize) -> Result<CircuitLists, MemoryError>
    ensures circuit { IfOk result (λ lists. IsCircuit (lists_circuit lists)) }
    ensures steps { IfOk result (λ lists. UnrollsBySteps circuit.now k (lists_circuit lists)) }
    ensures unrolls { IfOk result (λ lists. UnrollsTo circuit.now k (lists_circuit lists)) }
    ensures none { IfOk result (λ lists. k ≡ 0 → lists_circuit lists ≡ circuit.now) }
{
    let mut lists = circuit.to_lists()?;
    add_steps(&mut lists, circuit, k)?;
    Ok(lists)
}

/// Adds `k` steps of the circuit to its copy in `lists`. A refused one leaves the steps that it added.
fn add_steps(
    lists: &mut CircuitLists,
    circuit: &CircuitView<'_>,
    k: usize,
) -> Result<(), MemoryError>
    requires { lists_circuit lists.old ≡ circuit.now }
    ensures { OnOk result (IsUnrolled circuit.now k (lists_circuit lists.new)) }
{
    let mut images = step_table(circuit)?;
    for _step in 0..k {
        unroll(lists, circuit, &mut images)?;
    }
    Ok(())
}

/// Returns whether a circuit of so many nodes and latches has, with `k` steps more, at most `limit` nodes by the bound that
/// `unroll_to` keeps. Exact for every `k` and `limit`.
pub fn is_size_within(nodes: usize, latchs: usize, k: usize, limit: usize) -> bool
    ensures { IsTrue result ↔ (nodes + k * (nodes - 1 - latchs) ≤ limit) }
{
    let added = nodes.saturating_sub(1).saturating_sub(latchs);
    nodes <= limit && (added == 0 || k <= (limit - nodes) / added)
}

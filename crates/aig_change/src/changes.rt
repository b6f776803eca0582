//! Circuits that are made by a change.

ghost use Rattle.std.specs.Prelude.{◌≡◌, IfOk, IsOk, OnErr, All};
ghost use Rattle.aig_circuit.specs.Circuit.{IsCircuit};
ghost use Rattle.aig_circuit.specs.Edges.{HasConstantInit};
ghost use Rattle.aig_circuit.specs.View.{lists_circuit};
ghost use Rattle.aig_change.specs.Merge.{merged};
ghost use Rattle.aig_change.specs.Changes.{CompressesBads, ConstrainsInits, FoldsConstraints};

use crate::append::{self, After};
use crate::inits::{constrain_starts, make_plain};
use crate::joining::{inverses, join_first};
use aig_base::MemoryError;
use aig_build::{new_and_node, new_ands_node, new_leaf_node};
use aig_circuit::inits::are_inits_constant;
use aig_circuit::{AigEdge, AigLatch, CircuitLists, CircuitView};
use std::mem;

/// Appends the nodes of the other circuit but 0, and all its lists: its number `x > 0` becomes `x + num_nodes - 1`. No
/// name of the other comes along (crate aig, `merge`). All growths are reserved before the first change, so that after an
/// `Err`, which is refused memory, the circuit is as it was.
pub fn merge(first: &mut CircuitLists, other: &CircuitView<'_>) -> Result<(), MemoryError>
    requires { IsCircuit (lists_circuit first.old) }
    ensures merged { IfOk result
        (λ _. lists_circuit first.new ≡ merged (lists_circuit first.old) other.now) }
    ensures err { OnErr result (lists_circuit first.new ≡ lists_circuit first.old) }
{
    let numbers = After {
        count: first.nodes.len(),
        size: other.nodes().len(),
    };
    append::reserve(first, other)?;
    append::sets(&mut first.properties.justice, &numbers, other.justice())?;
    append::nodes(&mut first.nodes, other.nodes());
    append::inputs(&mut first.inputs, &numbers, other.inputs());
    append::latchs(&mut first.latchs, &numbers, other.latchs());
    append::properties(&mut first.properties, &numbers, other);
    Ok(())
}

/// Returns the circuit with its constraints joined to the first bad and the first output edge, and none left (crate aig,
/// `aig_move`). A latch is added that is true in an initial state and stays so while all constraints hold. The one error is
/// refused memory.
pub fn aig_move(circuit: &CircuitView<'_>) -> Result<CircuitLists, MemoryError>
    ensures circuit { IfOk result (λ lists. IsCircuit (lists_circuit lists)) }
    ensures moves { IfOk result (λ lists. FoldsConstraints circuit.now (lists_circuit lists)) }
{
    let mut lists = circuit.to_lists()?;
    fold_constraints(&mut lists, circuit.constraints())?;
    Ok(lists)
}

/// Joins the constraints, which are those of the lists, to the first bad and the first output edge, and leaves none. After
/// refused memory part of it may be done.
fn fold_constraints(lists: &mut CircuitLists, constraints: &[AigEdge]) -> Result<(), MemoryError>
    requires circuit { IsCircuit (lists_circuit lists.old) }
    requires constraints { constraints.now ≡ (lists_circuit lists.old).properties.constraints }
    ensures { IfOk result (λ _. IsCircuit (lists_circuit lists.new)
        × FoldsConstraints (lists_circuit lists.old) (lists_circuit lists.new)) }
{
    let leaf = new_leaf_node(&mut lists.nodes)?;
    let constraint = new_ands_node(&mut lists.nodes, constraints)?;
    let next = new_and_node(&mut lists.nodes, AigEdge::from(leaf), constraint)?;
    lists
        .latchs
        .push(AigLatch::new(leaf, next, Some(AigEdge::constant(true))))?;
    join_first(&mut lists.nodes, &mut lists.properties.bads, next)?;
    join_first(&mut lists.nodes, &mut lists.properties.outputs, next)?;
    lists.properties.constraints.clear();
    Ok(())
}

/// Makes one bad edge of all, their or, and returns the old ones in order (crate aig, `compress_property`). After an
/// `Err`, which is refused memory, the circuit is as it was.
pub fn compress_property(lists: &mut CircuitLists) -> Result<Vec<AigEdge>, MemoryError>
    requires { IsCircuit (lists_circuit lists.old) }
    ensures circuit { IsCircuit (lists_circuit lists.new) }
    ensures compresses { IfOk result
        (λ _. CompressesBads (lists_circuit lists.old) (lists_circuit lists.new)) }
    ensures old { IfOk result (λ bads. bads.items ≡ (lists_circuit lists.old).properties.bads) }
    ensures err { OnErr result (lists_circuit lists.new ≡ lists_circuit lists.old) }
{
    let alloc = *lists.nodes.allocator();
    let inverted = inverses(alloc, &lists.properties.bads)?;
    let mut bads = vec![in alloc; AigEdge::constant(false); 1]?;
    bads[0] = !new_ands_node(&mut lists.nodes, &inverted)?;
    Ok(mem::replace(&mut lists.properties.bads, bads))
}

/// Replaces initial edges that aren't constant by constraints, with a latch more that is true in an initial state and false from then
/// on (crate aig, `gate_init_to_constraint`). Where every initial edge is constant or none, nothing changes. After an
/// `Err`, which is refused memory, the circuit is as it was.
pub fn gate_init_to_constraint(lists: &mut CircuitLists) -> Result<(), MemoryError>
    requires { IsCircuit (lists_circuit lists.old) }
    ensures circuit { IsCircuit (lists_circuit lists.new) }
    ensures starts { IfOk result
        (λ _. ConstrainsInits (lists_circuit lists.old) (lists_circuit lists.new)) }
    // Where there is nothing to change no memory is taken.
    ensures plain { All HasConstantInit (lists_circuit lists.old).latchs → IsOk result }
    ensures err { OnErr result (lists_circuit lists.new ≡ lists_circuit lists.old) }
{
    if are_inits_constant(&lists.latchs) {
        return Ok(());
    }
    lists.latchs.reserve(1)?;
    let leaf = constrain_starts(
        &mut lists.nodes,
        &mut lists.properties.constraints,
        &lists.latchs,
    )?;
    make_plain(&mut lists.latchs);
    lists.latchs.push_reserved(AigLatch::new(
        leaf,
        AigEdge::constant(false),
        Some(AigEdge::constant(true)),
    ));
    Ok(())
}

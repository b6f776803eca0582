//! Gates: the connectives of edges.

ghost use Rattle.std.specs.Prelude.{◌≡◌, ◌≤◌, ◌<◌, ◌+◌, ◌^◌, ◌∷◌, [], All, IfErr, IfOk, OnErr, length, map};
ghost use Rattle.aig_circuit.specs.Circuit.{IsInRange};
ghost use Rattle.aig_giving.specs.Edges.{edge_of};
ghost use Rattle.aig_handles.specs.Connectives.{Joins, JoinsAll, JoinsAllOr, JoinsOr, NeedsMemory, gates};
ghost use Rattle.aig_handles.specs.Handles.{OnHeld, held_in};

use crate::checks::{MOST_NODES, have_edges};
use crate::status::{FULL, RANGE};
use aig::{Aig, AigEdge};
use aig_base::MemoryError;
use aig_giving::{DONE, EMPTY, MEMORY, edge_of, edges_of, literal_of};
use aig_held::{Handle, Held};
use std::alloc::Global;

/// How two edges are joined.
#[derive(Clone, Copy)]
enum Connective {
    TrivialAnd,
    And,
    TrivialOr,
    Or,
    Imply,
    Equal,
}

/// The most gates that are added to join two edges.
fn gates(by: Connective) -> usize
    ensures value { result ≡ gates by }
    ensures few { result ≤ 3 }
{
    match by {
        Connective::Equal => 3,
        _ => 1,
    }
}

/// Joins two edges.
fn join(aig: &mut Aig, by: Connective, a: AigEdge, b: AigEdge) -> Result<AigEdge, MemoryError>
    requires first { IsInRange aig.old.nodes a }
    requires second { IsInRange aig.old.nodes b }
    ensures joins { IfOk result (Joins by aig.old aig.new a b) }
    ensures memory { IfErr result (λ _. NeedsMemory by a b) }
    ensures err { OnErr result (aig.new ≡ aig.old) }
{
    match by {
        Connective::TrivialAnd => aig.trivial_new_and_node(a, b),
        Connective::And => aig.new_and_node(a, b),
        Connective::TrivialOr => aig.trivial_new_or_node(a, b),
        Connective::Or => aig.new_or_node(a, b),
        Connective::Imply => aig.new_imply_node(a, b),
        Connective::Equal => aig.new_eq_node(a, b),
    }
}

/// Joins the edges of two literals, and tells the literal.
#[tactic(auto, using(crate::proofs::Room::joined_below))]
fn join_literals(aig: &mut Aig, by: Connective, a: u32, b: u32, edge: &mut u32) -> u32
    ensures { JoinsOr by (edge_of a) (edge_of b) result edge.old edge.new aig.old aig.new }
{
    let (a, b) = (edge_of(a), edge_of(b));
    if !aig.has_edge(a) || !aig.has_edge(b) {
        return RANGE;
    }
    if aig.num_nodes() > MOST_NODES - gates(by) {
        return FULL;
    }
    match join(aig, by, a, b) {
        Ok(e) => {
            *edge = literal_of(e);
            DONE
        }
        Err(_) => MEMORY,
    }
}

/// Adds a gate, the and of two edges.
#[unsafe(no_mangle)]
pub extern "C" fn aig_circuit_trivial_new_and_node(
    alloc: Global,
    circuit: &mut Handle,
    a: u32,
    b: u32,
    edge: &mut u32,
) -> u32
    ensures { OnHeld circuit.old circuit.new result (edge.new ≡ edge.old)
        (JoinsOr Connective.TrivialAnd (edge_of a) (edge_of b) result edge.old edge.new) }
{
    lend!(alloc, circuit, aig => join_literals(&mut *aig, Connective::TrivialAnd, a, b, edge))
}

/// Tells the and of two edges, with at most one gate more.
#[unsafe(no_mangle)]
pub extern "C" fn aig_circuit_new_and_node(
    alloc: Global,
    circuit: &mut Handle,
    a: u32,
    b: u32,
    edge: &mut u32,
) -> u32
    ensures { OnHeld circuit.old circuit.new result (edge.new ≡ edge.old)
        (JoinsOr Connective.And (edge_of a) (edge_of b) result edge.old edge.new) }
{
    lend!(alloc, circuit, aig => join_literals(&mut *aig, Connective::And, a, b, edge))
}

/// Adds a gate for the or of two edges.
#[unsafe(no_mangle)]
pub extern "C" fn aig_circuit_trivial_new_or_node(
    alloc: Global,
    circuit: &mut Handle,
    a: u32,
    b: u32,
    edge: &mut u32,
) -> u32
    ensures { OnHeld circuit.old circuit.new result (edge.new ≡ edge.old)
        (JoinsOr Connective.TrivialOr (edge_of a) (edge_of b) result edge.old edge.new) }
{
    lend!(alloc, circuit, aig => join_literals(&mut *aig, Connective::TrivialOr, a, b, edge))
}

/// Tells the or of two edges, with at most one gate more.
#[unsafe(no_mangle)]
pub extern "C" fn aig_circuit_new_or_node(
    alloc: Global,
    circuit: &mut Handle,
    a: u32,
    b: u32,
    edge: &mut u32,
) -> u32
    ensures { OnHeld circuit.old circuit.new result (edge.new ≡ edge.old)
        (JoinsOr Connective.Or (edge_of a) (edge_of b) result edge.old edge.new) }
{
    lend!(alloc, circuit, aig => join_literals(&mut *aig, Connective::Or, a, b, edge))
}

/// Tells an edge that is true where the first of two implies the second, with at most one gate more.
#[unsafe(no_mangle)]
pub extern "C" fn aig_circuit_new_imply_node(
    alloc: Global,
    circuit: &mut Handle,
    a: u32,
    b: u32,
    edge: &mut u32,
) -> u32
    ensures { OnHeld circuit.old circuit.new result (edge.new ≡ edge.old)
        (JoinsOr Connective.Imply (edge_of a) (edge_of b) result edge.old edge.new) }
{
    lend!(alloc, circuit, aig => join_literals(&mut *aig, Connective::Imply, a, b, edge))
}

/// Tells an edge that is true where two edges are equal, with at most three gates more.
#[unsafe(no_mangle)]
pub extern "C" fn aig_circuit_new_eq_node(
    alloc: Global,
    circuit: &mut Handle,
    a: u32,
    b: u32,
    edge: &mut u32,
) -> u32
    ensures { OnHeld circuit.old circuit.new result (edge.new ≡ edge.old)
        (JoinsOr Connective.Equal (edge_of a) (edge_of b) result edge.old edge.new) }
{
    lend!(alloc, circuit, aig => join_literals(&mut *aig, Connective::Equal, a, b, edge))
}

/// How edges of a list are joined.
#[derive(Clone, Copy)]
enum ListConnective {
    TrivialAnds,
    Ands,
    TrivialOrs,
    Ors,
}

/// Joins edges.
fn join_all(aig: &mut Aig, by: ListConnective, edges: Vec<AigEdge>) -> Result<AigEdge, MemoryError>
    requires { All (IsInRange aig.old.nodes) edges.items }
    ensures joins { IfOk result (JoinsAll by aig.old aig.new edges.items) }
    ensures err { OnErr result (aig.new ≡ aig.old) }
{
    match by {
        ListConnective::TrivialAnds => aig.trivial_new_ands_node(edges),
        ListConnective::Ands => aig.new_ands_node(edges),
        ListConnective::TrivialOrs => aig.trivial_new_ors_node(edges),
        ListConnective::Ors => aig.new_ors_node(edges),
    }
}

/// Joins the edges of literals, and tells the literal.
#[tactic(auto, using(crate::proofs::Room::all_joined_below))]
fn join_list(
    alloc: Global,
    aig: &mut Aig,
    by: ListConnective,
    literals: &[u32],
    edge: &mut u32,
) -> u32
    ensures { JoinsAllOr by (map edge_of literals.now) result edge.old edge.new aig.old aig.new }
{
    let Ok(edges) = edges_of(alloc, literals) else {
        return MEMORY;
    };
    if !have_edges(aig, edges.as_slice()) {
        return RANGE;
    }
    if edges.len() > MOST_NODES || aig.num_nodes() > MOST_NODES - edges.len() {
        return FULL;
    }
    match join_all(aig, by, edges) {
        Ok(e) => {
            *edge = literal_of(e);
            DONE
        }
        Err(_) => MEMORY,
    }
}

/// Tells the and of edges, with a gate for each after the first.
#[unsafe(no_mangle)]
pub extern "C" fn aig_circuit_trivial_new_ands_node(
    alloc: Global,
    circuit: &mut Handle,
    edges: &[u32],
    edge: &mut u32,
) -> u32
    ensures { OnHeld circuit.old circuit.new result (edge.new ≡ edge.old)
        (JoinsAllOr ListConnective.TrivialAnds (map edge_of edges.now) result edge.old edge.new) }
{
    lend!(alloc, circuit, aig => join_list(alloc, &mut *aig, ListConnective::TrivialAnds, edges, edge))
}

/// Tells the and of edges, joined from the left; an edge that folds adds no gate.
#[unsafe(no_mangle)]
pub extern "C" fn aig_circuit_new_ands_node(
    alloc: Global,
    circuit: &mut Handle,
    edges: &[u32],
    edge: &mut u32,
) -> u32
    ensures { OnHeld circuit.old circuit.new result (edge.new ≡ edge.old)
        (JoinsAllOr ListConnective.Ands (map edge_of edges.now) result edge.old edge.new) }
{
    lend!(alloc, circuit, aig => join_list(alloc, &mut *aig, ListConnective::Ands, edges, edge))
}

/// Tells the or of edges, with a gate for each after the first.
#[unsafe(no_mangle)]
pub extern "C" fn aig_circuit_trivial_new_ors_node(
    alloc: Global,
    circuit: &mut Handle,
    edges: &[u32],
    edge: &mut u32,
) -> u32
    ensures { OnHeld circuit.old circuit.new result (edge.new ≡ edge.old)
        (JoinsAllOr ListConnective.TrivialOrs (map edge_of edges.now) result edge.old edge.new) }
{
    lend!(alloc, circuit, aig => join_list(alloc, &mut *aig, ListConnective::TrivialOrs, edges, edge))
}

/// Tells the or of edges, joined from the left; an edge that folds adds no gate.
#[unsafe(no_mangle)]
pub extern "C" fn aig_circuit_new_ors_node(
    alloc: Global,
    circuit: &mut Handle,
    edges: &[u32],
    edge: &mut u32,
) -> u32
    ensures { OnHeld circuit.old circuit.new result (edge.new ≡ edge.old)
        (JoinsAllOr ListConnective.Ors (map edge_of edges.now) result edge.old edge.new) }
{
    lend!(alloc, circuit, aig => join_list(alloc, &mut *aig, ListConnective::Ors, edges, edge))
}

//! Property lists that are changed.

ghost use Rattle.std.specs.Prelude.{◌≡◌, ◌++◌, [], All, IfOk, OnErr, OnOk, map, ⊤};
ghost use Rattle.aig_circuit.specs.Circuit.{IsInRange};
ghost use Rattle.aig_circuit.specs.PropLists.{edges_of, with_edges};
ghost use Rattle.aig_giving.specs.Edges.{edge_of};
ghost use Rattle.aig_giving.specs.declared.status.TheConstants.{DONE};
ghost use Rattle.aig_handles.specs.Handles.{OnHeld};
ghost use Rattle.aig_handles.specs.Lists.{ClearsOr, PushesJusticeOr, PushesOr, SetsEdgeOr, SetsEdgesOr, list_of, with_justice};

use crate::checks::have_edges;
use crate::status::RANGE;
use aig::{Aig, AigEdge, PropList};
use aig_base::MemoryError;
use aig_giving::{DONE, EMPTY, MEMORY, edge_of, edges_of};
use aig_held::{Handle, Held};
use std::alloc::Global;

/// The list of a number, if there is one.
pub(crate) fn list_of(number: u32) -> Option<PropList>
    ensures { result ≡ list_of number }
{
    if number == 0 {
        Some(PropList::Outputs)
    } else if number == 1 {
        Some(PropList::Bads)
    } else if number == 2 {
        Some(PropList::Constraints)
    } else if number == 3 {
        Some(PropList::Fairness)
    } else {
        None
    }
}

/// The entries of a list.
pub(crate) fn entries(aig: &Aig, list: PropList) -> &[AigEdge]
    ensures value { result.now ≡ edges_of list aig.now }
    ensures edges { All (IsInRange aig.now.nodes) result.now }
{
    match list {
        PropList::Outputs => aig.outputs(),
        PropList::Bads => aig.bads(),
        PropList::Constraints => aig.constraints(),
        PropList::Fairness => aig.fairness(),
    }
}

/// Appends an edge to the list of a number.
fn push_edge(aig: &mut Aig, list: u32, edge: AigEdge) -> u32
    ensures { PushesOr list edge result aig.old aig.new }
{
    let Some(list) = list_of(list) else {
        return RANGE;
    };
    if !aig.has_edge(edge) {
        return RANGE;
    }
    match aig.push_edge(list, edge) {
        Ok(()) => DONE,
        Err(_) => MEMORY,
    }
}

/// Appends an edge to a list.
#[unsafe(no_mangle)]
pub extern "C" fn aig_circuit_push_edge(
    alloc: Global,
    circuit: &mut Handle,
    list: u32,
    edge: u32,
) -> u32
    ensures { OnHeld circuit.old circuit.new result ⊤ (PushesOr list (edge_of edge) result) }
{
    let edge = edge_of(edge);
    lend!(alloc, circuit, aig => push_edge(&mut *aig, list, edge))
}

/// Replaces entry `i` of the list of a number.
fn set_edge(aig: &mut Aig, list: u32, i: usize, edge: AigEdge) -> u32
    ensures { SetsEdgeOr list i edge result aig.old aig.new }
{
    let Some(list) = list_of(list) else {
        return RANGE;
    };
    if i >= entries(aig, list).len() || !aig.has_edge(edge) {
        return RANGE;
    }
    aig.set_edge(list, i, edge);
    DONE
}

/// Replaces entry `i` of a list, from 0 on.
#[unsafe(no_mangle)]
pub extern "C" fn aig_circuit_set_edge(
    alloc: Global,
    circuit: &mut Handle,
    list: u32,
    i: usize,
    edge: u32,
) -> u32
    ensures { OnHeld circuit.old circuit.new result ⊤ (SetsEdgeOr list i (edge_of edge) result) }
{
    let edge = edge_of(edge);
    lend!(alloc, circuit, aig => set_edge(&mut *aig, list, i, edge))
}

/// Appends edges to a list.
fn push_edges(aig: &mut Aig, list: PropList, edges: &[AigEdge]) -> Result<(), MemoryError>
    requires { All (IsInRange aig.old.nodes) edges.now }
    ensures { OnOk result (aig.new ≡ with_edges list aig.old (edges_of list aig.old ++ edges.now)) }
{
    for e in edges {
        aig.push_edge(list, *e)?;
    }
    Ok(())
}

/// A copy of a circuit whose list has these entries.
fn with_entries(aig: &Aig, list: PropList, edges: &[AigEdge]) -> Result<Aig, MemoryError>
    requires { All (IsInRange aig.now.nodes) edges.now }
    ensures { IfOk result (λ made. made ≡ with_edges list aig.now edges.now) }
{
    let mut made = aig.clone()?;
    made.clear_edges(list);
    push_edges(&mut made, list, edges)?;
    Ok(made)
}

/// Replaces all entries of the list of a number.
fn set_edges(alloc: Global, aig: &mut Aig, list: u32, literals: &[u32]) -> u32
    ensures { SetsEdgesOr list (map edge_of literals.now) result aig.old aig.new }
{
    let Some(list) = list_of(list) else {
        return RANGE;
    };
    let Ok(edges) = edges_of(alloc, literals) else {
        return MEMORY;
    };
    if !have_edges(aig, edges.as_slice()) {
        return RANGE;
    }
    match with_entries(aig, list, edges.as_slice()) {
        Ok(made) => {
            *aig = made;
            DONE
        }
        Err(_) => MEMORY,
    }
}

/// Replaces all entries of a list.
#[unsafe(no_mangle)]
pub extern "C" fn aig_circuit_set_edges(
    alloc: Global,
    circuit: &mut Handle,
    list: u32,
    edges: &[u32],
) -> u32
    ensures { OnHeld circuit.old circuit.new result ⊤ (SetsEdgesOr list (map edge_of edges.now)
        result) }
{
    lend!(alloc, circuit, aig => set_edges(alloc, &mut *aig, list, edges))
}

/// Empties the list of a number.
fn clear_edges(aig: &mut Aig, list: u32) -> u32
    ensures { ClearsOr list result aig.old aig.new }
{
    let Some(list) = list_of(list) else {
        return RANGE;
    };
    aig.clear_edges(list);
    DONE
}

/// Empties a list.
#[unsafe(no_mangle)]
pub extern "C" fn aig_circuit_clear_edges(alloc: Global, circuit: &mut Handle, list: u32) -> u32
    ensures { OnHeld circuit.old circuit.new result ⊤ (ClearsOr list result) }
{
    lend!(alloc, circuit, aig => clear_edges(&mut *aig, list))
}

/// Appends a justice property.
fn push_justice(alloc: Global, aig: &mut Aig, literals: &[u32]) -> u32
    ensures { PushesJusticeOr (map edge_of literals.now) result aig.old aig.new }
{
    let Ok(edges) = edges_of(alloc, literals) else {
        return MEMORY;
    };
    if !have_edges(aig, edges.as_slice()) {
        return RANGE;
    }
    match aig.push_justice(edges) {
        Ok(()) => DONE,
        Err(_) => MEMORY,
    }
}

/// Appends a justice property, a list of edges.
#[unsafe(no_mangle)]
pub extern "C" fn aig_circuit_push_justice(
    alloc: Global,
    circuit: &mut Handle,
    edges: &[u32],
) -> u32
    ensures { OnHeld circuit.old circuit.new result ⊤ (PushesJusticeOr (map edge_of edges.now)
        result) }
{
    lend!(alloc, circuit, aig => push_justice(alloc, &mut *aig, edges))
}

/// Drops all justice properties.
fn clear_justice(aig: &mut Aig) -> u32
    ensures { (result ≡ DONE) × (aig.new ≡ with_justice aig.old []) }
{
    aig.clear_justice();
    DONE
}

/// Drops all justice properties.
#[unsafe(no_mangle)]
pub extern "C" fn aig_circuit_clear_justice(alloc: Global, circuit: &mut Handle) -> u32
    ensures { OnHeld circuit.old circuit.new result ⊤ (λ old new.
        (result ≡ DONE) × (new ≡ with_justice old [])) }
{
    lend!(alloc, circuit, aig => clear_justice(&mut *aig))
}

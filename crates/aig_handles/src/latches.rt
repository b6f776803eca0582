//! Latches on free leaves, and their edges.

ghost use Rattle.std.specs.Prelude.{⊤};
ghost use Rattle.aig_giving.specs.Edges.{edge_of};
ghost use Rattle.aig_handles.specs.Building.{AddsLatchOr, SetsInitOr, SetsNextOr, edge_if};
ghost use Rattle.aig_handles.specs.Handles.{OnHeld};

use crate::building::edge_if;
use crate::checks::{has_edge_if_any, has_edges};
use crate::status::{NOT_FREE, RANGE};
use aig::{Aig, AigEdge};
use aig_giving::{DONE, EMPTY, MEMORY, edge_of};
use aig_held::{Handle, Held};
use std::alloc::Global;

/// Makes a free leaf that of the last latch.
fn add_latch(aig: &mut Aig, node: usize, next: AigEdge, init: Option<AigEdge>) -> u32
    ensures { AddsLatchOr node next init result aig.old aig.new }
{
    if !aig.is_free_leaf(node) {
        return NOT_FREE;
    }
    if !has_edges(aig, next, init) {
        return RANGE;
    }
    match aig.add_latch(node, next, init) {
        Ok(()) => DONE,
        Err(_) => MEMORY,
    }
}

/// Makes a free leaf that of the last latch, which has these edges.
#[unsafe(no_mangle)]
pub extern "C" fn aig_circuit_add_latch(
    alloc: Global,
    circuit: &mut Handle,
    node: usize,
    next: u32,
    has_init: bool,
    init: u32,
) -> u32
    ensures { OnHeld circuit.old circuit.new result ⊤ (AddsLatchOr node (edge_of next)
        (edge_if has_init init) result) }
{
    let (next, init) = (edge_of(next), edge_if(has_init, init));
    lend!(alloc, circuit, aig => add_latch(&mut *aig, node, next, init))
}

/// Replaces the next edge of latch `i`.
fn set_next(aig: &mut Aig, i: usize, next: AigEdge) -> u32
    ensures { SetsNextOr i next result aig.old aig.new }
{
    if i >= aig.latchs().len() || !aig.has_edge(next) {
        return RANGE;
    }
    aig.set_next(i, next);
    DONE
}

/// Replaces the next edge of latch `i`, from 0 on.
#[unsafe(no_mangle)]
pub extern "C" fn aig_circuit_set_next(
    alloc: Global,
    circuit: &mut Handle,
    i: usize,
    next: u32,
) -> u32
    ensures { OnHeld circuit.old circuit.new result ⊤ (SetsNextOr i (edge_of next) result) }
{
    let next = edge_of(next);
    lend!(alloc, circuit, aig => set_next(&mut *aig, i, next))
}

/// Replaces the initial edge of latch `i`, if any.
fn set_init(aig: &mut Aig, i: usize, init: Option<AigEdge>) -> u32
    ensures { SetsInitOr i init result aig.old aig.new }
{
    if i >= aig.latchs().len() || !has_edge_if_any(aig, init) {
        return RANGE;
    }
    aig.set_init(i, init);
    DONE
}

/// Replaces the initial edge of latch `i`, from 0 on, by one or by none.
#[unsafe(no_mangle)]
pub extern "C" fn aig_circuit_set_init(
    alloc: Global,
    circuit: &mut Handle,
    i: usize,
    has_init: bool,
    init: u32,
) -> u32
    ensures { OnHeld circuit.old circuit.new result ⊤ (SetsInitOr i (edge_if has_init init)
        result) }
{
    let init = edge_if(has_init, init);
    lend!(alloc, circuit, aig => set_init(&mut *aig, i, init))
}

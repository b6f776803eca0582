//! Leaves that are added: free ones, inputs and those of latches.

ghost use Rattle.std.specs.Prelude.{◌≡◌, ◌↔◌, IfOk, IsTrue, OnErr, OnOk, length, ⊤};
ghost use Rattle.aig_giving.specs.Edges.{edge_of};
ghost use Rattle.aig_handles.specs.Building.{AddsInputOr, AddsLeafOr, HasEdgesOf, edge_if, with_leaf};
ghost use Rattle.aig_handles.specs.Handles.{OnHeld};

use crate::checks::{MOST_NODES, has_edges};
use crate::status::{FULL, NOT_FREE, RANGE};
use aig::{Aig, AigEdge};
use aig_base::MemoryError;
use aig_giving::{DONE, EMPTY, MEMORY, edge_of};
use aig_held::{Handle, Held};
use std::alloc::Global;

/// What a new leaf becomes.
#[derive(Clone, Copy)]
enum NewLeaf {
    /// Neither an input nor a latch's.
    Free,
    /// The last input.
    Input,
    /// That of the last latch, which has these edges.
    Latch(AigEdge, Option<AigEdge>),
}

/// The edge of a literal, if there is one.
pub(crate) fn edge_if(is: bool, literal: u32) -> Option<AigEdge>
    ensures { result ≡ edge_if is literal }
{
    if is { Some(edge_of(literal)) } else { None }
}

/// Whether a circuit has the edges of a leaf.
fn has_edges_of(aig: &Aig, leaf: NewLeaf) -> bool
    ensures { IsTrue result ↔ HasEdgesOf aig.now leaf }
{
    match leaf {
        NewLeaf::Latch(next, init) => has_edges(aig, next, init),
        _ => true,
    }
}

/// Adds a leaf, and returns its number.
fn add_leaf(aig: &mut Aig, leaf: NewLeaf) -> Result<usize, MemoryError>
    requires { HasEdgesOf aig.old leaf }
    ensures number { IfOk result (λ id. id ≡ length aig.old.nodes) }
    ensures ok { OnOk result (aig.new ≡ with_leaf leaf aig.old) }
    ensures err { OnErr result (aig.new ≡ aig.old) }
{
    match leaf {
        NewLeaf::Free => aig.new_leaf_node(),
        NewLeaf::Input => aig.new_input(),
        NewLeaf::Latch(next, init) => aig.new_latch(next, init),
    }
}

/// Adds a leaf where it can be, and tells its number.
fn add_new(aig: &mut Aig, leaf: NewLeaf, node: &mut usize) -> u32
    ensures { AddsLeafOr leaf result node.old node.new aig.old aig.new }
{
    if !has_edges_of(aig, leaf) {
        return RANGE;
    }
    if aig.num_nodes() >= MOST_NODES {
        return FULL;
    }
    match add_leaf(aig, leaf) {
        Ok(id) => {
            *node = id;
            DONE
        }
        Err(_) => MEMORY,
    }
}

/// Adds a free leaf, and tells its number.
#[unsafe(no_mangle)]
pub extern "C" fn aig_circuit_new_leaf_node(
    alloc: Global,
    circuit: &mut Handle,
    node: &mut usize,
) -> u32
    ensures { OnHeld circuit.old circuit.new result (node.new ≡ node.old)
        (AddsLeafOr NewLeaf.Free result node.old node.new) }
{
    lend!(alloc, circuit, aig => add_new(&mut *aig, NewLeaf::Free, node))
}

/// Adds a leaf that is the last input, and tells its number.
#[unsafe(no_mangle)]
pub extern "C" fn aig_circuit_new_input(
    alloc: Global,
    circuit: &mut Handle,
    node: &mut usize,
) -> u32
    ensures { OnHeld circuit.old circuit.new result (node.new ≡ node.old)
        (AddsLeafOr NewLeaf.Input result node.old node.new) }
{
    lend!(alloc, circuit, aig => add_new(&mut *aig, NewLeaf::Input, node))
}

/// Adds a leaf with the last latch, which has these edges, and tells the leaf's number.
#[unsafe(no_mangle)]
pub extern "C" fn aig_circuit_new_latch(
    alloc: Global,
    circuit: &mut Handle,
    next: u32,
    has_init: bool,
    init: u32,
    node: &mut usize,
) -> u32
    ensures { OnHeld circuit.old circuit.new result (node.new ≡ node.old)
        (AddsLeafOr (NewLeaf.Latch (edge_of next) (edge_if has_init init)) result node.old
        node.new) }
{
    let leaf = NewLeaf::Latch(edge_of(next), edge_if(has_init, init));
    lend!(alloc, circuit, aig => add_new(&mut *aig, leaf, node))
}

/// Makes a free leaf the last input.
fn add_input(aig: &mut Aig, node: usize) -> u32
    ensures { AddsInputOr node result aig.old aig.new }
{
    if !aig.is_free_leaf(node) {
        return NOT_FREE;
    }
    match aig.add_input(node) {
        Ok(()) => DONE,
        Err(_) => MEMORY,
    }
}

/// Makes a free leaf the last input.
#[unsafe(no_mangle)]
pub extern "C" fn aig_circuit_add_input(alloc: Global, circuit: &mut Handle, node: usize) -> u32
    ensures { OnHeld circuit.old circuit.new result ⊤ (AddsInputOr node result) }
{
    lend!(alloc, circuit, aig => add_input(&mut *aig, node))
}

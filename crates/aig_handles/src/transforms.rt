//! Transforms, which put another circuit in place of the circuit.

ghost use Rattle.std.specs.Prelude.{◌≡◌, ⊤};
ghost use Rattle.aig_giving.specs.Edges.{edge_of};
ghost use Rattle.aig_handles.specs.Handles.{OnHeld, held_in};
ghost use Rattle.aig_handles.specs.Transforms.{CompressesOr, ConstrainsOr, MergesOr, MovesOr, ReencodesOr, RefinesOr, SetsGateOr, StrashesOr, UnrollsOr, UnrollsToOr};

use crate::status::{FREE_LEAF, FULL, NO_BEGINNING, NOT_ADMITTED};
use aig::{Aig, AigEdge};
use aig_circuit::gate_node;
use aig_giving::{DONE, EMPTY, MEMORY, edge_of};
use aig_held::{Handle, Held};
use std::alloc::Global;

/// Gives a gate other operands.
fn set_node(aig: &mut Aig, node: usize, a: AigEdge, b: AigEdge) -> u32
    ensures { SetsGateOr node a b result aig.old aig.new }
{
    let gate = gate_node(node, a, b);
    if !aig.admits(node, &gate) {
        return NOT_ADMITTED;
    }
    aig.set_node(node, gate);
    DONE
}

/// Gives a gate other operands, which are put in order.
#[unsafe(no_mangle)]
pub extern "C" fn aig_circuit_set_node(
    alloc: Global,
    circuit: &mut Handle,
    node: usize,
    a: u32,
    b: u32,
) -> u32
    ensures { OnHeld circuit.old circuit.new result ⊤ (SetsGateOr node (edge_of a) (edge_of b)
        result) }
{
    let (a, b) = (edge_of(a), edge_of(b));
    lend!(alloc, circuit, aig => set_node(&mut *aig, node, a, b))
}

/// Cuts a circuit to its cone of influence.
fn coi_refine(aig: &mut Aig) -> u32
    ensures { RefinesOr result aig.old aig.new }
{
    if !aig.fits_lits() {
        return FULL;
    }
    match aig.coi_refine() {
        Ok((made, _)) => {
            *aig = made;
            DONE
        }
        Err(_) => MEMORY,
    }
}

/// Cuts a circuit to its cone of influence.
#[unsafe(no_mangle)]
pub extern "C" fn aig_circuit_coi_refine(alloc: Global, circuit: &mut Handle) -> u32
    ensures { OnHeld circuit.old circuit.new result ⊤ (RefinesOr result) }
{
    lend!(alloc, circuit, aig => coi_refine(&mut *aig))
}

/// Joins the constraints to the first bad edge and the first output.
fn aig_move(aig: &mut Aig) -> u32
    ensures { MovesOr result aig.old aig.new }
{
    match aig.aig_move() {
        Ok(made) => {
            *aig = made;
            DONE
        }
        Err(_) => MEMORY,
    }
}

/// Joins the constraints to the first bad edge and the first output, and leaves none.
#[unsafe(no_mangle)]
pub extern "C" fn aig_circuit_aig_move(alloc: Global, circuit: &mut Handle) -> u32
    ensures { OnHeld circuit.old circuit.new result ⊤ (MovesOr result) }
{
    lend!(alloc, circuit, aig => aig_move(&mut *aig))
}

/// Replaces the bad edges by their or.
fn compress_property(aig: &mut Aig) -> u32
    ensures { CompressesOr result aig.old aig.new }
{
    match aig.compress_property() {
        Ok(_) => DONE,
        Err(_) => MEMORY,
    }
}

/// Replaces the bad edges by one, their or.
#[unsafe(no_mangle)]
pub extern "C" fn aig_circuit_compress_property(alloc: Global, circuit: &mut Handle) -> u32
    ensures { OnHeld circuit.old circuit.new result ⊤ (CompressesOr result) }
{
    lend!(alloc, circuit, aig => compress_property(&mut *aig))
}

/// Replaces initial edges that aren't constant.
fn gate_init_to_constraint(aig: &mut Aig) -> u32
    ensures { ConstrainsOr result aig.old aig.new }
{
    match aig.gate_init_to_constraint() {
        Ok(()) => DONE,
        Err(_) => MEMORY,
    }
}

/// Replaces initial edges that aren't constant by constraints.
#[unsafe(no_mangle)]
pub extern "C" fn aig_circuit_gate_init_to_constraint(alloc: Global, circuit: &mut Handle) -> u32
    ensures { OnHeld circuit.old circuit.new result ⊤ (ConstrainsOr result) }
{
    lend!(alloc, circuit, aig => gate_init_to_constraint(&mut *aig))
}

/// Puts a circuit into the numbering of the binary form.
fn reencode(aig: &mut Aig) -> u32
    ensures { ReencodesOr result aig.old aig.new }
{
    if !aig.is_closed() {
        return FREE_LEAF;
    }
    match aig.reencode() {
        Ok(made) => {
            *aig = made;
            DONE
        }
        Err(_) => MEMORY,
    }
}

/// Puts a circuit into the numbering of the binary form.
#[unsafe(no_mangle)]
pub extern "C" fn aig_circuit_reencode(alloc: Global, circuit: &mut Handle) -> u32
    ensures { OnHeld circuit.old circuit.new result ⊤ (ReencodesOr result) }
{
    lend!(alloc, circuit, aig => reencode(&mut *aig))
}

/// Lets gates share one node where their trees are equal.
fn strash(aig: &mut Aig) -> u32
    ensures { StrashesOr result aig.old aig.new }
{
    match aig.strash() {
        Ok(made) => {
            *aig = made;
            DONE
        }
        Err(_) => MEMORY,
    }
}

/// Lets gates share one node where their trees are equal.
#[unsafe(no_mangle)]
pub extern "C" fn aig_circuit_strash(alloc: Global, circuit: &mut Handle) -> u32
    ensures { OnHeld circuit.old circuit.new result ⊤ (StrashesOr result) }
{
    lend!(alloc, circuit, aig => strash(&mut *aig))
}

/// Adds `k` further steps.
fn unroll_to(aig: &mut Aig, k: usize) -> u32
    ensures { UnrollsToOr k result aig.old aig.new }
{
    match aig.unroll_to(k) {
        Ok(made) => {
            *aig = made;
            DONE
        }
        Err(_) => MEMORY,
    }
}

/// Adds `k` further steps.
#[unsafe(no_mangle)]
pub extern "C" fn aig_circuit_unroll_to(alloc: Global, circuit: &mut Handle, k: usize) -> u32
    ensures { OnHeld circuit.old circuit.new result ⊤ (UnrollsToOr k result) }
{
    lend!(alloc, circuit, aig => unroll_to(&mut *aig, k))
}

/// Adds one step of another circuit.
fn unroll(aig: &mut Aig, from: &Aig) -> u32
    ensures { UnrollsOr from.now result aig.old aig.new }
{
    if !aig.begins_with(from) {
        return NO_BEGINNING;
    }
    match aig.unroll(from) {
        Ok(()) => DONE,
        Err(_) => MEMORY,
    }
}

/// Appends another circuit.
fn merge(aig: &mut Aig, other: &Aig) -> u32
    ensures { MergesOr other.now result aig.old aig.new }
{
    match aig.merge(other) {
        Ok(()) => DONE,
        Err(_) => MEMORY,
    }
}

/// Adds one step of `from` to the circuit of a handle.
fn unroll_held(alloc: Global, circuit: &mut Handle, from: &Aig) -> u32
    ensures { OnHeld circuit.old circuit.new result ⊤ (UnrollsOr from.now result) }
{
    lend!(alloc, circuit, aig => unroll(&mut *aig, from))
}

/// Adds one step of the circuit `from`, of which a circuit holds the steps so far.
#[unsafe(no_mangle)]
pub extern "C" fn aig_circuit_unroll(alloc: Global, circuit: &mut Handle, from: &mut Handle) -> u32
    ensures kept { held_in from.new ≡ held_in from.old }
    ensures unrolls { OnHeld from.old from.new result (circuit.new ≡ circuit.old) (λ first _.
        OnHeld circuit.old circuit.new result ⊤ (UnrollsOr first result)) }
{
    lend!(alloc, from, first => unroll_held(alloc, circuit, &*first))
}

/// Appends a circuit to the circuit of a handle.
fn merge_held(alloc: Global, circuit: &mut Handle, other: &Aig) -> u32
    ensures { OnHeld circuit.old circuit.new result ⊤ (MergesOr other.now result) }
{
    lend!(alloc, circuit, aig => merge(&mut *aig, other))
}

/// Appends the nodes of another circuit but 0, and the entries of its lists.
#[unsafe(no_mangle)]
pub extern "C" fn aig_circuit_merge(alloc: Global, circuit: &mut Handle, other: &mut Handle) -> u32
    ensures kept { held_in other.new ≡ held_in other.old }
    ensures merges { OnHeld other.old other.new result (circuit.new ≡ circuit.old) (λ more _.
        OnHeld circuit.old circuit.new result ⊤ (MergesOr more result)) }
{
    lend!(alloc, other, more => merge_held(alloc, circuit, &*more))
}

//! What a circuit has, told in lists.

ghost use Rattle.std.specs.Prelude.{◌≡◌, ◌<◌, All, IfErr, IfOk, Some, length, map, slice_get};
ghost use Rattle.aig_circuit.specs.Circuit.{IsCircuit, IsInRange};
ghost use Rattle.aig_circuit.specs.Edge.{literal_of};
ghost use Rattle.aig_giving.specs.Given.{GivesOr};
ghost use Rattle.aig_handles.specs.Handles.{HasRoom, OnHeld, Unmet, held_in};
ghost use Rattle.aig_handles.specs.Reading.{AreEntries, AreJustice, Counts, HasNoEntries, HasNoJustice, HasNoLiterals, Lists, ListsLiterals, gate_list, latch_list, node_list};
ghost use Rattle.aig_handles.specs.Lists.{list_of};

use crate::lists::{entries, list_of};
use crate::status::{FULL, RANGE};
use aig::{Aig, AigEdge};
use aig_giving::{
    EMPTY, GivenLatch, GivenNode, MEMORY, give, give_made, latches, literals, nodes, tell,
};
use aig_held::{Handle, Held};
use std::alloc::Global;

/// Tells how many nodes there are, node 0 among them.
#[unsafe(no_mangle)]
pub extern "C" fn aig_circuit_num_nodes(
    alloc: Global,
    circuit: &mut Handle,
    count: &mut usize,
) -> u32
    ensures { OnHeld circuit.old circuit.new result (count.new ≡ count.old)
        (Counts (λ c. length c.nodes) result count.new) }
{
    lend!(alloc, circuit, aig => tell(aig.num_nodes(), count))
}

/// Tells how many justice properties there are.
#[unsafe(no_mangle)]
pub extern "C" fn aig_circuit_num_justice(
    alloc: Global,
    circuit: &mut Handle,
    count: &mut usize,
) -> u32
    ensures { OnHeld circuit.old circuit.new result (count.new ≡ count.old)
        (Counts (λ c. length c.properties.justice) result count.new) }
{
    lend!(alloc, circuit, aig => tell(aig.justice().len(), count))
}

/// The nodes, or the status that says why they have no literals.
fn node_list(alloc: Global, aig: &Aig) -> Result<Vec<GivenNode>, u32>
    ensures list { IfOk result (λ v. HasRoom aig.now 0 × (v.items ≡ node_list aig.now)) }
    ensures refused { IfErr result (λ status. HasNoLiterals status aig.now) }
{
    if !aig.fits_lits() {
        return Err(FULL);
    }
    match nodes(alloc, aig.nodes()) {
        Ok(list) => Ok(list),
        Err(_) => Err(MEMORY),
    }
}

/// Gives the nodes.
fn give_nodes(alloc: Global, aig: &Aig, out: &mut [GivenNode], needed: &mut usize) -> u32
    ensures { ListsLiterals node_list result out.old out.new needed.old needed.new aig.now }
{
    give_made(node_list(alloc, aig), out, needed)
}

/// Gives the nodes, in order.
#[unsafe(no_mangle)]
pub extern "C" fn aig_circuit_nodes(
    alloc: Global,
    circuit: &mut Handle,
    out: &mut [GivenNode],
    needed: &mut usize,
) -> u32
    ensures kept { held_in circuit.new ≡ held_in circuit.old }
    ensures list { OnHeld circuit.old circuit.new result
        ((out.new ≡ out.old) × (needed.new ≡ needed.old)) (λ c _. ListsLiterals node_list result
        out.old out.new needed.old needed.new c) }
{
    lend!(alloc, circuit, aig => give_nodes(alloc, &*aig, out, needed))
}

/// Gives the numbers of the inputs.
fn give_inputs(aig: &Aig, out: &mut [usize], needed: &mut usize) -> u32
    ensures { Lists (λ c. c.inputs) result out.old out.new needed.old needed.new ⊥ aig.now }
{
    give(aig.inputs(), out, needed)
}

/// Gives the numbers of the inputs, in order.
#[unsafe(no_mangle)]
pub extern "C" fn aig_circuit_inputs(
    alloc: Global,
    circuit: &mut Handle,
    out: &mut [usize],
    needed: &mut usize,
) -> u32
    ensures kept { held_in circuit.new ≡ held_in circuit.old }
    ensures list { OnHeld circuit.old circuit.new result
        ((out.new ≡ out.old) × (needed.new ≡ needed.old)) (λ c _. Lists (λ c. c.inputs) result
        out.old out.new needed.old needed.new ⊥ c) }
{
    lend!(alloc, circuit, aig => give_inputs(&*aig, out, needed))
}

/// The latches, or the status that says why they have no literals.
fn latch_list(alloc: Global, aig: &Aig) -> Result<Vec<GivenLatch>, u32>
    ensures list { IfOk result (λ v. HasRoom aig.now 0 × (v.items ≡ latch_list aig.now)) }
    ensures refused { IfErr result (λ status. HasNoLiterals status aig.now) }
{
    if !aig.fits_lits() {
        return Err(FULL);
    }
    match latches(alloc, aig.latchs()) {
        Ok(list) => Ok(list),
        Err(_) => Err(MEMORY),
    }
}

/// Gives the latches.
fn give_latchs(alloc: Global, aig: &Aig, out: &mut [GivenLatch], needed: &mut usize) -> u32
    ensures { ListsLiterals latch_list result out.old out.new needed.old needed.new aig.now }
{
    give_made(latch_list(alloc, aig), out, needed)
}

/// Gives the latches, in order.
#[unsafe(no_mangle)]
pub extern "C" fn aig_circuit_latchs(
    alloc: Global,
    circuit: &mut Handle,
    out: &mut [GivenLatch],
    needed: &mut usize,
) -> u32
    ensures kept { held_in circuit.new ≡ held_in circuit.old }
    ensures list { OnHeld circuit.old circuit.new result
        ((out.new ≡ out.old) × (needed.new ≡ needed.old)) (λ c _. ListsLiterals latch_list result
        out.old out.new needed.old needed.new c) }
{
    lend!(alloc, circuit, aig => give_latchs(alloc, &*aig, out, needed))
}

/// The literals of edges of a circuit, or the status that says why they have none.
fn literal_list(alloc: Global, aig: &Aig, edges: &[AigEdge]) -> Result<Vec<u32>, u32>
    requires { All (IsInRange aig.now.nodes) edges.now }
    ensures list { IfOk result (λ v. HasRoom aig.now 0 × (v.items ≡ map literal_of edges.now)) }
    ensures refused { IfErr result (λ status. HasNoLiterals status aig.now) }
{
    if !aig.fits_lits() {
        return Err(FULL);
    }
    match literals(alloc, edges) {
        Ok(list) => Ok(list),
        Err(_) => Err(MEMORY),
    }
}

/// The literals of the list of a number, or the status that says why there are none.
fn entry_list(alloc: Global, aig: &Aig, list: u32) -> Result<Vec<u32>, u32>
    ensures list { IfOk result (λ v. AreEntries list aig.now v.items) }
    ensures refused { IfErr result (λ status. HasNoEntries list status aig.now) }
{
    match list_of(list) {
        Some(list) => literal_list(alloc, aig, entries(aig, list)),
        None => Err(RANGE),
    }
}

/// Gives the entries of the list of a number.
fn give_edges(alloc: Global, aig: &Aig, list: u32, out: &mut [u32], needed: &mut usize) -> u32
    ensures { GivesOr (AreEntries list aig.now) result out.old out.new needed.old needed.new
        (HasNoEntries list result aig.now) }
{
    give_made(entry_list(alloc, aig, list), out, needed)
}

/// Gives the entries of a list, in order.
#[unsafe(no_mangle)]
pub extern "C" fn aig_circuit_edges(
    alloc: Global,
    circuit: &mut Handle,
    list: u32,
    out: &mut [u32],
    needed: &mut usize,
) -> u32
    ensures kept { held_in circuit.new ≡ held_in circuit.old }
    ensures list { OnHeld circuit.old circuit.new result
        ((out.new ≡ out.old) × (needed.new ≡ needed.old)) (λ c _. GivesOr (AreEntries list c)
        result out.old out.new needed.old needed.new (HasNoEntries list result c)) }
{
    lend!(alloc, circuit, aig => give_edges(alloc, &*aig, list, out, needed))
}

/// The edges of justice property `i`.
fn justice_set(aig: &Aig, i: usize) -> &[AigEdge]
    requires { i < length aig.now.properties.justice }
    ensures { slice_get aig.now.properties.justice i ≡ Some result.now }
{
    aig.justice()[i].as_slice()
}

/// The literals of justice property `i`, or the status that says why there are none.
fn justice_list(alloc: Global, aig: &Aig, i: usize) -> Result<Vec<u32>, u32>
    ensures list { IfOk result (λ v. AreJustice i aig.now v.items) }
    ensures refused { IfErr result (λ status. HasNoJustice i status aig.now) }
{
    if i >= aig.justice().len() {
        return Err(RANGE);
    }
    literal_list(alloc, aig, justice_set(aig, i))
}

/// Gives the edges of justice property `i`.
fn give_justice(alloc: Global, aig: &Aig, i: usize, out: &mut [u32], needed: &mut usize) -> u32
    ensures { GivesOr (AreJustice i aig.now) result out.old out.new needed.old needed.new
        (HasNoJustice i result aig.now) }
{
    give_made(justice_list(alloc, aig, i), out, needed)
}

/// Gives the edges of justice property `i`, from 0 on.
#[unsafe(no_mangle)]
pub extern "C" fn aig_circuit_justice(
    alloc: Global,
    circuit: &mut Handle,
    i: usize,
    out: &mut [u32],
    needed: &mut usize,
) -> u32
    ensures kept { held_in circuit.new ≡ held_in circuit.old }
    ensures list { OnHeld circuit.old circuit.new result
        ((out.new ≡ out.old) × (needed.new ≡ needed.old)) (λ c _. GivesOr (AreJustice i c) result
        out.old out.new needed.old needed.new (HasNoJustice i result c)) }
{
    lend!(alloc, circuit, aig => give_justice(alloc, &*aig, i, out, needed))
}

/// The numbers of the gates.
fn gate_list(alloc: Global, aig: &Aig) -> Result<Vec<usize>, u32>
    ensures list { IfOk result (λ v. v.items ≡ gate_list aig.now) }
    ensures refused { IfErr result (λ status. status ≡ MEMORY) }
{
    match aig.ands_iter().map(|gate| gate.node_id()).collect(alloc) {
        Ok(list) => Ok(list),
        Err(_) => Err(MEMORY),
    }
}

/// Gives the numbers of the gates.
fn give_ands(alloc: Global, aig: &Aig, out: &mut [usize], needed: &mut usize) -> u32
    ensures { Lists gate_list result out.old out.new needed.old needed.new (result ≡ MEMORY)
        aig.now }
{
    give_made(gate_list(alloc, aig), out, needed)
}

/// Gives the numbers of the gates, rising.
#[unsafe(no_mangle)]
pub extern "C" fn aig_circuit_ands(
    alloc: Global,
    circuit: &mut Handle,
    out: &mut [usize],
    needed: &mut usize,
) -> u32
    ensures kept { held_in circuit.new ≡ held_in circuit.old }
    ensures list { OnHeld circuit.old circuit.new result
        ((out.new ≡ out.old) × (needed.new ≡ needed.old)) (λ c _. Lists gate_list result out.old
        out.new needed.old needed.new (result ≡ MEMORY) c) }
{
    lend!(alloc, circuit, aig => give_ands(alloc, &*aig, out, needed))
}

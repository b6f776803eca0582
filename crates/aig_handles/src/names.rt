//! Names of nodes.

ghost use Rattle.std.specs.Prelude.{◌≡◌, IfErr, IfOk, Some, ⊤};
ghost use Rattle.std.specs.FinMap.{contains_key, get};
ghost use Rattle.aig_giving.specs.Given.{GivesOr};
ghost use Rattle.aig_handles.specs.Handles.{OnHeld, held_in};
ghost use Rattle.aig_handles.specs.Reading.{HasNoName, Lists, NamesOr, named_list};

use crate::status::{NO_NAME, NOT_UTF8, RANGE};
use aig::Aig;
use aig_giving::{DONE, EMPTY, MEMORY, give, give_made};
use aig_held::{Handle, Held};
use std::alloc::Global;
use std::str::from_utf8;

/// Gives the name of a node.
fn get_symbol(aig: &Aig, node: usize, out: &mut [u8], needed: &mut usize) -> u32
    ensures { GivesOr (λ name. get aig.now.names node ≡ Some name) result out.old out.new needed.old
        needed.new (HasNoName node result aig.now) }
{
    match aig.get_symbol(node) {
        Ok(Some(name)) => give(name.as_bytes(), out, needed),
        Ok(None) => NO_NAME,
        Err(_) => MEMORY,
    }
}

/// Gives the name of a node.
#[unsafe(no_mangle)]
pub extern "C" fn aig_circuit_get_symbol(
    alloc: Global,
    circuit: &mut Handle,
    node: usize,
    out: &mut [u8],
    needed: &mut usize,
) -> u32
    ensures kept { held_in circuit.new ≡ held_in circuit.old }
    ensures name { OnHeld circuit.old circuit.new result
        ((out.new ≡ out.old) × (needed.new ≡ needed.old)) (λ c _. GivesOr (λ name. get c.names
        node ≡ Some name) result out.old out.new needed.old
        needed.new (HasNoName node result c)) }
{
    lend!(alloc, circuit, aig => get_symbol(&*aig, node, out, needed))
}

/// Names a node.
fn set_symbol(aig: &mut Aig, node: usize, name: &[u8]) -> u32
    ensures { NamesOr node name.now result aig.old aig.new }
{
    if !aig.has_node(node) {
        return RANGE;
    }
    match from_utf8(name) {
        Ok(text) => match aig.set_symbol(node, text) {
            Ok(()) => DONE,
            Err(_) => MEMORY,
        },
        Err(_) => NOT_UTF8,
    }
}

/// Names a node, in place of an older name.
#[unsafe(no_mangle)]
pub extern "C" fn aig_circuit_set_symbol(
    alloc: Global,
    circuit: &mut Handle,
    node: usize,
    name: &[u8],
) -> u32
    ensures { OnHeld circuit.old circuit.new result ⊤ (NamesOr node name.now result) }
{
    lend!(alloc, circuit, aig => set_symbol(&mut *aig, node, name))
}

/// Whether a node has a name.
#[tactic(auto, using(aig_circuit::proofs::Names::get_names))]
fn has_name(aig: &Aig, node: usize) -> bool
    ensures { result ≡ contains_key aig.now.names node }
{
    aig.symbols().contains_key(&node)
}

/// The numbers of the nodes that have names.
fn named_list(alloc: Global, aig: &Aig) -> Result<Vec<usize>, u32>
    ensures list { IfOk result (λ v. v.items ≡ named_list aig.now) }
    ensures refused { IfErr result (λ status. status ≡ MEMORY) }
{
    match aig
        .nodes_range_with_false()
        .filter(|node| has_name(aig, *node))
        .collect(alloc)
    {
        Ok(list) => Ok(list),
        Err(_) => Err(MEMORY),
    }
}

/// Gives the numbers of the nodes that have names.
fn give_symbols(alloc: Global, aig: &Aig, out: &mut [usize], needed: &mut usize) -> u32
    ensures { Lists named_list result out.old out.new needed.old needed.new (result ≡ MEMORY)
        aig.now }
{
    give_made(named_list(alloc, aig), out, needed)
}

/// Gives the numbers of the nodes that have names, rising.
#[unsafe(no_mangle)]
pub extern "C" fn aig_circuit_symbols(
    alloc: Global,
    circuit: &mut Handle,
    out: &mut [usize],
    needed: &mut usize,
) -> u32
    ensures kept { held_in circuit.new ≡ held_in circuit.old }
    ensures list { OnHeld circuit.old circuit.new result
        ((out.new ≡ out.old) × (needed.new ≡ needed.old)) (λ c _. Lists named_list result out.old
        out.new needed.old needed.new (result ≡ MEMORY) c) }
{
    lend!(alloc, circuit, aig => give_symbols(alloc, &*aig, out, needed))
}

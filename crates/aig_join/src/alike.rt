//! Miters of circuits whose registers with open start begin alike.

ghost use Rattle.std.specs.Prelude.{◌≡◌, ℕ, if◌then◌else◌, is_none, IfOk, List, None, OnOk, Some, length, map, option_map, string_bytes, zip};
ghost use Rattle.std.specs.FinMap.{get};
ghost use Rattle.std.specs.HashMap.{get_by_text};
ghost use Rattle.std.specs.Option.{option_and_then, option_or};
ghost use Rattle.std.specs.Str.{bytes_eq};
ghost use Rattle.aig_circuit.specs.Circuit.{IsCircuit};
ghost use Rattle.aig_circuit.specs.View.{lists_circuit, names_of};
ghost use Rattle.aig_join.specs.Alike.{IsAlikeMiter, IsMiterFrom, started};
ghost use Rattle.aig_join.specs.Miter.{HaveSameCounts};
ghost use Rattle.aig_join.specs.Starts.{circuit_registers, named_place, open_places, partners};

use crate::comparing::miter;
use crate::starts::{Matching, Starts};
use aig_base::MemoryError;
use aig_change::gate_init_to_constraint;
use aig_circuit::{AigEdge, AigLatch, CircuitLists, CircuitView};
use std::collections::HashMap;

/// The leaves of the latches with open start, in order.
fn open_leaves(circuit: &CircuitView<'_>) -> Result<Vec<usize>, MemoryError>
    ensures { IfOk result (λ leaves. leaves.items ≡ open_places (circuit_registers circuit.now)) }
{
    let mut leaves = Vec::new(circuit.allocator());
    for latch in circuit.latchs() {
        if latch.init().is_none() {
            leaves.push(latch.input())?;
        }
    }
    Ok(leaves)
}

/// For each latch of the second circuit with open start the leaf of the next of the first circuit, as long as there is one.
fn partners_by_order(
    a: &CircuitView<'_>,
    b: &CircuitView<'_>,
) -> Result<Vec<Option<usize>>, MemoryError>
    ensures { IfOk result (λ made. made.items
        ≡ partners Matching.ByOrder (circuit_registers a.now) (circuit_registers b.now)) }
{
    let leaves = open_leaves(a)?;
    let mut made = Vec::with_capacity(b.allocator(), b.latchs().len())?;
    let mut used = 0;
    for latch in b.latchs() {
        if latch.init().is_none() {
            made.push(leaves.get(used).copied())?;
            used += 1;
        } else {
            made.push(None)?;
        }
    }
    Ok(made)
}

/// The name of a latch with open start, if it has one.
#[tactic(auto, using(aig_circuit::proofs::Names::get_names))]
fn open_name<'a>(names: &'a HashMap<usize, String>, latch: &AigLatch) -> Option<&'a String>
    ensures { option_map (λ name. string_bytes name.now) result
        ≡ if is_none latch.now.init then get (names_of names.now.entries) latch.now.input
        else None }
{
    if latch.init().is_none() {
        names.get(&latch.input())
    } else {
        None
    }
}

/// Puts the leaf under the name, if there is none under it.
fn put_first(
    leaves: &mut HashMap<String, usize>,
    name: &String,
    leaf: usize,
) -> Result<(), MemoryError>
    ensures { OnOk result ((text : List ℕ) → get_by_text leaves.new text
        ≡ option_or (get_by_text leaves.old text)
        (if bytes_eq (string_bytes name.now) text then Some leaf else None)) }
{
    if !leaves.contains_key(name.as_str()) {
        let _older = leaves.insert(name.clone()?, leaf)?;
    }
    Ok(())
}

/// The leaf of the first latch with open start of each name.
fn named_leaves(circuit: &CircuitView<'_>) -> Result<HashMap<String, usize>, MemoryError>
    ensures { IfOk result (λ leaves. (text : List ℕ)
        → get_by_text leaves text ≡ named_place (circuit_registers circuit.now) (Some text)) }
{
    let mut leaves = HashMap::new(circuit.allocator());
    for latch in circuit.latchs() {
        if let Some(name) = open_name(circuit.names(), latch) {
            put_first(&mut leaves, name, latch.input())?;
        }
    }
    Ok(leaves)
}

/// The leaf under the name of a latch with open start, if there is one.
fn leaf_of_name(
    leaves: &HashMap<String, usize>,
    names: &HashMap<usize, String>,
    latch: &AigLatch,
) -> Option<usize>
    ensures { result ≡ if is_none latch.now.init
        then option_and_then (get_by_text leaves.now)
        (get (names_of names.now.entries) latch.now.input)
        else None }
{
    let name = open_name(names, latch)?;
    leaves.get(name.as_str()).copied()
}

/// For each latch of the second circuit with open start the leaf of the first one of its name in the first circuit, if there is one.
fn partners_by_name(
    a: &CircuitView<'_>,
    b: &CircuitView<'_>,
) -> Result<Vec<Option<usize>>, MemoryError>
    ensures { IfOk result (λ made. made.items
        ≡ partners Matching.ByName (circuit_registers a.now) (circuit_registers b.now)) }
{
    let leaves = named_leaves(a)?;
    let mut made = Vec::with_capacity(b.allocator(), b.latchs().len())?;
    for latch in b.latchs() {
        made.push(leaf_of_name(&leaves, b.names(), latch))?;
    }
    Ok(made)
}

/// For each latch of the second circuit the leaf of its partner in the first, if it has one.
fn partners_of(
    matching: Matching,
    a: &CircuitView<'_>,
    b: &CircuitView<'_>,
) -> Result<Vec<Option<usize>>, MemoryError>
    ensures { IfOk result (λ made. made.items
        ≡ partners matching (circuit_registers a.now) (circuit_registers b.now)) }
{
    match matching {
        Matching::ByOrder => partners_by_order(a, b),
        Matching::ByName => partners_by_name(a, b),
    }
}

/// The latch with an initial edge to this leaf, if there is one.
fn started(place: Option<usize>, latch: &AigLatch) -> AigLatch
    ensures { result ≡ started place latch.now }
{
    match place {
        Some(leaf) => AigLatch::new(latch.input(), latch.next(), Some(AigEdge::new(leaf, false))),
        None => *latch,
    }
}

/// Gives each latch an initial edge to the leaf beside it, if there is one.
fn start_with(latchs: &mut [AigLatch], places: &[Option<usize>])
    requires { length places.now ≡ length latchs.old }
    ensures { latchs.new ≡ map (λ pair. started pair.0 pair.1) (zip places.now latchs.old) }
{
    for (i, latch) in latchs.iter_mut().enumerate() {
        *latch = started(places[i], latch);
    }
}

/// Returns the miter of two circuits, with matched registers that start alike.
fn miter_alike(
    matching: Matching,
    a: &CircuitView<'_>,
    b: &CircuitView<'_>,
) -> Result<CircuitLists, MemoryError>
    requires { HaveSameCounts a.now b.now }
    ensures miter { IfOk result
        (λ lists. IsAlikeMiter matching a.now b.now (lists_circuit lists)) }
    ensures circuit { IfOk result (λ lists. IsCircuit (lists_circuit lists)) }
{
    let mut lists = miter(a, b)?;
    let places = partners_of(matching, a, b)?;
    start_with(&mut lists.latchs[a.latchs().len()..], &places);
    gate_init_to_constraint(&mut lists)?;
    Ok(lists)
}

/// Returns the miter of two circuits (`miter`), with registers that start as is said. Under `Alike` constraints say of the first step
/// that matched registers have the same value, and that each latch with an initial edge that isn't constant has its value; where there
/// are such, one latch is added that is true in the first step alone. The one error is refused memory.
pub fn miter_from(
    starts: Starts,
    a: &CircuitView<'_>,
    b: &CircuitView<'_>,
) -> Result<CircuitLists, MemoryError>
    requires { HaveSameCounts a.now b.now }
    ensures miter { IfOk result (λ lists. IsMiterFrom starts a.now b.now (lists_circuit lists)) }
    ensures circuit { IfOk result (λ lists. IsCircuit (lists_circuit lists)) }
{
    match starts {
        Starts::Apart => miter(a, b),
        Starts::Alike(matching) => miter_alike(matching, a, b),
    }
}

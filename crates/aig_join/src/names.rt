//! Names of the second circuit's nodes in the joint one.

ghost use Rattle.std.specs.Prelude.{◌≡◌, ◌<◌, ℕ, IfOk, List, OnOk, Some, All, length, option_map, slice_index, string_bytes};
ghost use Rattle.std.specs.FinMap.{get};
ghost use Rattle.std.specs.HashSet.{contains_text};
ghost use Rattle.aig_circuit.specs.View.{names_of};
ghost use Rattle.aig_join.specs.Names.{is_name_of, other_name, with_names};

use crate::numbers::JointNumbers;
use aig_base::MemoryError;
use aig_renumber::Numbering;
use std::alloc::Global;
use std::collections::{HashMap, HashSet};

/// What stands before a name of the second circuit.
const OTHER: &str = "other.";

/// The names that these nodes have.
pub(crate) fn node_names(
    alloc: Global,
    names: &HashMap<usize, String>,
    nodes: &[usize],
) -> Result<HashSet<String>, MemoryError>
    ensures { IfOk result (λ set. (text : List ℕ)
        → contains_text set text ≡ is_name_of (names_of names.now.entries) nodes.now text) }
{
    let mut set = HashSet::new(alloc);
    for n in nodes {
        if let Some(name) = names.get(n) {
            let _is_new = set.insert(name.clone()?)?;
        }
    }
    Ok(set)
}

/// The name behind the prefix, or none where that is taken.
fn behind_prefix(
    alloc: Global,
    taken: &HashSet<String>,
    name: &String,
) -> Result<Option<String>, MemoryError>
    ensures { IfOk result (λ made. option_map string_bytes made
        ≡ other_name (contains_text taken.now) (Some (string_bytes name.now))) }
{
    let mut text = String::new(alloc);
    text.push_str(OTHER)?;
    text.push_str(name)?;
    if taken.contains(text.as_str()) {
        Ok(None)
    } else {
        Ok(Some(text))
    }
}

/// The name that a node of the second circuit gets, if it has one and that isn't taken.
#[tactic(auto, using(aig_circuit::proofs::Names::get_names))]
fn other_name(
    alloc: Global,
    taken: &HashSet<String>,
    theirs: &HashMap<usize, String>,
    n: usize,
) -> Result<Option<String>, MemoryError>
    ensures { IfOk result (λ made. option_map string_bytes made
        ≡ other_name (contains_text taken.now) (get (names_of theirs.now.entries) n)) }
{
    match theirs.get(&n) {
        Some(name) => behind_prefix(alloc, taken, name),
        None => Ok(None),
    }
}

/// Gives the nodes of the second circuit their names behind the prefix, but those that are taken, under their new numbers.
pub(crate) fn name_others(
    alloc: Global,
    names: &mut HashMap<usize, String>,
    numbers: &JointNumbers<'_>,
    taken: &HashSet<String>,
    theirs: &HashMap<usize, String>,
    nodes: &[usize],
) -> Result<(), MemoryError>
    requires { All (λ n. n < length numbers.now.table.now) nodes.now }
    ensures { OnOk result (names_of names.new.entries
        ≡ with_names (slice_index numbers.now.table.now) (contains_text taken.now)
        (names_of theirs.now.entries) (names_of names.old.entries) nodes.now) }
{
    for n in nodes {
        if let Some(text) = other_name(alloc, taken, theirs, *n)? {
            let _older = names.insert(numbers.number(*n), text)?;
        }
    }
    Ok(())
}

//! Steps that change the property lists of a circuit.

ghost use Rattle.std.specs.Prelude.{◌≡◌};
ghost use Rattle.aig_circuit.specs.PropLists.{edges_of};

use crate::script::Refusal;
use crate::words::{Line, edge, edges, find, has_edges};
use aig::{Aig, AigEdge, PropList};
use std::alloc::Global;

/// What is done to a property list.
pub(crate) enum Entry {
    Push,
    Set,
    Clear,
    Justice,
    ClearJustice,
}

/// The steps of this file.
pub(crate) const STEPS: [(&str, Entry); 5] = [
    ("push", Entry::Push),
    ("set", Entry::Set),
    ("clear", Entry::Clear),
    ("justice", Entry::Justice),
    ("clear_justice", Entry::ClearJustice),
];

const LISTS: [(&str, PropList); 4] = [
    ("outputs", PropList::Outputs),
    ("bads", PropList::Bads),
    ("constraints", PropList::Constraints),
    ("fairness", PropList::Fairness),
];

/// The list that the first word names, if it names one.
fn list_of(words: &[&str]) -> Option<PropList> {
    let [name, ..] = words else {
        return None;
    };
    find(&LISTS, name).copied()
}

/// The edges of a property list.
fn entries(aig: &Aig, list: PropList) -> &[AigEdge]
    ensures { result.now ≡ edges_of list aig.now }
{
    match list {
        PropList::Outputs => aig.outputs(),
        PropList::Bads => aig.bads(),
        PropList::Constraints => aig.constraints(),
        PropList::Fairness => aig.fairness(),
    }
}

/// Appends an edge.
fn push(aig: &mut Aig, list: PropList, numbers: &[usize]) -> Result<(), Refusal> {
    let [_, e] = numbers else {
        return Err(Refusal::NotAllowed);
    };
    let e = edge(*e);
    if !aig.has_edge(e) {
        return Err(Refusal::NotAllowed);
    }
    Ok(aig.push_edge(list, e)?)
}

/// Puts an edge in the place of another.
fn set(aig: &mut Aig, list: PropList, numbers: &[usize]) -> Result<(), Refusal> {
    let [_, i, e] = numbers else {
        return Err(Refusal::NotAllowed);
    };
    let e = edge(*e);
    if *i >= entries(aig, list).len() || !aig.has_edge(e) {
        return Err(Refusal::NotAllowed);
    }
    aig.set_edge(list, *i, e);
    Ok(())
}

/// Appends a justice set.
fn push_justice(alloc: Global, aig: &mut Aig, literals: &[usize]) -> Result<(), Refusal> {
    let set = edges(alloc, literals)?;
    if !has_edges(aig, &set) {
        return Err(Refusal::NotAllowed);
    }
    Ok(aig.push_justice(set)?)
}

/// Changes the list that the first word names.
fn change_list(aig: &mut Aig, step: &Entry, line: Line<'_>) -> Result<(), Refusal> {
    let Some(list) = list_of(line.words) else {
        return Err(Refusal::NotAllowed);
    };
    match step {
        Entry::Push => push(aig, list, line.numbers),
        Entry::Set => set(aig, list, line.numbers),
        _ => {
            aig.clear_edges(list);
            Ok(())
        }
    }
}

/// Takes a step of this file.
pub(crate) fn change(
    alloc: Global,
    aig: &mut Aig,
    step: &Entry,
    line: Line<'_>,
) -> Result<(), Refusal> {
    match step {
        Entry::Justice => push_justice(alloc, aig, line.numbers),
        Entry::ClearJustice => {
            aig.clear_justice();
            Ok(())
        }
        _ => change_list(aig, step, line),
    }
}

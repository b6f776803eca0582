//! Steps that add leaves to a circuit, or change latches and names.

use crate::script::Refusal;
use crate::words::{edge, first_edge, has_optional};
use aig::Aig;

/// What is done to a leaf.
pub(crate) enum Leaf {
    New,
    Input,
    AddInput,
    Latch,
    AddLatch,
    Next,
    Init,
}

/// The steps of this file, but that of names.
pub(crate) const STEPS: [(&str, Leaf); 7] = [
    ("leaf", Leaf::New),
    ("input", Leaf::Input),
    ("add_input", Leaf::AddInput),
    ("latch", Leaf::Latch),
    ("add_latch", Leaf::AddLatch),
    ("next", Leaf::Next),
    ("init", Leaf::Init),
];

/// Adds a leaf, which stays free.
fn new_leaf(aig: &mut Aig) -> Result<(), Refusal> {
    aig.new_leaf_node()?;
    Ok(())
}

/// Adds an input.
fn new_input(aig: &mut Aig) -> Result<(), Refusal> {
    aig.new_input()?;
    Ok(())
}

/// Makes a free leaf an input.
fn add_input(aig: &mut Aig, numbers: &[usize]) -> Result<(), Refusal> {
    match numbers {
        [id] if aig.is_free_leaf(*id) => Ok(aig.add_input(*id)?),
        _ => Err(Refusal::NotAllowed),
    }
}

/// Adds a latch with a new leaf.
fn new_latch(aig: &mut Aig, numbers: &[usize]) -> Result<(), Refusal> {
    let [next, init @ ..] = numbers else {
        return Err(Refusal::NotAllowed);
    };
    let (next, init) = (edge(*next), first_edge(init));
    if !aig.has_edge(next) || !has_optional(aig, init) {
        return Err(Refusal::NotAllowed);
    }
    aig.new_latch(next, init)?;
    Ok(())
}

/// Adds a latch with a leaf that is free.
fn add_latch(aig: &mut Aig, numbers: &[usize]) -> Result<(), Refusal> {
    let [id, next, init @ ..] = numbers else {
        return Err(Refusal::NotAllowed);
    };
    let (next, init) = (edge(*next), first_edge(init));
    if !aig.is_free_leaf(*id) || !aig.has_edge(next) || !has_optional(aig, init) {
        return Err(Refusal::NotAllowed);
    }
    Ok(aig.add_latch(*id, next, init)?)
}

/// Replaces the next edge of a latch.
fn set_next(aig: &mut Aig, numbers: &[usize]) -> Result<(), Refusal> {
    let [i, next] = numbers else {
        return Err(Refusal::NotAllowed);
    };
    let next = edge(*next);
    if *i >= aig.latchs().len() || !aig.has_edge(next) {
        return Err(Refusal::NotAllowed);
    }
    aig.set_next(*i, next);
    Ok(())
}

/// Replaces the initial edge of a latch.
fn set_init(aig: &mut Aig, numbers: &[usize]) -> Result<(), Refusal> {
    let [i, init @ ..] = numbers else {
        return Err(Refusal::NotAllowed);
    };
    let init = first_edge(init);
    if *i >= aig.latchs().len() || !has_optional(aig, init) {
        return Err(Refusal::NotAllowed);
    }
    aig.set_init(*i, init);
    Ok(())
}

/// Names a node.
pub(crate) fn name(aig: &mut Aig, id: usize, name: &str) -> Result<(), Refusal> {
    if !aig.has_node(id) {
        return Err(Refusal::NotAllowed);
    }
    Ok(aig.set_symbol(id, name)?)
}

/// Takes a step of this file.
pub(crate) fn change(aig: &mut Aig, step: &Leaf, numbers: &[usize]) -> Result<(), Refusal> {
    match step {
        Leaf::New => new_leaf(aig),
        Leaf::Input => new_input(aig),
        Leaf::AddInput => add_input(aig, numbers),
        Leaf::Latch => new_latch(aig, numbers),
        Leaf::AddLatch => add_latch(aig, numbers),
        Leaf::Next => set_next(aig, numbers),
        Leaf::Init => set_init(aig, numbers),
    }
}

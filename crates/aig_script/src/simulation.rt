//! Steps that simulate in three values.

ghost use Rattle.std.specs.Prelude.{◌≡◌, All, IfOk, IsTrue, length};

use crate::script::{Refusal, Script};
use crate::show::{call, print, print_answer};
use crate::words::{Line, edge};
use aig::{Aig, AigEdge, TernarySimulate};
use aig_base::{Lbool, MemoryError};
use std::alloc::Global;
use std::io::Print;

/// The value of a letter: `0`, `1`, or another where it isn't known.
pub(crate) fn value(letter: u8) -> Lbool {
    match letter {
        b'0' => Lbool::FALSE,
        b'1' => Lbool::TRUE,
        _ => Lbool::NONE,
    }
}

/// The values that a word spells, after an `=`.
fn values(alloc: Global, word: &str) -> Result<Vec<Lbool>, MemoryError> {
    let mut values = Vec::new(alloc);
    for letter in word.bytes().skip(1) {
        values.push(value(letter))?;
    }
    Ok(values)
}

/// The values of all nodes.
fn nodes(alloc: Global, circuit: &Aig, words: &[&str]) -> Result<Vec<Lbool>, Refusal> {
    let [inputs, latches] = words else {
        return Err(Refusal::NotAllowed);
    };
    let (inputs, latches) = (values(alloc, inputs)?, values(alloc, latches)?);
    if inputs.len() != circuit.inputs().len() || latches.len() != circuit.latchs().len() {
        return Err(Refusal::NotAllowed);
    }
    Ok(circuit.ternary_simulate(&inputs, &latches)?)
}

/// Whether each list has so many values.
fn are_as_long(lists: &[Vec<Lbool>], count: usize) -> bool
    ensures { IsTrue result → All (λ list. length list.items ≡ count) lists.now }
{
    lists.iter().all(|list| list.len() == count)
}

/// The values that each of the words spells.
fn steps(alloc: Global, words: &[&str]) -> Result<Vec<Vec<Lbool>>, MemoryError> {
    let mut steps = Vec::new(alloc);
    for word in words {
        steps.push(values(alloc, word)?)?;
    }
    Ok(steps)
}

/// A simulation that begins in the state that a word spells.
fn begun<'a>(script: &'a Script, state: &str) -> Result<TernarySimulate<'a>, Refusal>
    ensures { IfOk result (λ simulation. simulation.circuit ≡ script.now.circuit) }
{
    let state = values(script.alloc, state)?;
    if state.len() != script.circuit.latchs().len() {
        return Err(Refusal::NotAllowed);
    }
    Ok(TernarySimulate::new(&script.circuit, state))
}

/// Values a step.
fn step(
    circuit: &Aig,
    simulation: &mut TernarySimulate<'_>,
    inputs: Vec<Lbool>,
) -> Result<(), Refusal>
    requires { simulation.old.circuit ≡ circuit.now }
    ensures { simulation.new.circuit ≡ circuit.now }
{
    if inputs.len() != circuit.inputs().len() {
        return Err(Refusal::NotAllowed);
    }
    Ok(simulation.simulate(inputs)?)
}

/// Values steps in one call, and gives the values of an edge.
fn all_steps(
    circuit: &Aig,
    simulation: &mut TernarySimulate<'_>,
    e: AigEdge,
    steps: Vec<Vec<Lbool>>,
) -> Result<Vec<Lbool>, Refusal>
    requires { simulation.old.circuit ≡ circuit.now }
    ensures { simulation.new.circuit ≡ circuit.now }
{
    if !are_as_long(&steps, circuit.inputs().len()) || !circuit.has_edge(e) {
        return Err(Refusal::NotAllowed);
    }
    Ok(simulation.simulate_all(steps, e)?)
}

/// Prints the value of a node, and that of its inverse, if it has one.
fn print_value<R: Print>(rt: &R, simulation: &TernarySimulate<'_>, id: usize) {
    let e = AigEdge::from(id);
    if simulation.has_value(e) && simulation.has_value(!e) {
        let (value, inverse) = (simulation.value(e), simulation.value(!e));
        let _ = print!(rt; " {id}={value:?}/{inverse:?}");
    }
}

/// Prints the value of each node that has one, and that of its inverse.
fn print_values<R: Print>(rt: &R, circuit: &Aig, simulation: &TernarySimulate<'_>) {
    let _ = print!(rt; "values");
    for id in circuit.nodes_range_with_false() {
        print_value(rt, simulation, id);
    }
    let _ = println!(rt; "");
}

/// So many values that are true.
fn ones(alloc: Global, count: usize) -> Result<Vec<Lbool>, MemoryError> {
    Ok(vec![in alloc; Lbool::TRUE; count]?)
}

/// Prints the values of all nodes, and those of a further step with true inputs, which tell the state.
fn print_state<R: Print>(
    rt: &R,
    script: &Script,
    simulation: &mut TernarySimulate<'_>,
) -> Result<(), Refusal>
    requires { simulation.old.circuit ≡ script.now.circuit }
{
    let circuit = &script.circuit;
    print_values(rt, circuit, simulation);
    let inputs = ones(script.alloc, circuit.inputs().len())?;
    step(circuit, simulation, inputs)?;
    print_values(rt, circuit, simulation);
    Ok(())
}

/// Values the steps that words spell one by one, and prints the state then.
fn print_steps<R: Print>(
    rt: &R,
    script: &Script,
    simulation: &mut TernarySimulate<'_>,
    words: &[&str],
) -> Result<(), Refusal>
    requires { simulation.old.circuit ≡ script.now.circuit }
{
    for word in words {
        let inputs = values(script.alloc, word)?;
        print_answer(rt, &call!(rt, step(&script.circuit, simulation, inputs)));
    }
    print_state(rt, script, simulation)
}

/// Values steps one by one from a state, and prints the state then.
fn simulate<R: Print>(rt: &R, script: &Script, words: &[&str]) -> Result<(), Refusal> {
    let [state, inputs @ ..] = words else {
        return Err(Refusal::NotAllowed);
    };
    let mut simulation = begun(script, state)?;
    print_steps(rt, script, &mut simulation, inputs)
}

/// Prints the values of an edge over the steps that words spell.
fn print_all<R: Print>(
    rt: &R,
    script: &Script,
    simulation: &mut TernarySimulate<'_>,
    e: AigEdge,
    words: &[&str],
) -> Result<(), Refusal>
    requires { simulation.old.circuit ≡ script.now.circuit }
    ensures { simulation.new.circuit ≡ script.now.circuit }
{
    let steps = steps(script.alloc, words)?;
    print_answer(
        rt,
        &call!(rt, all_steps(&script.circuit, simulation, e, steps)),
    );
    Ok(())
}

/// Values a first step, and prints the values of an edge over the steps after it, and the state then.
fn print_rest<R: Print>(
    rt: &R,
    script: &Script,
    simulation: &mut TernarySimulate<'_>,
    e: AigEdge,
    words: &[&str],
) -> Result<(), Refusal>
    requires { simulation.old.circuit ≡ script.now.circuit }
{
    let [first, rest @ ..] = words else {
        return Err(Refusal::NotAllowed);
    };
    let inputs = values(script.alloc, first)?;
    step(&script.circuit, simulation, inputs)?;
    print_all(rt, script, simulation, e, rest)?;
    print_state(rt, script, simulation)
}

/// Prints the values of an edge over steps from a state, of all or of the rest after a first one.
fn simulate_edge<R: Print>(
    rt: &R,
    script: &Script,
    line: Line<'_>,
    all: bool,
) -> Result<(), Refusal> {
    let ([e, ..], [_, state, inputs @ ..]) = (line.numbers, line.words) else {
        return Err(Refusal::NotAllowed);
    };
    let mut simulation = begun(script, state)?;
    if all {
        print_all(rt, script, &mut simulation, edge(*e), inputs)
    } else {
        print_rest(rt, script, &mut simulation, edge(*e), inputs)
    }
}

/// Prints the values of all nodes.
fn ternary_simulate<R: Print>(rt: &R, script: &Script, words: &[&str]) -> Result<(), Refusal> {
    print_answer(rt, &call!(rt, nodes(script.alloc, &script.circuit, words)));
    Ok(())
}

/// Takes a step of this file, if it is one.
pub(crate) fn take<R: Print>(rt: &R, script: &Script, line: Line<'_>) -> bool {
    let taken = match line.name {
        "ternary_simulate" => ternary_simulate(rt, script, line.words),
        "simulate" => simulate(rt, script, line.words),
        "simulate_all" => simulate_edge(rt, script, line, true),
        "simulate_rest" => simulate_edge(rt, script, line, false),
        _ => return false,
    };
    if let Err(refusal) = taken {
        print(rt, &refusal);
    }
    true
}

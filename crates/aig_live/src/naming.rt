//! Names of leaves that are added.

ghost use Rattle.std.specs.Prelude.{◌≡◌, ◌+◌, ◌<◌, ◌≤◌, ◌^◌, OnOk, length, string_bytes};
ghost use Rattle.std.specs.FinMap.{get, insert};
ghost use Rattle.aig_circuit.specs.View.{names_of};
ghost use Rattle.aig_join.specs.Names.{with_name};
ghost use Rattle.aig_live.specs.Names.{copy_name, copy_names, live_names, numbered, rounds_names, with_row};

use aig_base::MemoryError;
use aig_circuit::CircuitView;
use std::alloc::Global;
use std::collections::HashMap;

/// Gives a node a name.
#[tactic(auto, using(aig_circuit::proofs::Names::names_insert))]
fn put_name(
    names: &mut HashMap<usize, String>,
    node: usize,
    name: String,
) -> Result<(), MemoryError>
    ensures { OnOk result (names_of names.new.entries
        ≡ insert (names_of names.old.entries) node (string_bytes name)) }
{
    let _older = names.insert(node, name)?;
    Ok(())
}

/// Gives so many nodes, from a number on, names of a word and a number each, from another one on.
fn put_numbered(
    alloc: Global,
    names: &mut HashMap<usize, String>,
    node: usize,
    word: &str,
    first: usize,
    count: usize,
) -> Result<(), MemoryError>
    requires nodes { node + count < 2 ^ 64 }
    requires numbers { first + count ≤ 2 ^ 64 }
    ensures { OnOk result (names_of names.new.entries
        ≡ with_row (names_of names.old.entries) node (numbered word.now first count)) }
{
    for i in 0..count {
        let number = first + i;
        let name = format!(in alloc; "{word}{number}")?;
        put_name(names, node + i, name)?;
    }
    Ok(())
}

/// Gives the copy of a node the node's name behind a word, if it has one.
#[tactic(auto, using(aig_circuit::proofs::Names::get_names))]
fn put_copy(
    names: &mut HashMap<usize, String>,
    copy: usize,
    circuit: &CircuitView<'_>,
    node: usize,
) -> Result<(), MemoryError>
    ensures { OnOk result (names_of names.new.entries ≡ with_name (names_of names.old.entries)
        copy (copy_name (get circuit.now.names node))) }
{
    match circuit.names().get(&node) {
        Some(own) => {
            let name = format!(in circuit.allocator(); "saved {own}")?;
            put_name(names, copy, name)
        }
        None => Ok(()),
    }
}

/// Gives the copies of the latches, which are the nodes from a number on, their names.
fn put_copies(
    names: &mut HashMap<usize, String>,
    node: usize,
    circuit: &CircuitView<'_>,
) -> Result<(), MemoryError>
    requires { node + length circuit.now.latchs < 2 ^ 64 }
    ensures { OnOk result (names_of names.new.entries
        ≡ with_row (names_of names.old.entries) node (copy_names circuit.now)) }
{
    for (i, latch) in circuit.latchs().iter().enumerate() {
        put_copy(names, node + i, circuit, latch.input())?;
    }
    Ok(())
}

/// Gives the leaves that a live circuit has more their names.
pub(crate) fn put_live_names(
    names: &mut HashMap<usize, String>,
    circuit: &CircuitView<'_>,
    edges: usize,
) -> Result<(), MemoryError>
    requires { length circuit.now.nodes + 2 + length circuit.now.latchs + edges < 2 ^ 64 }
    ensures { OnOk result (names_of names.new.entries ≡ with_row (names_of names.old.entries)
        (length circuit.now.nodes) (live_names circuit.now edges)) }
{
    let alloc = circuit.allocator();
    let n = circuit.nodes().len();
    put_name(names, n, String::from_str(alloc, "save")?)?;
    put_name(names, n + 1, String::from_str(alloc, "saved")?)?;
    put_copies(names, n + 2, circuit)?;
    let seen = n + 2 + circuit.latchs().len();
    put_numbered(alloc, names, seen, "seen ", 0, edges)
}

/// Gives the leaves from a number on, which a circuit that counts rounds has more, their names.
pub(crate) fn put_rounds_names(
    alloc: Global,
    names: &mut HashMap<usize, String>,
    node: usize,
    edges: usize,
    count: usize,
) -> Result<(), MemoryError>
    requires { node + edges + count < 2 ^ 64 }
    ensures { OnOk result (names_of names.new.entries
        ≡ with_row (names_of names.old.entries) node (rounds_names edges count)) }
{
    put_numbered(alloc, names, node, "met ", 0, edges)?;
    put_numbered(alloc, names, node + edges, "round ", 1, count)
}

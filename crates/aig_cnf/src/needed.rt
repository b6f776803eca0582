//! Which gates need clauses, and how many clauses these have.

ghost use Rattle.std.specs.Prelude.{◌≡◌, ◌<◌, ◌≤◌, ◌^◌, ℕ, IfOk, List, false, length, slice_index_or};
ghost use Rattle.aig_base.specs.declared.logic.literal.Lit.{Lit};
ghost use Rattle.aig_base.specs.Clauses.{AreBelow};
ghost use Rattle.aig_circuit.specs.Circuit.{AreNodes};
ghost use Rattle.aig_cnf.specs.Cnf.{AreNeeded, clauses_of};
ghost use Rattle.aig_cnf.specs.Marks.{AddsNeededMarks, AreClausesOf};

use crate::form::{Form, find_form};
use crate::marks::{find_roots, mark_form};
use aig_base::MemoryError;
use aig_circuit::{AigNode, CircuitView};
use std::alloc::Global;

/// Which gates of a circuit need clauses, and how many clauses the circuit has.
#[derive(Drop)]
pub struct NeededGates {
    /// For each node whether it needs clauses, if it is a gate.
    pub marks: Vec<bool>,
    /// How many clauses there are, that of variable 0 among them.
    pub clauses: usize,
}

/// How many clauses a form has.
fn count_clauses(form: Form) -> usize
    ensures count { (n : ℕ) → result ≡ length (clauses_of n form) }
    ensures few { result ≤ 4 }
{
    match form {
        Form::AndOf(_, _) => 3,
        Form::XorOf(_, _) | Form::IteOf(_, _, _) => 4,
    }
}

/// Marks what the form of node `id` names, where the node is marked and a gate, and returns how many clauses it has.
fn mark_gate(marks: &mut [bool], nodes: &[AigNode], id: usize, optimize: bool) -> usize
    requires sound { AreNodes nodes.now }
    requires there { id < length nodes.now }
    requires marks { length marks.old ≡ length nodes.now }
    ensures marks { AddsNeededMarks nodes.now optimize marks.old marks.new id }
    ensures clauses { (clauses : List (List Lit)) × (result ≡ length clauses)
        × AreBelow (length nodes.now) clauses
        × AreClausesOf nodes.now optimize (slice_index_or marks.old id false) id clauses }
    ensures few { result ≤ 4 }
{
    if marks[id]
        && let Some(form) = find_form(nodes, id, optimize)
    {
        mark_form(marks, form);
        return count_clauses(form);
    }
    0
}

/// Finds which gates need clauses, and how many clauses `encode` makes. Takes a byte a node. Requires at most 2^31 nodes. The one
/// error is refused memory.
pub fn find_needed(
    alloc: Global,
    circuit: &CircuitView<'_>,
    optimize: bool,
) -> Result<NeededGates, MemoryError>
    requires { length circuit.now.nodes ≤ 2 ^ 31 }
    ensures { IfOk result
        (λ needed. AreNeeded circuit.now optimize needed.marks.items needed.clauses) }
{
    let nodes = circuit.nodes();
    let mut marks = find_roots(alloc, circuit)?;
    let mut clauses = 1;
    for id in (1..nodes.len()).rev() {
        clauses += mark_gate(&mut marks, nodes, id, optimize);
    }
    Ok(NeededGates { marks, clauses })
}

//! The clauses of a circuit (Tseitin encoding).

ghost use Rattle.std.specs.Prelude.{◌≡◌, ◌-◌, ◌<◌, ◌≤◌, ◌^◌, ◌++◌, ◌∷◌, [], All, IfOk, OnOk, List, false, length, replicate, slice_index_or, slice_set};
ghost use Rattle.aig_base.specs.declared.logic.literal.Lit.{Lit};
ghost use Rattle.aig_base.specs.Clauses.{lit_to};
ghost use Rattle.aig_circuit.specs.Circuit.{AreNodes};
ghost use Rattle.aig_cnf.specs.Cnf.{clauses_of, edges_of_form, FixesRoots, HasClauses, NodeValuesSatisfy};
ghost use Rattle.aig_cnf.specs.Marks.{AddsNeededMarks, AreClausesOf};

use crate::form::{Form, find_form};
use crate::marks::{find_roots, mark_form};
use aig_base::{DagCnf, LitVvec, MemoryError, Var};
use aig_circuit::{AigEdge, AigNode, CircuitView};
use std::alloc::Global;

/// Returns the clauses that say that node `id` has the value of the form.
fn encode_form(alloc: Global, id: usize, form: Form) -> Result<LitVvec, MemoryError>
    requires few { id < 2 ^ 31 }
    requires below { All (λ e. e.node_id < id) (edges_of_form form) }
    ensures { IfOk result (λ rel. rel ≡ clauses_of id form) }
{
    let n = AigEdge::from(id).to_lit();
    match form {
        Form::AndOf(a, b) => LitVvec::cnf_and(alloc, n, &[a.to_lit(), b.to_lit()]),
        Form::XorOf(x, y) => LitVvec::cnf_xor(alloc, n, x.to_lit(), y.to_lit()),
        Form::IteOf(c, t, e) => LitVvec::cnf_ite(alloc, n, c.to_lit(), t.to_lit(), e.to_lit()),
    }
}

/// Returns so many variables: variable 0 with the one clause that it is false, and others without clauses.
fn variables(alloc: Global, count: usize) -> Result<DagCnf, MemoryError>
    requires some { 1 ≤ count }
    requires few { count ≤ 2 ^ 31 }
    ensures { IfOk result
        (λ dag. dag ≡ ((lit_to 0 false ∷ []) ∷ []) ∷ replicate (count - 1) []) }
{
    let mut dag = DagCnf::new(alloc)?;
    for _ in 1..count {
        dag.new_var()?;
    }
    Ok(dag)
}

/// Marks what the form of node `id` names, and adds the clauses of the form, where the node is marked and a gate.
fn add_gate(
    alloc: Global,
    lists: &mut DagCnf,
    marks: &mut [bool],
    nodes: &[AigNode],
    id: usize,
    optimize: bool,
) -> Result<(), MemoryError>
    requires sound { AreNodes nodes.now }
    requires there { id < length nodes.now }
    requires few { length nodes.now ≤ 2 ^ 31 }
    requires lists { length lists.old ≡ length nodes.now }
    requires marks { length marks.old ≡ length nodes.now }
    ensures marks { OnOk result (AddsNeededMarks nodes.now optimize marks.old marks.new id) }
    ensures clauses { OnOk result ((clauses : List (List Lit))
        × (lists.new ≡ slice_set lists.old id (slice_index_or lists.old id [] ++ clauses))
        × AreClausesOf nodes.now optimize (slice_index_or marks.old id false) id clauses) }
{
    if marks[id]
        && let Some(form) = find_form(nodes, id, optimize)
    {
        mark_form(marks, form);
        let rel = encode_form(alloc, id, form)?;
        lists.add_rel(Var::new(id), &rel)?;
    }
    Ok(())
}

/// Encodes a circuit: returns the clauses of the gates that the properties, the next and the initial edges need, with one
/// variable a node, numbered as the node is (Tseitin encoding; crate aig, `cnf`). Variable 0 is false. With `optimize` a
/// gate that is an exclusive or or an if-then-else is encoded as such, and does not need the clauses of its inner gates.
/// Requires at most 2^31 nodes, so that each has a variable. The one error is refused memory.
pub fn encode(
    alloc: Global,
    circuit: &CircuitView<'_>,
    optimize: bool,
) -> Result<DagCnf, MemoryError>
    requires { length circuit.now.nodes ≤ 2 ^ 31 }
    ensures clauses { IfOk result (λ lists. HasClauses circuit.now optimize lists) }
    ensures fixes { IfOk result (λ lists. FixesRoots circuit.now lists) }
    ensures satisfied { IfOk result (λ lists. NodeValuesSatisfy circuit.now lists) }
{
    let nodes = circuit.nodes();
    let mut marks = find_roots(alloc, circuit)?;
    let mut lists = variables(alloc, nodes.len())?;
    for id in (1..nodes.len()).rev() {
        add_gate(alloc, &mut lists, &mut marks, nodes, id, optimize)?;
    }
    Ok(lists)
}

//! Clauses of edges and latches, and those of a query.

ghost use Rattle.std.specs.Prelude.{◌≡◌, ◌<◌, ◌^◌, ◌++◌, ◌∷◌, [], All, IfOk, OnOk, map};
ghost use Rattle.std.specs.List.{flat_map};
ghost use Rattle.aig_circuit.specs.Edge.{lit_of};
ghost use Rattle.aig_runs.specs.Queries.{asking_clauses, start_clauses, unit_clauses, value_clauses, IsThere};

use aig_base::{Lit, LitVvec, MemoryError, Var};
use aig_circuit::{AigEdge, AigLatch};
use std::alloc::Global;

/// Appends the clauses that the node of this number has the value of an edge: one where that is constant, and else two.
fn push_value(extra: &mut LitVvec, node: usize, edge: AigEdge) -> Result<(), MemoryError>
    requires node { node < 2 ^ 31 }
    requires edge { edge.node_id < 2 ^ 31 }
    ensures { OnOk result (extra.new ≡ extra.old ++ value_clauses node edge) }
{
    let var = Var::new(node);
    if edge.is_const() {
        return extra.push(&[Lit::new(var, edge.to_constant())]);
    }
    let other = !edge;
    extra.push(&[!var.lit(), edge.to_lit()])?;
    extra.push(&[var.lit(), other.to_lit()])
}

/// Appends for each latch with an initial edge the clauses that its leaf has that edge's value: one where that is constant,
/// and else two. The one error is refused memory, and then a beginning may have been appended. Requires that the numbers
/// of leaves and of initial edges' nodes are below 2^31, as `fits_lits` of a circuit says.
pub fn push_starts(extra: &mut LitVvec, latchs: &[AigLatch]) -> Result<(), MemoryError>
    requires { All (IsThere (2 ^ 31)) latchs.now }
    ensures { OnOk result (extra.new ≡ extra.old ++ flat_map start_clauses latchs.now) }
{
    for latch in latchs {
        if let Some(start) = latch.init() {
            push_value(extra, latch.input(), start)?;
        }
    }
    Ok(())
}

/// Appends for each edge the clause that it is true, in order. The one error is refused memory, and then a beginning may have
/// been appended. Requires that each node's number is below 2^31, as `fits_lits` of a circuit says of its edges.
pub fn push_units(extra: &mut LitVvec, edges: &[AigEdge]) -> Result<(), MemoryError>
    requires { All (λ e. e.node_id < 2 ^ 31) edges.now }
    ensures { OnOk result (extra.new ≡ extra.old ++ unit_clauses edges.now) }
{
    for edge in edges {
        extra.push(&[edge.to_lit()])?;
    }
    Ok(())
}

/// Appends the one clause that some edge is true, which is empty where there is none. The one error is refused memory. Requires
/// that each node's number is below 2^31, as `fits_lits` of a circuit says of its edges.
pub fn push_any(alloc: Global, extra: &mut LitVvec, edges: &[AigEdge]) -> Result<(), MemoryError>
    requires { All (λ e. e.node_id < 2 ^ 31) edges.now }
    ensures { OnOk result (extra.new ≡ extra.old ++ map lit_of edges.now ∷ []) }
{
    let mut clause = Vec::with_capacity(alloc, edges.len())?;
    for edge in edges {
        clause.push_reserved(edge.to_lit());
    }
    extra.push(&clause)
}

/// Returns the query clauses over lists of a circuit and of that circuit with further steps, in order: for each latch with an
/// initial edge that its leaf has that edge's value, in one clause where the edge is constant and else in two, for each
/// constraint that it holds, and one clause that some bad edge is true, which is empty where there are none. The one error is
/// refused memory.
pub fn query_clauses(
    alloc: Global,
    latchs: &[AigLatch],
    constraints: &[AigEdge],
    bads: &[AigEdge],
) -> Result<LitVvec, MemoryError>
    requires latchs { All (IsThere (2 ^ 31)) latchs.now }
    requires constraints { All (λ e. e.node_id < 2 ^ 31) constraints.now }
    requires bads { All (λ e. e.node_id < 2 ^ 31) bads.now }
    ensures { IfOk result (λ extra. extra ≡ asking_clauses latchs.now constraints.now bads.now) }
{
    let mut extra = LitVvec::new(alloc);
    push_starts(&mut extra, latchs)?;
    push_units(&mut extra, constraints)?;
    push_any(alloc, &mut extra, bads)?;
    Ok(extra)
}

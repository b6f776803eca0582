//! The window clauses of an induction step.

ghost use Rattle.std.specs.Prelude.{◌≡◌, ◌+◌, ◌*◌, ◌<◌, ◌≤◌, ◌^◌, ◌++◌, ◌∷◌, [], All, IfOk, OnOk, drop, length, map, take};
ghost use Rattle.aig_circuit.specs.Circuit.{IsCircuit};
ghost use Rattle.aig_circuit.specs.Edge.{inverse, lit_of};
ghost use Rattle.aig_runs.specs.WindowClauses.{induction_clauses};
ghost use Rattle.aig_runs.specs.Queries.{unit_clauses};
ghost use Rattle.aig_unroll.specs.Unroll.{UnrollsTo};

use aig_base::{LitVvec, MemoryError};
use aig_circuit::{AigEdge, CircuitView};
use aig_runs::{push_any, push_units};
use std::alloc::Global;

/// Appends for each edge the clause that it is false.
fn push_inverses(extra: &mut LitVvec, edges: &[AigEdge]) -> Result<(), MemoryError>
    requires { All (λ e. e.node_id < 2 ^ 31) edges.now }
    ensures { OnOk result (extra.new ≡ extra.old ++ unit_clauses (map inverse edges.now)) }
{
    for edge in edges {
        let other = !*edge;
        extra.push(&[other.to_lit()])?;
    }
    Ok(())
}

/// The window clauses over the constraints of all steps, and over the bad edges of all, of which the first so many are of the
/// steps before the last one.
fn induction_over(
    alloc: Global,
    constraints: &[AigEdge],
    bads: &[AigEdge],
    first: usize,
) -> Result<LitVvec, MemoryError>
    requires constraints { All (λ e. e.node_id < 2 ^ 31) constraints.now }
    requires bads { All (λ e. e.node_id < 2 ^ 31) bads.now }
    requires first { first ≤ length bads.now }
    ensures { IfOk result (λ extra. extra ≡ unit_clauses constraints.now
        ++ unit_clauses (map inverse (take first bads.now))
        ++ map lit_of (drop first bads.now) ∷ []) }
{
    let mut extra = LitVvec::new(alloc);
    push_units(&mut extra, constraints)?;
    push_inverses(&mut extra, &bads[..first])?;
    push_any(alloc, &mut extra, &bads[first..])?;
    Ok(extra)
}

/// The window clauses of an induction step, over the circuit and the circuit with `k + 1` further steps.
pub(crate) fn induction_between(
    alloc: Global,
    circuit: &CircuitView<'_>,
    k: usize,
    unrolled: &CircuitView<'_>,
) -> Result<LitVvec, MemoryError>
    requires steps { k < 2 ^ 32 }
    requires few { length unrolled.now.nodes ≤ 2 ^ 31 }
    requires unrolls { UnrollsTo circuit.now (k + 1) unrolled.now }
    ensures exact { IfOk result
        (λ extra. extra ≡ induction_clauses circuit.now k unrolled.now) }
    ensures circuit { OnOk result (IsCircuit unrolled.now) }
{
    let bads = unrolled.bads();
    let first = (k + 1) * circuit.bads().len();
    induction_over(alloc, unrolled.constraints(), bads, first)
}

//! Clauses of circuits with further steps, whether they were read, built or changed.

ghost use Rattle.std.specs.Prelude.{◌≤◌, ◌^◌, IfOk, length};
ghost use Rattle.aig_answers.specs.Answers.{IsCircuitQuery, query_with};
ghost use Rattle.aig_unroll.specs.Unroll.{UnrollsTo};

use crate::windows::WindowClauses;
use aig_base::MemoryError;
use aig_circuit::CircuitView;
use aig_cnf::encode;
use aig_runs::{Unrolled, circuit_queries_ask, query_clauses};
use std::alloc::Global;

/// The clauses that ask for a bad edge of a circuit at step `k`, from the circuit and the circuit with `k` further steps.
pub(crate) fn query_between(
    alloc: Global,
    circuit: &CircuitView<'_>,
    k: usize,
    unrolled: &CircuitView<'_>,
    optimize: bool,
) -> Result<WindowClauses, MemoryError>
    requires few { length unrolled.now.nodes ≤ 2 ^ 31 }
    requires unrolls { UnrollsTo circuit.now k unrolled.now }
    ensures { IfOk result
        (λ made. IsCircuitQuery circuit.now k optimize (query_with unrolled.now made)) }
{
    circuit_queries_ask();
    let clauses = encode(alloc, unrolled, optimize)?;
    let bads = unrolled.bads();
    let first = k * circuit.bads().len();
    let extra = query_clauses(
        alloc,
        circuit.latchs(),
        unrolled.constraints(),
        &bads[first..],
    )?;
    Ok(WindowClauses { clauses, extra })
}

/// The clauses of a circuit with further steps that ask for a bad edge at the last one, as `query_of` makes them. The one error is
/// refused memory.
pub fn unrolled_query(
    alloc: Global,
    asked: &Unrolled,
    optimize: bool,
) -> Result<WindowClauses, MemoryError>
    requires { length asked.now.unrolled.nodes ≤ 2 ^ 31 }
    ensures { IfOk result (λ made. IsCircuitQuery asked.now.circuit asked.now.steps optimize
        (query_with asked.now.unrolled made)) }
{
    let circuit = asked.circuit();
    query_between(alloc, &circuit, asked.steps(), &asked.unrolled(), optimize)
}

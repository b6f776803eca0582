//! Queries of circuits that were read.

ghost use Rattle.std.specs.Prelude.{◌≤◌, ◌^◌, IfOk};
ghost use Rattle.aig_answers.specs.Answers.{IsCircuitQuery};
ghost use Rattle.aig_unroll.specs.Places.{unrolled_size};

use aig::Aig;
use aig_base::{DagCnf, LitVvec, MemoryError};
use aig_runs::{circuit_queries_ask, query_clauses};
use std::alloc::Global;

/// The clauses that ask for a bad state of a circuit at a step.
#[derive(Drop)]
pub struct CircuitQuery {
    /// The circuit with further steps.
    pub unrolled: Aig,
    /// The clauses of the unrolled circuit.
    pub clauses: DagCnf,
    /// The query clauses.
    pub extra: LitVvec,
}

/// The query of a circuit that has room for its further steps.
pub(crate) fn make_query(
    alloc: Global,
    circuit: &Aig,
    k: usize,
    optimize: bool,
) -> Result<CircuitQuery, MemoryError>
    requires { unrolled_size circuit.now k ≤ 2 ^ 31 }
    ensures { IfOk result (IsCircuitQuery circuit.now k optimize) }
{
    circuit_queries_ask();
    let unrolled = circuit.unroll_to(k)?;
    let clauses = unrolled.cnf(optimize)?;
    let bads = unrolled.bads();
    let first = k * circuit.bads().len();
    let extra = query_clauses(
        alloc,
        circuit.latchs(),
        unrolled.constraints(),
        &bads[first..],
    )?;
    Ok(CircuitQuery {
        unrolled,
        clauses,
        extra,
    })
}

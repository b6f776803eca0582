//! Witnesses of solvers' answers, which are checked.

ghost use Rattle.std.specs.Prelude.{◌≡◌, ◌+◌, ◌<◌, ◌^◌, IfErr, IfOk, length};
ghost use Rattle.aig_witness.specs.Checked.{RefusesSolution, RefusesValues, SaysWitness};
ghost use Rattle.aig_unroll.specs.Unroll.{UnrollsTo};
ghost use Rattle.aig_witness.specs.Witness.{said_by};
ghost use Rattle.aig_witness.specs.Shown.{IsKnownWitness};

use crate::solutions::error::SolutionError;
use crate::solutions::reading::read_solution;
use crate::solutions::witness::witness_of;
use crate::{Witness, check_circuit};
use aig_base::Source;
use aig_encode::Query;
use std::alloc::Global;

/// Reads a solver's answer to the clauses of a query of step `k`, and returns the witness that it says.
fn read_witness<P: Source>(
    alloc: Global,
    asked: &Query,
    k: usize,
    solution: &mut P,
) -> Result<Witness, SolutionError>
    requires small { k < 2 ^ 32 }
    requires steps { UnrollsTo asked.now.encoded.circuit k asked.now.encoded.unrolled }
    ensures said { IfOk result
        (λ w. SaysWitness (P.left solution.old) asked.now.encoded k (said_by w)) }
    ensures refusal { IfErr result
        (RefusesValues (P.left solution.old) asked.now.encoded k (P.failed solution.new)) }
{
    let values = read_solution(alloc, solution, asked.encoded.clauses.num_vars())?;
    match witness_of(alloc, asked, k, &values)? {
        Some(witness) => Ok(witness),
        None => Err(SolutionError::NoBad),
    }
}

/// Reads a solver's answer to the clauses of a query, as `read_solution` does, and returns the witness that it says, which was
/// checked: nothing of the answer is trusted. Requires that the query is of step `k`, which is below 2^32.
///
/// # Errors
///
/// `NoBad` where no bad state property is true at step `k` in the values that the answer says, and `Check` where the witness
/// that they say shows no bad state; the others are those of `read_solution`.
pub fn checked_witness<P: Source>(
    alloc: Global,
    asked: &Query,
    k: usize,
    solution: &mut P,
) -> Result<Witness, SolutionError>
    requires small { k < 2 ^ 32 }
    requires steps { UnrollsTo asked.now.encoded.circuit k asked.now.encoded.unrolled }
    // The witness is the one that the values say which the bytes of the answer say, and it has k + 1 steps.
    ensures said { IfOk result
        (λ w. SaysWitness (P.left solution.old) asked.now.encoded k (said_by w)) }
    ensures steps { IfOk result (λ w. length (said_by w).steps ≡ k + 1) }
    // It is one of the circuit, by simulation in three values.
    ensures known { IfOk result (λ w. IsKnownWitness asked.now.encoded.circuit (said_by w)) }
    // A refusal says why there are no such values, that they have no bad edge, or the fault of the witness.
    ensures refusal { IfErr result
        (RefusesSolution (P.left solution.old) asked.now.encoded k (P.failed solution.new)) }
{
    let witness = read_witness(alloc, asked, k, solution)?;
    check_circuit(alloc, &asked.encoded.circuit, &witness)?;
    Ok(witness)
}

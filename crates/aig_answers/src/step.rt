//! No bad state at a step.

ghost use Rattle.std.specs.Prelude.{◌^◌, ◌≤◌, IfErr, IfOk, length};
ghost use Rattle.aig_answers.specs.Answers.{IsAsked, IsOfQuery, asked_verdict, verdict_of};
ghost use Rattle.aig_base.specs.Clauses.{AreBelow};
ghost use Rattle.aig_encode.specs.Encoding.{IsQuery};
ghost use Rattle.aig_reader.specs.Reading.{IsReadAs};
ghost use Rattle.aig_reader.specs.Verdicts.{Judges, verdict_by};

use crate::asks::check_asks;
use crate::circuits::{CircuitQuery, make_query};
use crate::error::AnswerError;
use aig::Aig;
use aig_base::Source;
use aig_encode::{Encoded, Query};
use aig_runs::{circuit_witnesses_are_file_witnesses, clauses_are_file_runs};
use std::alloc::Global;

/// Reads a circuit from the bytes of an AIGER file, and returns its query for step `k`, which is what `aig_encode::query`
/// returns.
///
/// A file without bad state properties is refused, as nothing is asked of it, and that before its further steps are made.
/// Requires `1 <= limit <= 2^31`.
pub fn read_query<R: Source>(
    alloc: Global,
    r: &mut R,
    limit: usize,
    k: usize,
    optimize: bool,
) -> Result<Query, AnswerError>
    requires some { 1 ≤ limit }
    requires few { limit ≤ 2 ^ 31 }
    // The bytes that were read are a file within the limit, with a bad literal, and that file is encoded and asked for.
    ensures answer { IfOk result (IsReadAs (IsAsked limit k) (IsQuery k optimize)
        (R.left r.old) (R.left r.new)) }
    // The query clauses are of variables that are there.
    ensures below { IfOk result (λ q. AreBelow (length q.encoded.clauses) q.extra) }
    // Each file within the limit that has a bad literal is answered, and a refusal says why.
    ensures verdict { Judges (asked_verdict limit k) limit (R.left r.old) (R.left r.new)
        (R.failed r.new) (verdict_by verdict_of result) }
    ensures own { IfErr result IsOfQuery }
{
    clauses_are_file_runs();
    circuit_witnesses_are_file_witnesses();
    let circuit = Aig::from_aiger(alloc, r, limit)?;
    check_asks(circuit.nodes(), circuit.latchs(), circuit.bads(), limit, k)?;
    let CircuitQuery {
        unrolled,
        clauses,
        extra,
    } = make_query(alloc, &circuit, k, optimize)?;
    Ok(Query {
        encoded: Encoded {
            circuit,
            unrolled,
            clauses,
        },
        extra,
    })
}

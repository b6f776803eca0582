//! From bytes to the clauses of a query.

ghost use Rattle.std.specs.Prelude.{◌≡◌, ◌^◌, ◌≤◌, IfOk, IsErrOf, length};
ghost use Rattle.aig_base.specs.Clauses.{AreBelow};
ghost use Rattle.aig_format.specs.Circuit.{circuit_of};
ghost use Rattle.aig_format.specs.Fits.{Accepts};
ghost use Rattle.aig_reader.specs.Reading.{IsReadAs};
ghost use Rattle.aig_reader.specs.Verdicts.{Judges, verdict_by};
ghost use Rattle.aig_runs.specs.Queries.{query_clauses};
ghost use Rattle.aig_unroll.specs.Places.{unrolled_size};
ghost use Rattle.aig_unroll.specs.Unroll.{UnrollsTo};
ghost use Rattle.aig_encode.specs.Encoding.{IsQuery, encoded_verdict, verdict_of};

use crate::encoding::encode;
use crate::error::EncodeError;
use crate::query_clauses::Query;
use aig::{Aig, ReadError};
use aig_base::{LitVvec, MemoryError, Source};
use aig_runs::query_clauses;
use std::alloc::Global;

/// The query clauses of a circuit for step `k`.
fn clauses_of(
    alloc: Global,
    circuit: &Aig,
    k: usize,
    unrolled: &Aig,
) -> Result<LitVvec, MemoryError>
    requires few { length unrolled.now.nodes ≤ 2 ^ 31 }
    requires steps { UnrollsTo circuit.now k unrolled.now }
    ensures exact { IfOk result (λ extra. extra ≡ query_clauses circuit.now k unrolled.now) }
    ensures below { IfOk result (AreBelow (length unrolled.now.nodes)) }
{
    let bads = unrolled.bads();
    let first = k * circuit.bads().len();
    query_clauses(
        alloc,
        circuit.latchs(),
        unrolled.constraints(),
        &bads[first..],
    )
}

/// Returns what `encode` returns, and query clauses that ask for a run to a bad state at step `k`.
///
/// Both lists of clauses together can be satisfied exactly where the file's machine has a run from an initial state on
/// which every constraint holds at each of the steps 0 to `k` and some bad literal holds at step `k`. A satisfying
/// assignment's leaf values are those of such a run.
///
/// The query clauses are, in order: for each latch with a constant initial edge that its leaf has that value, for
/// each constraint of each step that it holds, and one clause of all bad literals of step `k`. Of a file without bad
/// state properties the last one is empty: nothing satisfies it, and that says nothing of the file.
///
/// # Requirements
///
/// - `1 <= limit <= 2^31`.
///
/// # Errors
///
/// After `Read` it isn't said what `r` has left. After the others it was read to its end.
///
/// - `Read`: the bytes are refused, by an error of `Aig::from_aiger`.
/// - `Memory`: memory was refused after the reading.
/// - `TooLarge`: the bound of `encode` on the nodes of the unrolled circuit passes `limit`.
///
/// # Examples
///
/// A latch that toggles from false and is bad where it is true, at step 1. The clauses are that it begins as false, and
/// that its inverse, which is the latch at step 1, is true:
///
/// ```
/// let file = b"aag 1 0 1 0 0 1\n2 3\n2\n";
/// let mut source = FromRead::new(file.as_slice());
/// let extra = query(alloc, &mut source, 1 << 24, 1, true)?.extra;
/// let unit = [!Var::new(1).lit()];
/// assert!(rt; extra.len() == 2);
/// assert!(rt; extra.clause(0) == unit.as_slice() && extra.clause(1) == unit.as_slice());
/// ```
pub fn query<R: Source>(
    alloc: Global,
    r: &mut R,
    limit: usize,
    k: usize,
    optimize: bool,
) -> Result<Query, EncodeError>
    requires some { 1 ≤ limit }
    requires few { limit ≤ 2 ^ 31 }
    // The bytes that were read are a file within the limit, and that file is encoded and asked for.
    ensures answer { IfOk result (IsReadAs
        (λ bytes f. Accepts bytes limit f × (unrolled_size (circuit_of f) k ≤ limit))
        (IsQuery k optimize) (R.left r.old) (R.left r.new)) }
    // The query clauses are of variables that are there.
    ensures below { IfOk result (λ q. AreBelow (length q.encoded.clauses) q.extra) }
    // Each file within the limit is answered, one whose further steps may pass it is TooLarge, and a refusal says why.
    ensures verdict { Judges (encoded_verdict limit k) limit (R.left r.old) (R.left r.new)
        (R.failed r.new) (verdict_by verdict_of result) }
    ensures never_open { IsErrOf result (EncodeError.Read ReadError.Open) → ⊥ }
{
    let encoded = encode(alloc, r, limit, k, optimize)?;
    let extra = clauses_of(alloc, &encoded.circuit, k, &encoded.unrolled)?;
    Ok(Query { encoded, extra })
}

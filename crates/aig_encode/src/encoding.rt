//! From bytes to clauses.

ghost use Rattle.std.specs.Prelude.{◌^◌, ◌≤◌, ◌↔◌, IfOk, IsErrOf, IsTrue};
ghost use Rattle.aig_format.specs.Circuit.{circuit_of};
ghost use Rattle.aig_format.specs.Fits.{Accepts};
ghost use Rattle.aig_reader.specs.Reading.{IsReadAs};
ghost use Rattle.aig_reader.specs.Verdicts.{Judges, verdict_by};
ghost use Rattle.aig_runs.specs.Encodes.{Encodes};
ghost use Rattle.aig_unroll.specs.Places.{unrolled_size};
ghost use Rattle.aig_encode.specs.Encoding.{encoded_verdict, verdict_of};
ghost use Rattle.aig_encode.specs.EncodedCircuits.{EncodesOrRefuses};

use crate::error::EncodeError;
use aig::{Aig, ReadError};
use aig_base::{DagCnf, Source};
use std::alloc::Global;

/// What `encode` returns: a circuit, the circuit unrolled, and the clauses of that.
#[derive(Drop)]
pub struct Encoded {
    /// The circuit of the file.
    pub circuit: Aig,
    /// The circuit with its further steps (`unroll_to`).
    pub unrolled: Aig,
    /// The clauses of the unrolled circuit (`cnf`).
    pub clauses: DagCnf,
}

/// Returns the circuit of an AIGER file, the circuit with `k` further steps, and the clauses of that.
///
/// It reads by `Aig::from_aiger`, unrolls by `unroll_to(k)`, and encodes by `cnf(optimize)`. Each run of `k + 1` steps
/// of the file's machine, from any state, is an assignment that satisfies the clauses, and each such assignment has the
/// leaf values of exactly one run and gives each property its value at each step. The clauses don't say that a run
/// begins in an initial state, meets a constraint or reaches a bad state: `query` does.
///
/// `limit` is on the variables of the file, as `from_aiger` has it, and on the nodes of the unrolled circuit.
///
/// # Requirements
///
/// - `1 <= limit <= 2^31`.
///
/// # Errors
///
/// After `Read` it isn't said what `r` has left. After the others it was read to its end.
///
/// - `Read`: the bytes are refused, by an error of `from_aiger`.
/// - `Memory`: memory was refused after the reading.
/// - `TooLarge`: `n + k * (n - 1 - l)` passes `limit`, for the `n` nodes and `l` latches of the circuit that was read,
///   whatever folds.
///
/// # Examples
///
/// A latch that toggles, over two steps; the one clause is that variable 0 is false:
///
/// ```
/// let file = b"aag 1 0 1 1 0\n2 3\n2\n";
/// let mut source = FromRead::new(file.as_slice());
/// let encoded = encode(alloc, &mut source, 1 << 24, 1, true)?;
/// let latch = AigEdge::from(1);
/// assert!(rt; encoded.unrolled.outputs() == [latch, !latch].as_slice());
/// assert!(rt; encoded.clauses.num_vars() == 2 && encoded.clauses.num_clauses() == 1);
/// ```
pub fn encode<R: Source>(
    alloc: Global,
    r: &mut R,
    limit: usize,
    k: usize,
    optimize: bool,
) -> Result<Encoded, EncodeError>
    requires some { 1 ≤ limit }
    requires few { limit ≤ 2 ^ 31 }
    // The bytes that were read are a file within the limit, and that file is encoded.
    ensures answer { IfOk result (IsReadAs
        (λ bytes f. Accepts bytes limit f × (unrolled_size (circuit_of f) k ≤ limit))
        (λ f e. Encodes f k optimize e.circuit e.unrolled e.clauses)
        (R.left r.old) (R.left r.new)) }
    // Each file within the limit is answered, one whose further steps may pass it is TooLarge, and a refusal says why.
    ensures verdict { Judges (encoded_verdict limit k) limit (R.left r.old) (R.left r.new)
        (R.failed r.new) (verdict_by verdict_of result) }
    ensures never_open { IsErrOf result (EncodeError.Read ReadError.Open) → ⊥ }
{
    let circuit = Aig::from_aiger(alloc, r, limit)?;
    let (unrolled, clauses) = encode_circuit(&circuit, limit, k, optimize)?;
    Ok(Encoded {
        circuit,
        unrolled,
        clauses,
    })
}

/// Whether a circuit with `k` further steps has at most `limit` nodes, by the bound that `unroll_to` keeps.
fn is_within(circuit: &Aig, k: usize, limit: usize) -> bool
    ensures { IsTrue result ↔ (unrolled_size circuit.now k ≤ limit) }
{
    aig_unroll::is_size_within(circuit.num_nodes(), circuit.latchs().len(), k, limit)
}

/// Unrolls a circuit by `k` steps, unless that may pass the limit, and makes the clauses of it.
fn encode_circuit(
    circuit: &Aig,
    limit: usize,
    k: usize,
    optimize: bool,
) -> Result<(Aig, DagCnf), EncodeError>
    requires few { limit ≤ 2 ^ 31 }
    ensures { EncodesOrRefuses circuit.now limit k optimize result }
{
    if !is_within(circuit, k, limit) {
        return Err(EncodeError::TooLarge);
    }
    let unrolled = circuit.unroll_to(k)?;
    let clauses = unrolled.cnf(optimize)?;
    Ok((unrolled, clauses))
}

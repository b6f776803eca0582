//! The clauses of a file's circuit, printed from the circuit itself.

ghost use Rattle.std.specs.Prelude.{◌≡◌, ◌≤◌, ◌↔◌, ◌^◌, IfErr, IfOk, IsErrOf, IsTrue, length};
ghost use Rattle.aig_base.specs.Clauses.{AreBelow};
ghost use Rattle.aig_circuit.specs.Circuit.{IsCircuit};
ghost use Rattle.aig_circuit.specs.View.{lists_circuit};
ghost use Rattle.aig_cnf.specs.Cnf.{AreNeeded};
ghost use Rattle.aig_tool_commands.specs.Printing.{PrintsClauses};
ghost use Rattle.aig_tool_commands.specs.Unrolled.{UnrollsOrRefuses};
ghost use Rattle.aig_encode.specs.Encoding.{encoded_verdict, verdict_of};
ghost use Rattle.aig_encode.specs.declared.error.EncodeError.TheVariants as encode;
ghost use Rattle.aig_format.specs.Circuit.{circuit_of};
ghost use Rattle.aig_format.specs.Fits.{Accepts};
ghost use Rattle.aig_reader.specs.Reading.{IsReadAs};
ghost use Rattle.aig_reader.specs.Verdicts.{Judges, verdict_by};
ghost use Rattle.aig_runs.specs.Queries as queries;
ghost use Rattle.aig_unroll.specs.Places.{unrolled_size};
ghost use Rattle.aig_runs.specs.Unrolled.{IsUnrolledOf};

use crate::tool::ToolError;
use aig::ReadError;
use aig_base::{LitVvec, Sink, Source};
use aig_circuit::{CircuitLists, CircuitView};
use aig_cnf::{NeededGates, find_needed};
use aig_dimacs::write_circuit;
use aig_encode::EncodeError;
use aig_runs::Unrolled;
use std::alloc::Global;

/// Whether a circuit with `k` further steps has at most `limit` nodes, by the bound that `unroll_to` keeps.
fn is_within(circuit: &CircuitView<'_>, k: usize, limit: usize) -> bool
    ensures { IsTrue result ↔ (unrolled_size circuit.now k ≤ limit) }
{
    aig_unroll::is_size_within(circuit.nodes().len(), circuit.latchs().len(), k, limit)
}

/// Gives a circuit `k` steps more, unless that may pass the limit.
fn add_steps_within(lists: CircuitLists, limit: usize, k: usize) -> Result<Unrolled, EncodeError>
    requires { IsCircuit (lists_circuit lists) }
    ensures { UnrollsOrRefuses (lists_circuit lists) limit k result }
{
    if !is_within(&CircuitView::new(&lists), k, limit) {
        return Err(EncodeError::TooLarge);
    }
    Ok(Unrolled::new(lists, k)?)
}

/// Reads a file, and gives its circuit `k` steps more, unless that may pass the limit.
pub(crate) fn read_unrolled<R: Source>(
    alloc: Global,
    r: &mut R,
    limit: usize,
    k: usize,
) -> Result<Unrolled, EncodeError>
    requires some { 1 ≤ limit }
    requires few { limit ≤ 2 ^ 31 }
    ensures answer { IfOk result (IsReadAs
        (λ bytes f. Accepts bytes limit f × (unrolled_size (circuit_of f) k ≤ limit))
        (IsUnrolledOf k limit) (R.left r.old) (R.left r.new)) }
    ensures verdict { Judges (encoded_verdict limit k) limit (R.left r.old) (R.left r.new)
        (R.failed r.new) (verdict_by verdict_of result) }
    ensures never_open { IsErrOf result (EncodeError.Read ReadError.Open) → ⊥ }
{
    let lists = aig_reader::read(alloc, r, limit)?;
    add_steps_within(lists, limit, k)
}

/// The clauses of a query.
pub(crate) fn query_clauses(alloc: Global, asked: &Unrolled) -> Result<LitVvec, EncodeError>
    requires { length asked.now.unrolled.nodes ≤ 2 ^ 31 }
    ensures exact { IfOk result (λ extra. extra
        ≡ queries.query_clauses asked.now.circuit asked.now.steps asked.now.unrolled) }
    ensures below { IfOk result (AreBelow (length asked.now.unrolled.nodes)) }
    ensures memory { IfErr result (λ e. e ≡ encode.Memory) }
{
    Ok(asked.query_clauses(alloc)?)
}

/// Finds which gates need clauses.
fn find_gates(
    alloc: Global,
    circuit: &CircuitView<'_>,
    optimize: bool,
) -> Result<NeededGates, EncodeError>
    requires { length circuit.now.nodes ≤ 2 ^ 31 }
    ensures needed { IfOk result
        (λ needed. AreNeeded circuit.now optimize needed.marks.items needed.clauses) }
    ensures memory { IfErr result (λ e. e ≡ encode.Memory) }
{
    Ok(find_needed(alloc, circuit, optimize)?)
}

/// Prints the clauses of a circuit, with further ones after them.
pub(crate) fn print_clauses<W: Sink>(
    alloc: Global,
    w: &mut W,
    circuit: &CircuitView<'_>,
    optimize: bool,
    extra: &LitVvec,
) -> Result<(), ToolError>
    requires few { length circuit.now.nodes ≤ 2 ^ 31 }
    requires below { AreBelow (length circuit.now.nodes) extra.now }
    ensures { PrintsClauses W.held W.failed circuit.now optimize extra.now w.old result w.new }
{
    let needed = find_gates(alloc, circuit, optimize)?;
    Ok(write_circuit(w, circuit, optimize, &needed, extra)?)
}

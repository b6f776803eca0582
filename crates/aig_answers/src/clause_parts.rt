//! What clauses are written from, so that no list of them is made.

ghost use Rattle.std.specs.Prelude.{◌+◌, ◌<◌, ◌≤◌, ◌^◌, IfOk, length};
ghost use Rattle.aig_answers.specs.Answers.{AreWrittenFrom, AskWith, IsCircuitQuery, query_with};
ghost use Rattle.aig_runs.specs.WindowClauses.{AsksWindow};
ghost use Rattle.aig_runs.specs.declared.window.Window.TheVariants.{Plain};
ghost use Rattle.aig_unroll.specs.Unroll.{UnrollsTo};

use crate::clauses::induction_between;
use aig_base::{LitVvec, MemoryError};
use aig_circuit::CircuitView;
use aig_cnf::{NeededGates, clauses_are_one, clauses_fix_roots, find_needed};
use aig_runs::{Unrolled, circuit_queries_ask};
use std::alloc::Global;

/// What the clauses of a circuit with further steps are written from beside it.
#[derive(Drop)]
pub struct ClauseParts {
    /// Which gates of the circuit need clauses, and how many clauses there are.
    pub needed: NeededGates,
    /// The window clauses, or those of the query.
    pub extra: LitVvec,
}

/// What the clauses of `unrolled_query` are written from. It takes a byte a node. The one error is refused memory.
pub fn query_parts(
    alloc: Global,
    asked: &Unrolled,
    optimize: bool,
) -> Result<ClauseParts, MemoryError>
    requires { length asked.now.unrolled.nodes ≤ 2 ^ 31 }
    ensures written { IfOk result (AreWrittenFrom asked.now.unrolled optimize) }
    // Whichever list is made of the circuit's clauses, with the further ones it is the query.
    ensures asks { IfOk result (AskWith asked.now.unrolled optimize
        (λ made. IsCircuitQuery asked.now.circuit asked.now.steps optimize
        (query_with asked.now.unrolled made))) }
{
    circuit_queries_ask();
    clauses_fix_roots();
    let extra = asked.query_clauses(alloc)?;
    let needed = find_needed(alloc, &asked.unrolled(), optimize)?;
    Ok(ClauseParts { needed, extra })
}

/// What the clauses of a plain window are written from. It takes a byte a node. The one error is refused memory.
pub fn window_parts(
    alloc: Global,
    circuit: &CircuitView<'_>,
    k: usize,
    unrolled: &CircuitView<'_>,
    optimize: bool,
) -> Result<ClauseParts, MemoryError>
    requires steps { k < 2 ^ 32 }
    requires few { length unrolled.now.nodes ≤ 2 ^ 31 }
    requires unrolls { UnrollsTo circuit.now (k + 1) unrolled.now }
    ensures written { IfOk result (AreWrittenFrom unrolled.now optimize) }
    // Whichever list is made of the circuit's clauses, with the further ones it asks for the window.
    ensures asks { IfOk result (AskWith unrolled.now optimize
        (λ made. AsksWindow Plain circuit.now k optimize made.clauses made.extra)) }
{
    clauses_fix_roots();
    clauses_are_one();
    let extra = induction_between(alloc, circuit, k, unrolled)?;
    let needed = find_needed(alloc, unrolled, optimize)?;
    Ok(ClauseParts { needed, extra })
}

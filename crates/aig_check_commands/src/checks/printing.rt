//! Lines, and texts of clauses; and what the commands do with the bytes of a file and of a solver's answer.

ghost use Rattle.std.specs.Prelude.{◌≡◌, ◌+◌, ◌<◌, ◌≤◌, ◌^◌, ◌++◌, [], List, length, replicate};
ghost use Rattle.aig_base.specs.declared.logic.literal.Lit.{Lit};
ghost use Rattle.aig_base.specs.Clauses.{AreBelow};
ghost use Rattle.aig_base.specs.Formula.{clauses_in};
ghost use Rattle.aig_cnf.specs.Cnf.{AreNeeded, HasClauses};
ghost use Rattle.aig_command_line.specs.Limits.{IsLimit};
ghost use Rattle.aig_dimacs.specs.Text.{IsFormula};
ghost use Rattle.aig_unroll.specs.Unroll.{UnrollsTo};
ghost use Rattle.aig_check_commands.specs.Printed.{Printed};
ghost use Rattle.aig_check_commands.specs.Printing.{IsSolutionOf, after_writing};
ghost use Rattle.aig_check_commands.specs.Running.{Runs};

use crate::command::FileCommand;
use crate::error::CheckError;
use aig_answers::read_query;
use aig_base::{DagCnf, LitVvec, Sink, Source, StreamFault};
use aig_circuit::CircuitView;
use aig_cnf::NeededGates;
use aig_encode::Query;
use aig_witness::{checked_witness, known_witnesses_show, write_witness};
use std::alloc::Global;

/// How a command ends whose answer was written so.
pub(crate) fn after_writing(written: Result<(), StreamFault>) -> Result<(), CheckError>
    ensures { result ≡ after_writing written }
{
    match written {
        Ok(done) => Ok(done),
        Err(_) => Err(CheckError::Write),
    }
}

/// Tells that clauses are read again from their text, as the counts of variables and of clauses fit.
pub(crate) fn tell_formula(clauses: &DagCnf, extra: &LitVvec)
    requires { AreBelow (length clauses.now) extra.now }
    ensures formula { IsFormula (length clauses.now) (clauses_in clauses.now ++ extra.now) }
    ensures few { length clauses.now ≤ 2 ^ 31 }
{
    let _counts = (clauses.num_vars(), clauses.num_clauses(), extra.len());
}

/// Tells that the clauses of a circuit and further ones are read again from their text, as the counts of variables and of clauses
/// fit.
pub(crate) fn tell_circuit(
    circuit: &CircuitView<'_>,
    optimize: bool,
    needed: &NeededGates,
    extra: &LitVvec,
)
    requires few { length circuit.now.nodes ≤ 2 ^ 31 }
    requires needed { AreNeeded circuit.now optimize needed.now.marks.items needed.now.clauses }
    requires below { AreBelow (length circuit.now.nodes) extra.now }
    ensures { (lists : List (List (List Lit))) × HasClauses circuit.now optimize lists
        × IsFormula (length lists) (clauses_in lists ++ extra.now) }
{
    tell_circuit_with(circuit, 0, optimize, needed, extra);
}

/// Tells the same where the further clauses may be of so many free variables behind those of the nodes.
pub(crate) fn tell_circuit_with(
    circuit: &CircuitView<'_>,
    free: usize,
    optimize: bool,
    needed: &NeededGates,
    extra: &LitVvec,
)
    requires few { length circuit.now.nodes + free ≤ 2 ^ 31 }
    requires needed { AreNeeded circuit.now optimize needed.now.marks.items needed.now.clauses }
    requires below { AreBelow (length circuit.now.nodes + free) extra.now }
    ensures { (lists : List (List (List Lit))) × HasClauses circuit.now optimize lists
        × IsFormula (length (lists ++ replicate free []))
        (clauses_in (lists ++ replicate free []) ++ extra.now) }
{
    let variables = circuit.nodes().len() + free;
    let _counts = (variables, needed.clauses, optimize, extra.len());
}

/// Reads a solver's answer to a query for step `k`, and prints the witness that it says, which was checked.
fn print_solution<P: Source, W: Sink>(
    alloc: Global,
    asked: &Query,
    k: usize,
    solution: &mut P,
    w: &mut W,
) -> Result<(), CheckError>
    requires small { k < 2 ^ 32 }
    requires steps { UnrollsTo asked.now.encoded.circuit k asked.now.encoded.unrolled }
    ensures { Printed W.held W.failed
        (IsSolutionOf (P.left solution.old) (P.failed solution.new) asked.now.encoded k) w.old
        result w.new }
{
    let witness = checked_witness(alloc, asked, k, solution)?;
    after_writing(write_witness(w, &witness))
}

/// Reads a solver's answer to the query of a file for step `k`, and prints the witness that it says, which was checked. Requires
/// that `k` is below 2^32.
pub fn print_witness<R: Source, P: Source, W: Sink>(
    alloc: Global,
    limit: usize,
    k: usize,
    optimize: bool,
    r: &mut R,
    solution: &mut P,
    w: &mut W,
) -> Result<(), CheckError>
    requires limit { IsLimit limit }
    requires small { k < 2 ^ 32 }
    ensures { let command = FileCommand.Witness k optimize in
        Runs R.left R.failed P.left P.failed W.held W.failed
        command limit r.old solution.old w.old result r.new solution.new w.new }
{
    known_witnesses_show();
    let asked = read_query(alloc, r, limit, k, optimize)?;
    print_solution(alloc, &asked, k, solution, w)
}

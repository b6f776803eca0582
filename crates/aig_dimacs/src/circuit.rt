//! The DIMACS text of a circuit's clauses, written gate by gate.

ghost use Rattle.std.specs.Prelude.{◌≡◌, ◌+◌, ◌<◌, ◌≤◌, ◌^◌, ◌++◌, [], List, length, replicate};
ghost use Rattle.std.specs.List.{flat_map};
ghost use Rattle.aig_base.specs.Clauses.{AreBelow};
ghost use Rattle.aig_base.specs.Formula.{clauses_in};
ghost use Rattle.aig_circuit.specs.Circuit.{AreNodes};
ghost use Rattle.aig_cnf.specs.Cnf.{AreNeeded, HasClauses};
ghost use Rattle.aig_cnf.specs.Marks.{AreClausesOf};
ghost use Rattle.aig_dimacs.specs.Circuit.{AreByMarks};
ghost use Rattle.aig_dimacs.specs.Text.{IsTextWith, clause_line, header_line};
ghost use Rattle.aig_dimacs.specs.declared.gate.TheConstants.{ROOM};
ghost use Rattle.aig_output.specs.Sinks.{BuffersOrStops};

use crate::gate::{ROOM, put_gate};
use crate::writing::{write_clause, write_header, write_list};
use aig_base::{Lit, LitVvec, Sink, StreamFault, Var};
use aig_circuit::{AigNode, CircuitView};
use aig_cnf::{NeededGates, find_form};
use aig_output::OutputBuffer;

/// Writes the lines of the clauses of node `id`, if it needs clauses and is a gate.
fn write_gate<W: Sink>(
    buffer: &mut OutputBuffer,
    w: &mut W,
    text: &mut [u8],
    nodes: &[AigNode],
    id: usize,
    optimize: bool,
    needed: bool,
) -> Result<(), StreamFault>
    requires sound { AreNodes nodes.now }
    requires there { id < length nodes.now }
    requires few { length nodes.now ≤ 2 ^ 31 }
    requires room { length text.old ≡ ROOM }
    ensures { (clauses : List (List Lit)) → AreClausesOf nodes.now optimize needed id clauses
        → BuffersOrStops W.held W.failed buffer.old w.old result (flat_map clause_line clauses)
        buffer.new w.new }
{
    if needed && let Some(form) = find_form(nodes, id, optimize) {
        let start = put_gate(text, id, form);
        return buffer.write_bytes(w, &text[start..]);
    }
    Ok(())
}

/// Writes the lines of the clause of variable 0, and of those of the nodes that are marked.
fn write_gates<W: Sink>(
    buffer: &mut OutputBuffer,
    w: &mut W,
    nodes: &[AigNode],
    optimize: bool,
    marks: &[bool],
) -> Result<(), StreamFault>
    requires sound { AreNodes nodes.now }
    requires few { length nodes.now ≤ 2 ^ 31 }
    requires marks { length marks.now ≡ length nodes.now }
    ensures { (lists : List (List (List Lit))) → AreByMarks nodes.now optimize marks.now lists
        → BuffersOrStops W.held W.failed buffer.old w.old result
        (flat_map (flat_map clause_line) lists) buffer.new w.new }
{
    write_clause(buffer, w, &[Lit::new(Var::new(0), false)])?;
    let mut text = [0; ROOM];
    for id in 1..nodes.len() {
        write_gate(buffer, w, &mut text, nodes, id, optimize, marks[id])?;
    }
    Ok(())
}

/// Writes the header line of these counts, the lines of the clauses of the nodes that are marked, and those of further ones.
fn write_all<W: Sink>(
    buffer: &mut OutputBuffer,
    w: &mut W,
    nodes: &[AigNode],
    optimize: bool,
    marks: &[bool],
    counts: (usize, usize),
    extra: &LitVvec,
) -> Result<(), StreamFault>
    requires sound { AreNodes nodes.now }
    requires few { length nodes.now ≤ 2 ^ 31 }
    requires marks { length marks.now ≡ length nodes.now }
    ensures { (lists : List (List (List Lit))) → AreByMarks nodes.now optimize marks.now lists
        → BuffersOrStops W.held W.failed buffer.old w.old result
        (header_line counts.0 counts.1
        ++ flat_map clause_line (clauses_in lists ++ extra.now)) buffer.new w.new }
{
    write_header(buffer, w, counts.0, counts.1)?;
    write_gates(buffer, w, nodes, optimize, marks)?;
    write_list(buffer, w, extra)
}

/// Writes the clauses of a circuit in DIMACS form, with further clauses after them, as `write_dimacs` writes those that
/// `aig_cnf::encode` makes, but from the circuit. `needed` is what `aig_cnf::find_needed` finds of it.
///
/// It takes no memory, and doesn't flush the sink. Requires that the further clauses are of variables that are there.
pub fn write_circuit<W: Sink>(
    w: &mut W,
    circuit: &CircuitView<'_>,
    optimize: bool,
    needed: &NeededGates,
    extra: &LitVvec,
) -> Result<(), StreamFault>
    requires few { length circuit.now.nodes ≤ 2 ^ 31 }
    requires needed { AreNeeded circuit.now optimize needed.now.marks.items needed.now.clauses }
    requires below { AreBelow (length circuit.now.nodes) extra.now }
    // The text is that of the circuit's clauses and the further ones, and they are read from it again.
    ensures { (lists : List (List (List Lit))) × HasClauses circuit.now optimize lists
        × IsTextWith W.held W.failed w.old result lists extra.now w.new }
{
    write_circuit_with(w, circuit, 0, optimize, needed, extra)
}

/// Writes the clauses of a circuit as `write_circuit` does, where the further ones may also be of so many free variables, which come
/// behind those of the nodes and have no clauses.
pub fn write_circuit_with<W: Sink>(
    w: &mut W,
    circuit: &CircuitView<'_>,
    free: usize,
    optimize: bool,
    needed: &NeededGates,
    extra: &LitVvec,
) -> Result<(), StreamFault>
    requires few { length circuit.now.nodes + free ≤ 2 ^ 31 }
    requires needed { AreNeeded circuit.now optimize needed.now.marks.items needed.now.clauses }
    requires below { AreBelow (length circuit.now.nodes + free) extra.now }
    // The text is that of the clauses of the circuit's and the free variables and the further ones, and they are read from it again.
    ensures { (lists : List (List (List Lit))) × HasClauses circuit.now optimize lists
        × IsTextWith W.held W.failed w.old result (lists ++ replicate free []) extra.now w.new }
{
    let mut buffer = OutputBuffer::new();
    let nodes = circuit.nodes();
    let counts = (nodes.len() + free, needed.clauses + extra.len());
    write_all(
        &mut buffer,
        w,
        nodes,
        optimize,
        &needed.marks,
        counts,
        extra,
    )?;
    buffer.flush(w)
}

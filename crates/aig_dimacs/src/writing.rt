//! The DIMACS text, written through a buffer of 32,768 bytes.

ghost use Rattle.std.specs.Prelude.{◌≡◌, ◌++◌, length};
ghost use Rattle.std.specs.List.{flat_map};
ghost use Rattle.aig_base.specs.Clauses.{AreBelow};
ghost use Rattle.aig_base.specs.Formula.{clauses_in};
ghost use Rattle.aig_dimacs.specs.Text.{IsFormula, clause_line, dimacs_of, header_line, literal_text, sign_of};
ghost use Rattle.aig_output.specs.Sinks.{BuffersOrStops, WritesOrStops};

use aig_base::{DagCnf, Lit, LitVvec, Sink, StreamFault, Var};
use aig_output::OutputBuffer;

/// Writes the header line.
pub(crate) fn write_header<W: Sink>(
    buffer: &mut OutputBuffer,
    w: &mut W,
    variables: usize,
    clauses: usize,
) -> Result<(), StreamFault>
    ensures { let text = header_line variables clauses in
        BuffersOrStops W.held W.failed buffer.old w.old result text buffer.new w.new }
{
    buffer.write_bytes(w, b"p cnf ")?;
    buffer.write_number(w, variables, b' ')?;
    buffer.write_number(w, clauses, b'\n')
}

/// Writes the minus of a literal that is inverted.
fn write_sign<W: Sink>(buffer: &mut OutputBuffer, w: &mut W, lit: Lit) -> Result<(), StreamFault>
    ensures { let text = sign_of lit in
        BuffersOrStops W.held W.failed buffer.old w.old result text buffer.new w.new }
{
    if lit.polarity() {
        return Ok(());
    }
    buffer.write_bytes(w, b"-")
}

/// Writes a literal, and a space.
fn write_literal<W: Sink>(buffer: &mut OutputBuffer, w: &mut W, lit: Lit) -> Result<(), StreamFault>
    ensures { let text = literal_text lit in
        BuffersOrStops W.held W.failed buffer.old w.old result text buffer.new w.new }
{
    write_sign(buffer, w, lit)?;
    buffer.write_number(w, usize::from(lit.var()) + 1, b' ')
}

/// Writes the line of a clause.
pub(crate) fn write_clause<W: Sink>(
    buffer: &mut OutputBuffer,
    w: &mut W,
    lits: &[Lit],
) -> Result<(), StreamFault>
    ensures { let text = clause_line lits.now in
        BuffersOrStops W.held W.failed buffer.old w.old result text buffer.new w.new }
{
    for lit in lits {
        write_literal(buffer, w, *lit)?;
    }
    buffer.write_bytes(w, b"0\n")
}

/// Writes the line of each clause of a list.
pub(crate) fn write_list<W: Sink>(
    buffer: &mut OutputBuffer,
    w: &mut W,
    clauses: &LitVvec,
) -> Result<(), StreamFault>
    ensures { let text = flat_map clause_line clauses.now in
        BuffersOrStops W.held W.failed buffer.old w.old result text buffer.new w.new }
{
    for i in 0..clauses.len() {
        write_clause(buffer, w, clauses.clause(i))?;
    }
    Ok(())
}

/// Writes the line of each clause of each variable.
fn write_lists<W: Sink>(
    buffer: &mut OutputBuffer,
    w: &mut W,
    clauses: &DagCnf,
) -> Result<(), StreamFault>
    ensures { let text = flat_map (flat_map clause_line) clauses.now in
        BuffersOrStops W.held W.failed buffer.old w.old result text buffer.new w.new }
{
    for v in 0..clauses.num_vars() {
        write_list(buffer, w, clauses.clauses_of(Var::new(v)))?;
    }
    Ok(())
}

/// How many variables and how many clauses there are.
fn counts(clauses: &DagCnf, extra: &LitVvec) -> (usize, usize)
    requires { AreBelow (length clauses.now) extra.now }
    ensures variables { result.0 ≡ length clauses.now }
    ensures clauses { result.1 ≡ length (clauses_in clauses.now ++ extra.now) }
    ensures formula { IsFormula (length clauses.now) (clauses_in clauses.now ++ extra.now) }
{
    (clauses.num_vars(), clauses.num_clauses() + extra.len())
}

/// Writes the header line of these counts, and the line of each clause.
fn write_lines<W: Sink>(
    buffer: &mut OutputBuffer,
    w: &mut W,
    counts: (usize, usize),
    clauses: &DagCnf,
    extra: &LitVvec,
) -> Result<(), StreamFault>
    ensures { let text = header_line counts.0 counts.1
        ++ flat_map clause_line (clauses_in clauses.now ++ extra.now) in
        BuffersOrStops W.held W.failed buffer.old w.old result text buffer.new w.new }
{
    write_header(buffer, w, counts.0, counts.1)?;
    write_lists(buffer, w, clauses)?;
    write_list(buffer, w, extra)
}

/// Writes clauses in DIMACS form: the counts of variables and of clauses, and then each clause's line, in rising order of
/// the variable that it was given to, with further clauses after them. A variable stands as its number and one more.
///
/// It takes no memory, and doesn't flush the sink. Requires that the further clauses are of variables that are there.
pub fn write_dimacs<W: Sink>(
    w: &mut W,
    clauses: &DagCnf,
    extra: &LitVvec,
) -> Result<(), StreamFault>
    requires { AreBelow (length clauses.now) extra.now }
    // After Ok the writer holds what it held and the text, and after Err what it held and a beginning of it.
    ensures writes { let text = dimacs_of (length clauses.now)
        (clauses_in clauses.now ++ extra.now) in
        WritesOrStops W.held W.failed w.old result text w.new }
    // From that text the clauses are read again.
    ensures formula { IsFormula (length clauses.now) (clauses_in clauses.now ++ extra.now) }
{
    let mut buffer = OutputBuffer::new();
    let counts = counts(clauses, extra);
    write_lines(&mut buffer, w, counts, clauses, extra)?;
    buffer.flush(w)
}

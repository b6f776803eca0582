//! The clauses of the first steps, and what a command does with the bytes of a file and of a solver's answer to them.

ghost use Rattle.std.specs.Prelude.{◌≡◌, ◌<◌, ◌^◌, ◌++◌, All, length};
ghost use Rattle.std.specs.List.{flat_map, zip};
ghost use Rattle.aig_base.specs.Clauses.{AreBelow};
ghost use Rattle.aig_base.specs.Formula.{clauses_in};
ghost use Rattle.aig_command_line.specs.Limits.{IsLimit};
ghost use Rattle.aig_dimacs.specs.Text.{dimacs_of};
ghost use Rattle.aig_output.specs.Sinks.{BuffersOrStops, WritesOrStops};
ghost use Rattle.aig_check_commands.specs.Titles.{title_text};
ghost use Rattle.aig_check_commands.specs.Bounded.{bounded_comments, letter_of, place_line};
ghost use Rattle.aig_check_commands.specs.Running.{Runs};

use crate::checks::printing::after_writing;
use crate::command::FileCommand;
use crate::error::CheckError;
use crate::lines::comments::buffer_literal;
use crate::lines::titles::{Title, write_title};
use aig_answers::{BoundedClauses, Named, bounded_witness};
use aig_base::{Sink, Source, StreamFault, Var};
use aig_dimacs::write_dimacs;
use aig_output::OutputBuffer;
use aig_witness::write_witness;
use std::alloc::Global;

/// The letter of an input or of a latch, in a line about it.
fn letter(named: &Named) -> &'static [u8]
    ensures { result.now ≡ letter_of named.now.is_latch }
{
    if named.is_latch { b"c l" } else { b"c i" }
}

/// Buffers the lines of a question's inputs.
fn buffer_places<W: Sink>(
    buffer: &mut OutputBuffer,
    w: &mut W,
    inputs: &[usize],
    named: &[Named],
) -> Result<(), StreamFault>
    requires { All (λ n. n < 2 ^ 31) inputs.now }
    ensures { let text = flat_map place_line (zip inputs.now named.now) in
        BuffersOrStops W.held W.failed buffer.old w.old result text buffer.new w.new }
{
    for (n, place) in inputs.iter().zip(named) {
        let lit = Var::new(*n).lit();
        buffer_literal(buffer, w, letter(place), place.number, place.step, lit)?;
    }
    Ok(())
}

/// Writes a line for each input of a question, in order, that says which input or latch of the file it is, at which step, and
/// its variable.
fn write_places<W: Sink>(w: &mut W, made: &BoundedClauses) -> Result<(), StreamFault>
    requires { All (λ n. n < 2 ^ 31) made.now.question.circuit.inputs.items }
    ensures { WritesOrStops W.held W.failed w.old result (bounded_comments made.now) w.new }
{
    let mut buffer = OutputBuffer::new();
    let inputs = made.question.circuit.inputs.as_slice();
    buffer_places(&mut buffer, w, inputs, made.named.as_slice())?;
    buffer.flush(w)
}

/// Writes a title, and then the lines of a question's inputs.
fn write_front<W: Sink>(w: &mut W, title: &Title, made: &BoundedClauses) -> Result<(), StreamFault>
    requires { All (λ n. n < 2 ^ 31) made.now.question.circuit.inputs.items }
    ensures { let text = title_text title.now ++ bounded_comments made.now in
        WritesOrStops W.held W.failed w.old result text w.new }
{
    write_title(w, title)?;
    write_places(w, made)
}

/// Writes a title, the lines of a question's inputs, and then its clauses.
pub(crate) fn write_bounded<W: Sink>(
    w: &mut W,
    title: &Title,
    made: &BoundedClauses,
) -> Result<(), StreamFault>
    requires few { All (λ n. n < 2 ^ 31) made.now.question.circuit.inputs.items }
    requires below { AreBelow (length made.now.clauses) made.now.extra }
    ensures { let clauses = dimacs_of (length made.now.clauses)
        (clauses_in made.now.clauses ++ made.now.extra) in
        let text = title_text title.now ++ bounded_comments made.now ++ clauses in
        WritesOrStops W.held W.failed w.old result text w.new }
{
    write_front(w, title, made)?;
    write_dimacs(w, &made.clauses, &made.extra)
}

/// Reads a solver's answer to the clauses of the first steps, and prints the witness that it says, which was checked: of the first
/// step with a bad state.
pub fn print_witness_to<R: Source, P: Source, W: Sink>(
    alloc: Global,
    limit: usize,
    k: usize,
    optimize: bool,
    r: &mut R,
    solution: &mut P,
    w: &mut W,
) -> Result<(), CheckError>
    requires { IsLimit limit }
    ensures { let command = FileCommand.WitnessTo k optimize in
        Runs R.left R.failed P.left P.failed W.held W.failed
        command limit r.old solution.old w.old result r.new solution.new w.new }
{
    let witness = bounded_witness(alloc, r, limit, k, optimize, solution)?;
    after_writing(write_witness(w, &witness))
}

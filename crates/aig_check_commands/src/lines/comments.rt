//! Comments that say which literals of a query's clauses stand for inputs, latches and bad state properties.

ghost use Rattle.std.specs.Prelude.{◌≡◌, ◌+◌, ◌<◌, ◌≤◌, ◌^◌, All, length};
ghost use Rattle.std.specs.List.{enumerate_from, flat_map, range_with_len};
ghost use Rattle.aig_circuit.specs.Circuit.{latch_leaves};
ghost use Rattle.aig_dimacs.specs.Text.{sign_of};
ghost use Rattle.aig_witness.specs.Turns.{HasStep};
ghost use Rattle.aig_unroll.specs.Places.{place_at};
ghost use Rattle.aig_output.specs.Sinks.{BuffersOrStops, WritesOrStops};
ghost use Rattle.aig_check_commands.specs.Comments.{bad_line, comments_of, input_lines, latch_comment, literal_line};

use crate::lines::line::buffer_named;
use aig::{AigEdge, AigLatch};
use aig_base::{Lit, Sink, StreamFault, Var};
use aig_circuit::CircuitView;
use aig_output::OutputBuffer;
use aig_runs::Unrolled;
use aig_witness::Places;

/// The sign of a literal.
fn sign(lit: Lit) -> &'static [u8]
    ensures { result.now ≡ sign_of lit }
{
    if lit.polarity() { b"" } else { b"-" }
}

/// Buffers the line that a literal stands for what has this letter and number, at a step.
pub(crate) fn buffer_literal<W: Sink>(
    buffer: &mut OutputBuffer,
    w: &mut W,
    letter: &[u8],
    number: usize,
    step: usize,
    lit: Lit,
) -> Result<(), StreamFault>
    ensures { let text = literal_line letter.now number step lit in
        BuffersOrStops W.held W.failed buffer.old w.old result text buffer.new w.new }
{
    buffer_named(buffer, w, letter, number, step, b' ')?;
    buffer.write_bytes(w, b"is ")?;
    buffer.write_bytes(w, sign(lit))?;
    buffer.write_number(w, usize::from(lit.var()) + 1, b'\n')
}

/// Buffers the lines of the inputs at step `t`.
fn buffer_inputs<'a, W: Sink>(
    buffer: &mut OutputBuffer,
    w: &mut W,
    asked: &'a Unrolled,
    places: &Places<'_, CircuitView<'a>>,
    t: usize,
) -> Result<(), StreamFault>
    requires places { places.now ≡ asked.now.circuit }
    requires step { HasStep asked.now.circuit asked.now.unrolled t }
    requires few { let place = place_at asked.now.circuit asked.now.unrolled t in
        All (λ n. place n < 2 ^ 31) asked.now.circuit.inputs }
    ensures { let text = input_lines asked.now.circuit asked.now.unrolled t in
        BuffersOrStops W.held W.failed buffer.old w.old result text buffer.new w.new }
{
    let unrolled = asked.unrolled();
    let inputs = asked.circuit().inputs();
    for (i, n) in inputs.iter().enumerate() {
        let place = Var::new(places.place(&unrolled, t, *n));
        buffer_literal(buffer, w, b"c i", i, t, place.lit())?;
    }
    Ok(())
}

/// Buffers the lines of the inputs at each step.
fn buffer_steps<'a, W: Sink>(
    buffer: &mut OutputBuffer,
    w: &mut W,
    asked: &'a Unrolled,
    places: &Places<'_, CircuitView<'a>>,
) -> Result<(), StreamFault>
    requires places { places.now ≡ asked.now.circuit }
    requires few { length asked.now.unrolled.nodes ≤ 2 ^ 31 }
    requires small { asked.now.steps < 2 ^ 32 }
    ensures { let text = flat_map (input_lines asked.now.circuit asked.now.unrolled)
        (range_with_len 0 (asked.now.steps + 1)) in
        BuffersOrStops W.held W.failed buffer.old w.old result text buffer.new w.new }
{
    for t in 0..asked.steps() + 1 {
        buffer_inputs(buffer, w, asked, places, t)?;
    }
    Ok(())
}

/// Buffers the lines of the latches at step 0.
fn buffer_latchs<W: Sink>(
    buffer: &mut OutputBuffer,
    w: &mut W,
    latchs: &[AigLatch],
) -> Result<(), StreamFault>
    requires { All (λ latch. latch.input < 2 ^ 31) latchs.now }
    ensures { let text = flat_map latch_comment (enumerate_from 0 (latch_leaves latchs.now)) in
        BuffersOrStops W.held W.failed buffer.old w.old result text buffer.new w.new }
{
    for (i, latch) in latchs.iter().enumerate() {
        buffer_literal(buffer, w, b"c l", i, 0, Var::new(latch.input()).lit())?;
    }
    Ok(())
}

/// Buffers the lines of the bad edges of step `k`.
fn buffer_bads<W: Sink>(
    buffer: &mut OutputBuffer,
    w: &mut W,
    bads: &[AigEdge],
    k: usize,
) -> Result<(), StreamFault>
    requires { All (λ e. e.node_id < 2 ^ 31) bads.now }
    ensures { let text = flat_map (bad_line k) (enumerate_from 0 bads.now) in
        BuffersOrStops W.held W.failed buffer.old w.old result text buffer.new w.new }
{
    for (i, e) in bads.iter().enumerate() {
        buffer_literal(buffer, w, b"c b", i, k, e.to_lit())?;
    }
    Ok(())
}

/// Buffers the comments of a query.
fn buffer_comments<'a, W: Sink>(
    buffer: &mut OutputBuffer,
    w: &mut W,
    asked: &'a Unrolled,
    places: &Places<'_, CircuitView<'a>>,
) -> Result<(), StreamFault>
    requires places { places.now ≡ asked.now.circuit }
    requires few { length asked.now.unrolled.nodes ≤ 2 ^ 31 }
    requires small { asked.now.steps < 2 ^ 32 }
    ensures { let text = comments_of asked.now.circuit asked.now.unrolled asked.now.steps in
        BuffersOrStops W.held W.failed buffer.old w.old result text buffer.new w.new }
{
    buffer_steps(buffer, w, asked, places)?;
    buffer_latchs(buffer, w, asked.circuit().latchs())?;
    buffer_bads(buffer, w, asked.last_bads(), asked.steps())
}

/// Writes the comments of a query: a line for each input at each step, for each latch at step 0, and for each bad state property
/// at the last step, that says which literal of the clauses stands for it. Requires that there are fewer than 2^32 steps.
pub(crate) fn write_comments<'a, W: Sink>(
    w: &mut W,
    asked: &'a Unrolled,
    places: &Places<'_, CircuitView<'a>>,
) -> Result<(), StreamFault>
    requires places { places.now ≡ asked.now.circuit }
    requires few { length asked.now.unrolled.nodes ≤ 2 ^ 31 }
    requires small { asked.now.steps < 2 ^ 32 }
    ensures { let text = comments_of asked.now.circuit asked.now.unrolled asked.now.steps in
        WritesOrStops W.held W.failed w.old result text w.new }
{
    let mut buffer = OutputBuffer::new();
    buffer_comments(&mut buffer, w, asked, places)?;
    buffer.flush(w)
}

//! What is written of the fair runs of FILE.

ghost use Rattle.std.specs.Prelude.{◌≡◌, ◌<◌, ◌^◌, ◌+◌, ◌++◌, ◌∷◌, [], decimal};
ghost use Rattle.aig_output.specs.Sinks.{BuffersOrStops};
ghost use Rattle.aig_answers.specs.Goals.{last_step};
ghost use Rattle.aig_check_commands.specs.Goals.{endless_line, fair_line, justice_line, lasso_text, lassos_line};

use aig_answers::Goal;
use aig_base::{Sink, StreamFault};
use aig_edits::Fairness;
use aig_output::OutputBuffer;

/// Buffers a text, a number and a line feed.
pub(crate) fn buffer_line<W: Sink>(
    buffer: &mut OutputBuffer,
    w: &mut W,
    text: &[u8],
    number: usize,
) -> Result<(), StreamFault>
    ensures { let line = text.now ++ (decimal number ++ 10 ∷ []) in
        BuffersOrStops W.held W.failed buffer.old w.old result line buffer.new w.new }
{
    buffer.write_bytes(w, text)?;
    buffer.write_number(w, number, b'\n')
}

/// Buffers a text, a number, the byte after it, and what comes then.
pub(crate) fn buffer_about<W: Sink>(
    buffer: &mut OutputBuffer,
    w: &mut W,
    text: &[u8],
    number: usize,
    end: u8,
    more: &[u8],
) -> Result<(), StreamFault>
    ensures { let all = text.now ++ (decimal number ++ end ∷ []) ++ more.now in
        BuffersOrStops W.held W.failed buffer.old w.old result all buffer.new w.new }
{
    buffer.write_bytes(w, text)?;
    buffer.write_number(w, number, end)?;
    buffer.write_bytes(w, more)
}

/// Buffers what stands before a number of steps in a line about fair lassos.
fn buffer_lasso_text<W: Sink>(
    buffer: &mut OutputBuffer,
    w: &mut W,
    goal: Goal,
    property: usize,
) -> Result<(), StreamFault>
    ensures { let text = lasso_text goal property in
        BuffersOrStops W.held W.failed buffer.old w.old result text buffer.new w.new }
{
    match goal {
        Goal::Refuted(_) => buffer_about(buffer, w, b"no fair lasso of j", property, b' ', b"of "),
        Goal::RefutedTo(_) => buffer_about(
            buffer,
            w,
            b"no fair lasso of j",
            property,
            b' ',
            b"of at most ",
        ),
        Goal::Inductive(..) => buffer_about(
            buffer,
            w,
            b"no fair run of j",
            property,
            b',',
            b" if no fair lasso of at most ",
        ),
        _ => buffer.write_bytes(w, b""),
    }
}

/// Buffers the line about fair lassos.
fn buffer_lassos<W: Sink>(
    buffer: &mut OutputBuffer,
    w: &mut W,
    goal: Goal,
    property: usize,
) -> Result<(), StreamFault>
    requires { last_step goal < 2 ^ 32 }
    ensures { let line = lassos_line goal property in
        BuffersOrStops W.held W.failed buffer.old w.old result line buffer.new w.new }
{
    buffer_lasso_text(buffer, w, goal, property)?;
    buffer.write_number(w, goal.last_step() + 1, b' ')?;
    buffer.write_bytes(w, b"steps\n")
}

/// Buffers the line about a justice property.
fn buffer_justice<W: Sink>(
    buffer: &mut OutputBuffer,
    w: &mut W,
    goal: Goal,
    property: usize,
) -> Result<(), StreamFault>
    requires { last_step goal < 2 ^ 32 }
    ensures { let line = justice_line goal property in
        BuffersOrStops W.held W.failed buffer.old w.old result line buffer.new w.new }
{
    match goal {
        Goal::Safe(..) | Goal::SafeBySteps(..) => {
            buffer_line(buffer, w, b"no fair run of j", property)
        }
        _ => buffer_lassos(buffer, w, goal, property),
    }
}

/// Buffers the line about runs without end that meet the constraints and fairness.
fn buffer_endless<W: Sink>(
    buffer: &mut OutputBuffer,
    w: &mut W,
    goal: Goal,
) -> Result<(), StreamFault>
    requires { last_step goal < 2 ^ 32 }
    ensures { let line = endless_line goal in
        BuffersOrStops W.held W.failed buffer.old w.old result line buffer.new w.new }
{
    match goal {
        Goal::Refuted(k) => buffer_about(
            buffer,
            w,
            b"no lasso of ",
            k + 1,
            b' ',
            b"steps meets the constraints and fairness\n",
        ),
        Goal::RefutedTo(k) => buffer_about(
            buffer,
            w,
            b"no lasso of at most ",
            k + 1,
            b' ',
            b"steps meets the constraints and fairness\n",
        ),
        Goal::Inductive(k, _) => buffer_about(
            buffer,
            w,
            b"no run without end meets the constraints and fairness, if no lasso of at most ",
            k + 1,
            b' ',
            b"steps does\n",
        ),
        Goal::Safe(..) | Goal::SafeBySteps(..) => {
            let line = b"no run without end meets the constraints and fairness\n";
            buffer.write_bytes(w, line)
        }
    }
}

/// Buffers what proofs of a goal show of the fair runs of FILE.
pub(crate) fn buffer_fair<W: Sink>(
    buffer: &mut OutputBuffer,
    w: &mut W,
    fairness: Fairness,
    goal: Goal,
) -> Result<(), StreamFault>
    requires { last_step goal < 2 ^ 32 }
    ensures { let line = fair_line fairness goal in
        BuffersOrStops W.held W.failed buffer.old w.old result line buffer.new w.new }
{
    match fairness {
        Fairness::Justice(property) => buffer_justice(buffer, w, goal, property),
        Fairness::Alone => buffer_endless(buffer, w, goal),
    }
}

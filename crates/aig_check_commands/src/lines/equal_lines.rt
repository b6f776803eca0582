//! The lines that say that two files' machines are equal.

ghost use Rattle.std.specs.Prelude.{◌≡◌, ◌<◌, ◌++◌, ◌∷◌, [], length};
ghost use Rattle.aig_output.specs.Sinks.{BuffersOrStops, WritesOrStops};
ghost use Rattle.aig_check_commands.specs.EqualLines.{always_line, comparison_text, equal_line, starts_text};

use aig_base::{Sink, StreamFault};
use aig_edits::{Comparison, Constraints, Matching, Starts};
use aig_output::OutputBuffer;

/// What is said last: how registers with open start begin, and a line feed.
fn starts_end(starts: Starts) -> &'static str
    ensures { result.now ≡ starts_text starts ++ 10 ∷ [] }
{
    match starts {
        Starts::Apart => "\n",
        Starts::Alike(Matching::ByOrder) => ", registers with open start alike by order\n",
        Starts::Alike(Matching::ByName) => ", registers with open start alike by name\n",
    }
}

/// How machines are compared, and a line feed, in two texts one after the other: what constraints say, where they aren't those of both,
/// and then how registers with open start begin. The first is never empty.
fn comparison_end(comparison: Comparison) -> (&'static str, &'static str)
    ensures text { result.0.now ++ result.1.now ≡ comparison_text comparison ++ 10 ∷ [] }
    ensures some { 0 < length result.0.now }
{
    let starts = starts_end(comparison.starts);
    match comparison.constraints {
        Constraints::OfBoth => (starts, ""),
        Constraints::OfFirst => (", under the constraints of the first alone", starts),
        Constraints::Compared => (", constraints too", starts),
    }
}

/// Buffers two texts.
fn buffer_both<W: Sink>(
    buffer: &mut OutputBuffer,
    w: &mut W,
    first: &[u8],
    second: &[u8],
) -> Result<(), StreamFault>
    ensures { let both = first.now ++ second.now in
        BuffersOrStops W.held W.failed buffer.old w.old result both buffer.new w.new }
{
    buffer.write_bytes(w, first)?;
    buffer.write_bytes(w, second)
}

/// Buffers the line of machines, compared so, that are equal at step `k`.
fn buffer_equal<W: Sink>(
    buffer: &mut OutputBuffer,
    w: &mut W,
    comparison: Comparison,
    k: usize,
) -> Result<(), StreamFault>
    ensures { let line = equal_line comparison k in
        BuffersOrStops W.held W.failed buffer.old w.old result line buffer.new w.new }
{
    let (first, second) = comparison_end(comparison);
    let first = first.as_bytes();
    buffer.write_bytes(w, b"equal at step ")?;
    buffer.write_number(w, k, first[0])?;
    buffer_both(buffer, w, &first[1..], second.as_bytes())
}

/// Writes the line of machines, compared so, that are equal at step `k`.
pub(crate) fn write_equal<W: Sink>(
    w: &mut W,
    comparison: Comparison,
    k: usize,
) -> Result<(), StreamFault>
    ensures { let line = equal_line comparison k in
        WritesOrStops W.held W.failed w.old result line w.new }
{
    let mut buffer = OutputBuffer::new();
    buffer_equal(&mut buffer, w, comparison, k)?;
    buffer.flush(w)
}

/// Buffers the line of those that are equal at every step.
fn buffer_always<W: Sink>(
    buffer: &mut OutputBuffer,
    w: &mut W,
    comparison: Comparison,
) -> Result<(), StreamFault>
    ensures { let line = always_line comparison in
        BuffersOrStops W.held W.failed buffer.old w.old result line buffer.new w.new }
{
    let (first, second) = comparison_end(comparison);
    buffer.write_bytes(w, b"equal at every step")?;
    buffer_both(buffer, w, first.as_bytes(), second.as_bytes())
}

/// Writes the line of those that are equal at every step.
pub(crate) fn write_always<W: Sink>(w: &mut W, comparison: Comparison) -> Result<(), StreamFault>
    ensures { let line = always_line comparison in
        WritesOrStops W.held W.failed w.old result line w.new }
{
    let mut buffer = OutputBuffer::new();
    buffer_always(&mut buffer, w, comparison)?;
    buffer.flush(w)
}

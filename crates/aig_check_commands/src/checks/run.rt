//! What a witness shows of the machine of a file.

ghost use Rattle.std.specs.Prelude.{◌≡◌};
ghost use Rattle.aig_command_line.specs.Limits.{IsLimit};
ghost use Rattle.aig_output.specs.Sinks.{BuffersOrStops, WritesOrStops};
ghost use Rattle.aig_check_commands.specs.Running.{Runs, lasso_line, shown_line};

use crate::checks::printing::after_writing;
use crate::command::FileCommand;
use crate::error::CheckError;
use crate::lines::line::buffer_named;
use aig_base::{Sink, Source, StreamFault};
use aig_output::OutputBuffer;
use aig_witness::{ShownLasso, ShownProperty, check_claim};
use std::alloc::Global;

/// Buffers the line of a fair lasso that is shown.
fn buffer_lasso<W: Sink>(
    buffer: &mut OutputBuffer,
    w: &mut W,
    shown: ShownLasso,
) -> Result<(), StreamFault>
    ensures { let line = lasso_line shown.justice shown.start shown.last in
        BuffersOrStops W.held W.failed buffer.old w.old result line buffer.new w.new }
{
    buffer.write_bytes(w, b"j")?;
    buffer.write_number(w, shown.justice, b' ')?;
    buffer.write_bytes(w, b"in a loop from step ")?;
    buffer.write_number(w, shown.start, b' ')?;
    buffer.write_bytes(w, b"to ")?;
    buffer.write_number(w, shown.last, b'\n')
}

/// Buffers the line of what is shown.
fn buffer_shown<W: Sink>(
    buffer: &mut OutputBuffer,
    w: &mut W,
    shown: ShownProperty,
) -> Result<(), StreamFault>
    ensures { let line = shown_line shown in
        BuffersOrStops W.held W.failed buffer.old w.old result line buffer.new w.new }
{
    match shown {
        ShownProperty::Bad(shown) => { buffer_named(buffer, w, b"b", shown.bad, shown.step, b'\n') }
        ShownProperty::Lasso(shown) => buffer_lasso(buffer, w, shown),
    }
}

/// Writes the line of what is shown.
fn write_shown<W: Sink>(w: &mut W, shown: ShownProperty) -> Result<(), StreamFault>
    ensures { let line = shown_line shown in
        WritesOrStops W.held W.failed w.old result line w.new }
{
    let mut buffer = OutputBuffer::new();
    buffer_shown(&mut buffer, w, shown)?;
    buffer.flush(w)
}

/// Checks that a witness shows a bad state or a fair lasso of a file's machine, and prints which property that is, and at which step
/// it is reached, or from which step to which its loop goes.
pub fn print_run<R: Source, P: Source, W: Sink>(
    alloc: Global,
    limit: usize,
    r: &mut R,
    witness: &mut P,
    w: &mut W,
) -> Result<(), CheckError>
    requires { IsLimit limit }
    ensures { let command = FileCommand.Run in
        Runs R.left R.failed P.left P.failed W.held W.failed
        command limit r.old witness.old w.old result r.new witness.new w.new }
{
    let shown = check_claim(alloc, r, limit, witness)?;
    after_writing(write_shown(w, shown))
}

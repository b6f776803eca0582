//! What the program does with its words.

ghost use Rattle.std.specs.Prelude.{◌≡◌, ◌++◌, ◌∷◌, [], IfOk, IfSome, IsErr, IsNone, IsTrue, OnOk, map, string_bytes};
ghost use Rattle.aig_command_line.specs.declared.status.Ending.TheVariants as endings;
ghost use Rattle.aig_command_line.specs.Ending.{WritesLine};
ghost use Rattle.aig_check_commands.specs.Acting.{Acts, Obeys};
ghost use Rattle.aig_check_commands.specs.Help.{answer_of};
ghost use Rattle.aig_check_commands.specs.Fits.{Fits};
ghost use Rattle.aig_check_commands.specs.Opening.{unopened};

use crate::checks::running::run;
use crate::command::{Call, USAGE, call_of};
use crate::error::CheckError;
use crate::inputs::open_all;
use aig_base::{MemoryError, Sink};
use aig_command_line::{Ending, Flush, Help, OpenError, Opens, asked, write_text};
use std::alloc::Global;

/// The program's version.
pub const VERSION: &str = "aigcheck 1.0.0";

/// What a file that isn't opened is refused for.
impl From<OpenError> for CheckError {
    ghost from_gives = { λ error e. e ≡ unopened error };

    fn from(error: OpenError) -> CheckError {
        match error {
            OpenError::Refused => CheckError::Open,
        }
    }
}

/// Opens the files that words name, and runs what they ask for.
fn act_on<F: Opens, W: Sink>(
    alloc: Global,
    files: &F,
    call: &Call<'_>,
    w: &mut W,
) -> Result<(), CheckError>
    requires { Fits call.now }
    ensures { Acts (F.opens files.now) F.File.left F.File.failed W.held W.failed call.now.limit
        call.now.asked (map string_bytes call.now.paths.now)
        (map string_bytes call.now.further.now) w.old result w.new }
{
    let opened = open_all(alloc, files, call)?;
    run(alloc, call.limit, call.asked, opened, w)
}

/// Runs the command that words give, and flushes what it prints.
fn print<F: Opens, W: Flush>(
    alloc: Global,
    files: &F,
    call: &Call<'_>,
    w: &mut W,
) -> Result<(), CheckError>
    requires { Fits call.now }
    ensures acts { Acts (F.opens files.now) F.File.left F.File.failed W.held W.failed call.now.limit
        call.now.asked (map string_bytes call.now.paths.now)
        (map string_bytes call.now.further.now) w.old result w.new }
    ensures done { OnOk result (IsTrue (W.flushed w.new)) }
{
    act_on(alloc, files, call, w)?;
    Ok(w.flush()?)
}

/// Writes a line, and flushes it.
fn say<W: Flush>(text: &str, w: &mut W) -> Result<(), CheckError>
    ensures { WritesLine W.held W.failed W.flushed CheckError.Write (text.now ++ 10 ∷ []) w.old
        result w.new }
{
    write_text(w, text.as_bytes())?;
    Ok(w.flush()?)
}

/// The answer to a question of the program.
fn answer(question: Help) -> &'static str
    ensures { result.now ≡ answer_of question }
{
    match question {
        Help::Usage => USAGE,
        Help::Version => VERSION,
    }
}

/// Does what the words after the program's name ask for: opens FILE and what is given beside it, runs the command on them, and
/// flushes `w`.
fn obey<F: Opens, W: Flush>(
    alloc: Global,
    words: &[String],
    files: &F,
    w: &mut W,
) -> Ending<CheckError>
    ensures { Obeys (F.opens files.now) F.File.left F.File.failed W.held W.failed W.flushed
        answer_of (map string_bytes words.now) w.old result w.new }
{
    if let Some(question) = asked(words) {
        return Ending::of(say(answer(question), w));
    }
    let Some(call) = call_of(words) else {
        return Ending::NoCommand;
    };
    Ending::of(print(alloc, files, &call, w))
}

/// Does what the words after the program's name ask for, as they were read: opens FILE and what is given beside it, runs the
/// command on them, and flushes `w`.
pub fn act<F: Opens, W: Flush>(
    alloc: Global,
    words: &Result<Option<Vec<String>>, MemoryError>,
    files: &F,
    w: &mut W,
) -> Ending<CheckError>
    ensures words { IfOk words.now (λ read. IfSome read (λ given.
        Obeys (F.opens files.now) F.File.left F.File.failed W.held W.failed W.flushed
        answer_of (map string_bytes given.items) w.old result w.new)) }
    // Words that aren't UTF-8 give no command.
    ensures other { IfOk words.now (λ read. IsNone read
        → (result ≡ endings.NoCommand) × (w.new ≡ w.old)) }
    ensures memory { IsErr words.now
        → (result ≡ endings.Refused CheckError.Memory) × (w.new ≡ w.old) }
{
    match words {
        Ok(Some(words)) => obey(alloc, words.as_slice(), files, w),
        Ok(None) => Ending::NoCommand,
        Err(_) => Ending::Refused(CheckError::Memory),
    }
}

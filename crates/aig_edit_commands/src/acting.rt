//! Runs the program with its arguments.

ghost use Rattle.std.specs.Prelude.{◌≡◌, ◌++◌, ◌∷◌, [], ℕ, IfOk, IfSome, IsErr, IsNone, IsTrue, OnOk, length, map, string_bytes};
ghost use Rattle.aig_circuit.specs.Circuit.{IsCircuit};
ghost use Rattle.aig_circuit.specs.View.{lists_circuit};
ghost use Rattle.aig_command_line.specs.declared.status.Ending.TheVariants as endings;
ghost use Rattle.aig_command_line.specs.Ending.{WritesLine};
ghost use Rattle.aig_command_line.specs.Limits.{IsLimit};
ghost use Rattle.aig_command_line.specs.Places.{whole};
ghost use Rattle.aig_format.specs.File.{File};
ghost use Rattle.aig_format.specs.Fits.{Fits};
ghost use Rattle.aig_format.specs.Writable.{IsWritable};
ghost use Rattle.aig_reader.specs.Reading.{AreListsOf};
ghost use Rattle.aig_reader.specs.Verdicts.{Accepted, verdict_by};
ghost use Rattle.aig_edits.specs.Joints.{IsUnwritten, PrintsJoint, first_verdict, second_verdict};
ghost use Rattle.aig_edits.specs.Pairs.{OfTwoFiles};
ghost use Rattle.aig_edit_commands.specs.declared.acting.CommandError.TheVariants as refusals;
ghost use Rattle.aig_edit_commands.specs.Acting.{Acts, Obeys, PrintsOfFile, PrintsBeside, PrintsFile, PrintsFiles, PrintsOpen, PrintsPair, ReadsBoth, told};
ghost use Rattle.aig_edit_commands.specs.Help.{answer_of};
ghost use Rattle.aig_edits.specs.Edits.{IsEditUnwritten, edit_verdict};
ghost use Rattle.aig_edit_commands.specs.CommandWords.{paths_of};

use crate::command::{Command, FileCommand, USAGE, call_of};
use aig_base::{MemoryError, Sink, Source, StreamFault};
use aig_circuit::{CircuitLists, CircuitView};
use aig_command_line::{
    Ending, Flush, Help, OpenError, Opens, Placed, asked, read_placed, write_text,
};
use aig_edits::{
    EditError, PairError, Pairing, write_edit, write_info, write_joint, write_live, write_question,
    write_reduction, write_rounds,
};
use aig_format_laws::files_are_circuits;
use aig_reader::ReadError;
use std::alloc::Global;
use thiserror::Error;

/// The version of the program.
pub const VERSION: &str = "aigedit 1.0.0";

/// The reasons why the program ends with status 1.
#[derive(Clone, Copy, Debug, PartialEq, Eq, Error)]
pub enum CommandError {
    /// A command on one file has no result.
    #[error(transparent)]
    One(EditError),
    /// A command on two files has no result.
    #[error(transparent)]
    Two(PairError),
    /// Memory was refused before a file was opened.
    #[error("out of memory")]
    Memory,
    /// The usage text or the version couldn't be written.
    #[error("write failed")]
    Write,
}

impl From<StreamFault> for CommandError {
    ghost from_gives = { λ _ r. r ≡ refusals.Write };

    fn from(_fault: StreamFault) -> CommandError {
        CommandError::Write
    }
}

/// Writes the result of a command on the circuit of a file.
fn write_made<W: Sink>(
    alloc: Global,
    limit: usize,
    command: &FileCommand,
    lists: CircuitLists,
    w: &mut W,
) -> Result<(), EditError>
    requires limit { IsLimit limit }
    requires circuit { IsCircuit (lists_circuit lists) }
    requires plain { IsWritable (lists_circuit lists) }
    ensures prints { (f : File) (bound : ℕ) → Fits f bound → AreListsOf f lists
        → PrintsOfFile W.held W.failed limit command.now w.old w.new f result }
    ensures never_read { verdict_by edit_verdict result ≡ Accepted }
    ensures kept { IsEditUnwritten result → w.new ≡ w.old }
{
    match command {
        FileCommand::Edit(edit) => write_edit(edit, lists, limit, w),
        FileCommand::Reduction => write_reduction(alloc, &CircuitView::new(&lists), w),
        FileCommand::Question(k) => write_question(alloc, *k, &CircuitView::new(&lists), limit, w),
        FileCommand::Live(fairness) => write_live(alloc, *fairness, &CircuitView::new(&lists), w),
        FileCommand::Rounds(fairness, n) => {
            write_rounds(alloc, *fairness, *n, &CircuitView::new(&lists), w)
        }
        FileCommand::Info => write_info(alloc, &CircuitView::new(&lists), w),
    }
}

/// Writes the result of a command on the circuit of a file, and flushes the output.
fn write_flushed<W: Flush>(
    alloc: Global,
    limit: usize,
    command: &FileCommand,
    lists: CircuitLists,
    w: &mut W,
) -> Result<(), EditError>
    requires limit { IsLimit limit }
    requires circuit { IsCircuit (lists_circuit lists) }
    requires plain { IsWritable (lists_circuit lists) }
    ensures prints { (f : File) (bound : ℕ) → Fits f bound → AreListsOf f lists
        → PrintsOfFile W.held W.failed limit command.now w.old w.new f result }
    ensures never_read { verdict_by edit_verdict result ≡ Accepted }
    ensures kept { IsEditUnwritten result → w.new ≡ w.old }
    ensures done { OnOk result (IsTrue (W.flushed w.new)) }
{
    write_made(alloc, limit, command, lists, w)?;
    Ok(w.flush()?)
}

/// Prints the result of a command on an opened file, and flushes the output.
fn print_open<R: Source + Drop, W: Flush>(
    alloc: Global,
    limit: usize,
    command: &FileCommand,
    r: R,
    w: &mut W,
) -> Result<(), Placed<EditError>>
    requires { IsLimit limit }
    ensures { (rest : R) × PrintsOpen R.left R.failed W.held W.failed W.flushed limit command.now r
        w.old result rest w.new }
{
    files_are_circuits();
    match read_placed(alloc, r, limit) {
        Ok(lists) => Placed::in_whole(write_flushed(alloc, limit, command, lists, w)),
        Err(refused) => Err(Placed {
            error: EditError::Read(refused.error),
            place: refused.place,
        }),
    }
}

/// Prints the result of a command on the file at a path, and flushes the output.
fn print_file<F: Opens, W: Flush>(
    alloc: Global,
    files: &F,
    limit: usize,
    command: &FileCommand,
    path: &str,
    w: &mut W,
) -> Result<(), Placed<EditError>>
    requires { IsLimit limit }
    ensures { PrintsFile (F.opens files.now) F.File.left F.File.failed W.held W.failed W.flushed
        limit
        command.now path.now w.old result w.new }
{
    match files.open(path) {
        Ok(file) => print_open(alloc, limit, command, file, w),
        Err(OpenError::Refused) => Err(Placed::whole(EditError::Read(ReadError::Open))),
    }
}

/// Reads two opened files, the second only if the first is accepted.
fn read_both<R: Source + Drop, S: Source + Drop>(
    alloc: Global,
    limit: usize,
    first: R,
    second: S,
) -> Result<(CircuitLists, CircuitLists), Placed<PairError>>
    requires { IsLimit limit }
    ensures { (rest : R) × (other : S) × ReadsBoth R.left R.failed S.left S.failed limit first
        second result rest other }
{
    match read_placed(alloc, first, limit) {
        Ok(own) => match read_placed(alloc, second, limit) {
            Ok(other) => Ok((own, other)),
            Err(refused) => Err(Placed {
                error: PairError::Other(refused.error),
                place: refused.place,
            }),
        },
        Err(refused) => Err(Placed {
            error: PairError::Read(refused.error),
            place: refused.place,
        }),
    }
}

/// Writes the joint circuit of two circuits, and flushes the output.
fn write_pair<W: Flush>(
    pairing: Pairing,
    own: &CircuitLists,
    other: &CircuitLists,
    w: &mut W,
) -> Result<(), PairError>
    requires own { IsCircuit (lists_circuit own.now) }
    requires other { IsCircuit (lists_circuit other.now) }
    ensures prints { OfTwoFiles own.now other.now
        (λ f g. PrintsJoint W.held W.failed pairing w.old w.new f g result) }
    ensures never_read { verdict_by first_verdict result ≡ Accepted }
    ensures never_other { verdict_by second_verdict result ≡ Accepted }
    ensures kept { IsUnwritten result → w.new ≡ w.old }
    ensures done { OnOk result (IsTrue (W.flushed w.new)) }
{
    write_joint(pairing, own, other, w)?;
    Ok(w.flush()?)
}

/// Prints the joint circuit of two opened files, and flushes the output.
fn print_pair<R: Source + Drop, S: Source + Drop, W: Flush>(
    alloc: Global,
    limit: usize,
    pairing: Pairing,
    first: R,
    second: S,
    w: &mut W,
) -> Result<(), Placed<PairError>>
    requires { IsLimit limit }
    ensures { (rest : R) × (other : S) × PrintsPair R.left R.failed S.left S.failed W.held W.failed
        W.flushed limit pairing first second w.old result rest other w.new }
{
    match read_both(alloc, limit, first, second) {
        Ok((own, other)) => Placed::in_whole(write_pair(pairing, &own, &other, w)),
        Err(refused) => Err(refused),
    }
}

/// Prints the joint circuit of an opened file and the file at a path, and flushes the output.
fn print_beside<F: Opens, R: Source + Drop, W: Flush>(
    alloc: Global,
    files: &F,
    limit: usize,
    pairing: Pairing,
    first: R,
    other: &str,
    w: &mut W,
) -> Result<(), Placed<PairError>>
    requires { IsLimit limit }
    ensures { (rest : R) × PrintsBeside (F.opens files.now) R.left R.failed F.File.left
        F.File.failed W.held W.failed W.flushed limit pairing first other.now w.old result rest
        w.new }
{
    match files.open(other) {
        Ok(second) => print_pair(alloc, limit, pairing, first, second, w),
        Err(OpenError::Refused) => Err(Placed::whole(PairError::Other(ReadError::Open))),
    }
}

/// Prints the joint circuit of the files at two paths, and flushes the output.
fn print<F: Opens, W: Flush>(
    alloc: Global,
    files: &F,
    limit: usize,
    pairing: Pairing,
    file: &str,
    other: &str,
    w: &mut W,
) -> Result<(), Placed<PairError>>
    requires { IsLimit limit }
    ensures { PrintsFiles (F.opens files.now) F.File.left F.File.failed
        W.held W.failed W.flushed limit pairing file.now other.now w.old result w.new }
{
    match files.open(file) {
        Ok(first) => print_beside(alloc, files, limit, pairing, first, other, w),
        Err(OpenError::Refused) => Err(Placed::whole(PairError::Read(ReadError::Open))),
    }
}

/// Returns the result of a command on one file, with its error as an error of the program.
fn told_one(done: Result<(), Placed<EditError>>) -> Result<(), Placed<CommandError>>
    ensures { result ≡ told refusals.One done }
{
    match done {
        Ok(()) => Ok(()),
        Err(refused) => Err(Placed {
            error: CommandError::One(refused.error),
            place: refused.place,
        }),
    }
}

/// Returns the result of a command on two files, with its error as an error of the program.
fn told_two(done: Result<(), Placed<PairError>>) -> Result<(), Placed<CommandError>>
    ensures { result ≡ told refusals.Two done }
{
    match done {
        Ok(()) => Ok(()),
        Err(refused) => Err(Placed {
            error: CommandError::Two(refused.error),
            place: refused.place,
        }),
    }
}

/// Runs a command on its files.
fn perform<F: Opens, W: Flush>(
    alloc: Global,
    files: &F,
    limit: usize,
    command: &Command,
    paths: &[String],
    w: &mut W,
) -> Result<(), Placed<CommandError>>
    requires limit { IsLimit limit }
    requires paths { length paths.now ≡ paths_of command.now }
    ensures { Acts (F.opens files.now) F.File.left F.File.failed W.held W.failed W.flushed limit
        command.now (map string_bytes paths.now) w.old result w.new }
{
    let file = paths[0].as_str();
    match command {
        Command::File(command) => told_one(print_file(alloc, files, limit, command, file, w)),
        Command::Pair(pairing) => {
            let other = paths[1].as_str();
            told_two(print(alloc, files, limit, *pairing, file, other, w))
        }
    }
}

/// Writes a line, and flushes it.
fn say<W: Flush>(text: &str, w: &mut W) -> Result<(), CommandError>
    ensures { WritesLine W.held W.failed W.flushed refusals.Write (text.now ++ 10 ∷ []) w.old
        result w.new }
{
    write_text(w, text.as_bytes())?;
    Ok(w.flush()?)
}

/// Answers `--help` or `--version`.
fn answer(question: Help) -> &'static str
    ensures { result.now ≡ answer_of question }
{
    match question {
        Help::Usage => USAGE,
        Help::Version => VERSION,
    }
}

/// Runs the program with the arguments after its name.
fn obey<F: Opens, W: Flush>(
    alloc: Global,
    words: &[String],
    files: &F,
    w: &mut W,
) -> Ending<Placed<CommandError>>
    ensures { Obeys (F.opens files.now) F.File.left F.File.failed W.held
        W.failed W.flushed answer_of (map string_bytes words.now) w.old result w.new }
{
    if let Some(question) = asked(words) {
        return Ending::of(Placed::in_whole(say(answer(question), w)));
    }
    let Some(call) = call_of(words) else {
        return Ending::NoCommand;
    };
    Ending::of(perform(alloc, files, call.limit, &call.command, call.paths, w))
}

/// Runs the program with its parsed arguments: opens the files, prints the result to `w`, and
/// flushes the output.
pub fn act<F: Opens, W: Flush>(
    alloc: Global,
    words: &Result<Option<Vec<String>>, MemoryError>,
    files: &F,
    w: &mut W,
) -> Ending<Placed<CommandError>>
    ensures words { IfOk words.now (λ read. IfSome read (λ given.
        Obeys (F.opens files.now) F.File.left F.File.failed W.held
        W.failed W.flushed answer_of (map string_bytes given.items) w.old result w.new)) }
    // Arguments that aren't UTF-8 aren't a command.
    ensures other { IfOk words.now (λ read. IsNone read
        → (result ≡ endings.NoCommand) × (w.new ≡ w.old)) }
    ensures memory { IsErr words.now
        → (result ≡ endings.Refused (whole refusals.Memory)) × (w.new ≡ w.old) }
{
    match words {
        Ok(Some(words)) => obey(alloc, words.as_slice(), files, w),
        Ok(None) => Ending::NoCommand,
        Err(_) => Ending::Refused(Placed::whole(CommandError::Memory)),
    }
}

//! Notes about the parts of files that an answer doesn't cover.

ghost use Rattle.std.specs.Prelude.{◌≡◌, IfOk, IfSome, IsErr, IsNone, map, string_bytes};
ghost use Rattle.aig_edit_commands.specs.Noticing.{TellsBeside, is_within, regard_of};

use crate::acting::CommandError;
use crate::command::{Command, FileCommand, call_of};
use aig_base::MemoryError;
use aig_command_line::{Ending, Headers, Placed, Regard, Teller, tell_of_files};
use aig_edits::{Constraints, Edit, Pairing};

/// Returns whether a note is printed that only runs which meet the constraints are compared. It
/// isn't printed if the arguments contain `--constraints`.
fn is_within(constraints: Constraints) -> bool
    ensures { result ≡ is_within constraints }
{
    matches!(constraints, Constraints::OfBoth)
}

/// Returns which notes a command needs: whether it drops justice and fairness, and whether it
/// compares.
fn regard_of(command: &Command) -> Regard
    ensures { result ≡ regard_of command.now }
{
    let leaves_out = match command {
        Command::File(FileCommand::Edit(Edit::Cone(_))) => true,
        Command::File(FileCommand::Reduction | FileCommand::Question(_)) => true,
        Command::Pair(Pairing::Miter(_) | Pairing::Certificate) => true,
        _ => false,
    };
    let compares = match command {
        Command::Pair(Pairing::Miter(comparison)) => is_within(comparison.constraints),
        _ => false,
    };
    Regard {
        leaves_out,
        compares,
    }
}

/// Prints, with the answer to these arguments, the notes about what it doesn't cover.
fn tell_beside<T: Teller>(
    words: &[String],
    headers: Headers,
    ending: Ending<Placed<CommandError>>,
    errors: &mut T,
)
    ensures { let given = map string_bytes words.now in
        TellsBeside T.tells given headers ending errors.old errors.new }
{
    let Ending::Done = ending else {
        return;
    };
    let Some(call) = call_of(words) else {
        return;
    };
    tell_of_files(
        "aigedit",
        call.paths,
        regard_of(&call.command),
        headers,
        errors,
    );
}

/// Prints, with an answer, the notes about what it doesn't cover, for each file whose header
/// requires them.
pub fn notice<T: Teller>(
    words: &Result<Option<Vec<String>>, MemoryError>,
    headers: Headers,
    ending: Ending<Placed<CommandError>>,
    errors: &mut T,
)
    ensures words { IfOk words.now (λ read. IfSome read (λ given.
        TellsBeside T.tells (map string_bytes given.items) headers ending errors.old errors.new)) }
    ensures other { IfOk words.now (λ read. IsNone read → errors.new ≡ errors.old) }
    ensures memory { IsErr words.now → errors.new ≡ errors.old }
{
    match words {
        Ok(Some(words)) => tell_beside(words.as_slice(), headers, ending, errors),
        _ => {}
    }
}

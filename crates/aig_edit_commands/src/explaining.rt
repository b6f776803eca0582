//! Finds the file to which a refusal belongs.

ghost use Rattle.std.specs.Prelude.{◌≡◌, IfNone, IfOk, IfSome, IsErr, IsNone, None, Some, map, string_bytes};
ghost use Rattle.aig_command_line.specs.Ending.{IsMapped};
ghost use Rattle.aig_edit_commands.specs.Explaining.{IsToldAlone, TellsPlaced, TellsOf, word_of};

use crate::acting::CommandError;
use crate::command::call_of;
use crate::subjects::{Subject, about_error};
use aig_base::MemoryError;
use aig_command_line::{Ending, Fault, Placed, path_at};

/// Returns the path of the file to which an error belongs, if it belongs to a file.
fn path_of(paths: &[String], subject: Subject) -> Option<&str>
    ensures some { IfSome result
        (λ path. word_of subject (map string_bytes paths.now) ≡ Some path.now) }
    ensures none { IfNone result (word_of subject (map string_bytes paths.now) ≡ None) }
{
    match subject {
        Subject::Nothing => None,
        Subject::File => path_at(paths, 0),
        Subject::Other => path_at(paths, 1),
    }
}

/// Returns the message about an error of a command on the files at these paths.
fn fault_of(paths: &[String], refused: Placed<CommandError>) -> Fault<'_, CommandError>
    ensures { TellsPlaced (map string_bytes paths.now) refused result }
{
    match path_of(paths, about_error(refused.error)) {
        Some(path) => Fault::In {
            path,
            place: refused.place,
            error: refused.error,
        },
        None => Fault::Alone(refused.error),
    }
}

/// Returns the message about an error of the command with these arguments.
fn fault_by(words: &[String], refused: Placed<CommandError>) -> Fault<'_, CommandError>
    ensures { TellsOf (map string_bytes words.now) refused result }
{
    match call_of(words) {
        Some(call) => fault_of(call.paths, refused),
        None => Fault::Alone(refused.error),
    }
}

/// Adds the name of the file to a refusal. Other results don't change, and neither do the error and
/// the location of a refusal.
pub fn explain(
    words: &Result<Option<Vec<String>>, MemoryError>,
    ending: Ending<Placed<CommandError>>,
) -> Ending<Fault<'_, CommandError>>
    ensures words { IfOk words.now (λ read. IfSome read (λ given.
        IsMapped (TellsOf (map string_bytes given.items)) ending result)) }
    // An error before the arguments are read doesn't belong to a file.
    ensures other { IfOk words.now (λ read. IsNone read → IsMapped IsToldAlone ending result) }
    ensures memory { IsErr words.now → IsMapped IsToldAlone ending result }
{
    match words {
        Ok(Some(words)) => ending.map(|refused| fault_by(words.as_slice(), refused)),
        _ => ending.map(|refused| Fault::Alone(refused.error)),
    }
}

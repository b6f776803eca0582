//! What an answer isn't about.

ghost use Rattle.std.specs.Prelude.{◌≡◌, IfOk, IfSome, IsErr, IsNone, map, string_bytes};
ghost use Rattle.aig_check_commands.specs.Noticing.{TellsBeside, is_within, regard_of};

use crate::command::{Asked, Command, FileCommand, call_of};
use crate::error::CheckError;
use crate::file_subjects::is_fair;
use aig_base::MemoryError;
use aig_command_line::{Ending, Headers, Regard, Teller, tell_of_files};
use aig_edits::Constraints;
use aig_subjects::Subject;

/// Whether it is told that only runs are compared that constraints allow: not where the words say what constraints say.
fn is_within(constraints: Constraints) -> bool
    ensures { result ≡ is_within constraints }
{
    matches!(constraints, Constraints::OfBoth)
}

/// What a command does with parts of its files that its answer isn't about: it answers without a look at justice and fairness, but where
/// fair runs are asked about, and `run`, which names the property that the witness shows. Where it compares, it looks only at runs that the
/// constraints of both files allow, if the words don't say what constraints say.
fn regard_of(asked: Asked) -> Regard
    ensures { result ≡ regard_of asked }
{
    Regard {
        leaves_out: match asked.command {
            Command::File(FileCommand::Run) => false,
            _ => !is_fair(asked.subject),
        },
        compares: match asked.command {
            Command::Check {
                subject: Subject::Miter(comparison) | Subject::MiterCertified(comparison),
                ..
            } => is_within(comparison.constraints),
            _ => false,
        },
    }
}

/// Tells beside an answer to these words what it isn't about.
fn tell_beside<T: Teller>(
    words: &[String],
    headers: Headers,
    ending: Ending<CheckError>,
    errors: &mut T,
)
    ensures { let given = map string_bytes words.now in
        TellsBeside T.tells given headers ending errors.old errors.new }
{
    let Ending::Done = ending else {
        return;
    };
    let Some(call) = call_of(words) else {
        return;
    };
    tell_of_files(
        "aigcheck",
        call.paths,
        regard_of(call.asked),
        headers,
        errors,
    );
}

/// Tells beside an answer what it isn't about, of each file with such a header.
pub fn notice<T: Teller>(
    words: &Result<Option<Vec<String>>, MemoryError>,
    headers: Headers,
    ending: Ending<CheckError>,
    errors: &mut T,
)
    ensures words { IfOk words.now (λ read. IfSome read (λ given.
        TellsBeside T.tells (map string_bytes given.items) headers ending errors.old errors.new)) }
    ensures other { IfOk words.now (λ read. IsNone read → errors.new ≡ errors.old) }
    ensures memory { IsErr words.now → errors.new ≡ errors.old }
{
    match words {
        Ok(Some(words)) => tell_beside(words.as_slice(), headers, ending, errors),
        _ => {}
    }
}

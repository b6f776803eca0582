//! The file to which an error belongs.

ghost use Rattle.std.specs.Prelude.{◌≡◌};
ghost use Rattle.aig_edit_commands.specs.Subjects as specs;

use crate::acting::CommandError;
use aig_edits::{EditError, PairError};
use aig_reader::ReadError;

/// The file to which an error belongs.
#[derive(Clone, Copy, PartialEq, Eq)]
pub(crate) enum Subject {
    /// No file.
    Nothing,
    /// FILE.
    File,
    /// OTHER or CERT.
    Other,
}

/// Returns the file to which an error of reading a file belongs.
fn about_read(subject: Subject, error: ReadError) -> Subject
    ensures { result ≡ specs.about_read subject error }
{
    match error {
        ReadError::Memory => Subject::Nothing,
        _ => subject,
    }
}

/// Returns the file to which an error of a command on one file belongs.
fn about_edit(error: EditError) -> Subject
    ensures { result ≡ specs.about_edit error }
{
    match error {
        EditError::Read(error) => about_read(Subject::File, error),
        EditError::Memory | EditError::Write => Subject::Nothing,
        _ => Subject::File,
    }
}

/// Returns the file to which an error of a command on two files belongs.
fn about_pair(error: PairError) -> Subject
    ensures { result ≡ specs.about_pair error }
{
    match error {
        PairError::Read(error) => about_read(Subject::File, error),
        PairError::Other(error) => about_read(Subject::Other, error),
        PairError::Misfit(_) => Subject::Other,
        PairError::TooLarge => Subject::File,
        PairError::Memory | PairError::Write => Subject::Nothing,
    }
}

/// Returns the file to which an error of the program belongs.
pub(crate) fn about_error(error: CommandError) -> Subject
    ensures { result ≡ specs.about_error error }
{
    match error {
        CommandError::One(error) => about_edit(error),
        CommandError::Two(error) => about_pair(error),
        CommandError::Memory | CommandError::Write => Subject::Nothing,
    }
}

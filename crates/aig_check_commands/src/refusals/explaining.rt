//! Which file a refusal is about, and where reading that file stopped.

ghost use Rattle.std.specs.Prelude.{◌≡◌, ◌++◌, Contains, Err, IfNone, IfOk, IfSome, IsErr, IsNone, None, Some, map, string_bytes};
ghost use Rattle.aig_command_line.specs.Ending.{IsMapped};
ghost use Rattle.aig_command_line.specs.Faults.{IsAlone};
ghost use Rattle.aig_command_line.specs.declared.files.OpenError.TheVariants as opening;
ghost use Rattle.aig_check_commands.specs.Explaining.{IsPathOf, IsPlaceOf, TellsPlaced, TellsOf, number_of};
ghost use Rattle.aig_check_commands.specs.Fits.{Fits};

use crate::command::{Call, call_of};
use crate::error::CheckError;
use crate::refusals::places::place_by_run;
use crate::refusals::subjects::{About, Search, Subject, about_error};
use aig_base::MemoryError;
use aig_command_line::{Ending, Fault, Place, Reopens, path_at, place_in_file};
use std::alloc::Global;

/// The first of these paths at which no file is opened.
fn first_unopened<'a, F: Reopens>(files: &F, paths: &'a [String]) -> Option<&'a str>
    ensures { IfSome result (λ path. Contains (map string_bytes paths.now) path.now
        × F.opens files.now path.now (Err opening.Refused)) }
{
    for path in paths {
        let path = path.as_str();
        if let Some(Err(_)) = files.reopen(path) {
            return Some(path);
        }
    }
    None
}

/// The first of a command's paths at which no file is opened.
fn unopened<'a, F: Reopens>(files: &F, call: &Call<'a>) -> Option<&'a str>
    ensures { IfSome result (λ path. Contains (map string_bytes call.now.paths.now
        ++ map string_bytes call.now.further.now) path.now
        × F.opens files.now path.now (Err opening.Refused)) }
{
    match first_unopened(files, call.paths) {
        Some(path) => Some(path),
        None => first_unopened(files, call.further),
    }
}

/// The number of the file that an error is about, among those that are given beside FILE and OTHER or CERT: the first is 0.
fn number_of(subject: Subject) -> usize
    ensures { result ≡ number_of subject }
{
    match subject {
        Subject::Step => 1,
        Subject::Third => 2,
        Subject::Nth(number) => number,
        _ => 0,
    }
}

/// The path of what an error of a command is about, if it is about a file.
fn path_of<'a, F: Reopens>(files: &F, call: &Call<'a>, subject: Subject) -> Option<&'a str>
    ensures some { IfSome result (λ path. IsPathOf (F.opens files.now) subject
        (map string_bytes call.now.paths.now) (map string_bytes call.now.further.now)
        (Some path.now)) }
    ensures none { IfNone result (IsPathOf (F.opens files.now) subject
        (map string_bytes call.now.paths.now) (map string_bytes call.now.further.now) None) }
{
    match subject {
        Subject::Nothing => None,
        Subject::Unopened => unopened(files, call),
        Subject::File => path_at(call.paths, 0),
        Subject::Other => path_at(call.paths, 1),
        _ => path_at(call.further, number_of(subject)),
    }
}

/// The place where a command refuses so the file at the path that the error is about.
fn place_at<F: Reopens>(
    alloc: Global,
    files: &F,
    call: &Call<'_>,
    about: About,
    path: &str,
    error: CheckError,
) -> Place
    requires { Fits call.now }
    ensures { IsPlaceOf (F.opens files.now) F.File.left call.now.limit call.now.asked
        (map string_bytes call.now.paths.now) (map string_bytes call.now.further.now) path.now error
        about.subject about.search result }
{
    match about.search {
        Search::Nowhere => Place::Whole,
        Search::Read(error) => place_in_file(alloc, files, path, error, call.limit),
        Search::Run(measure) => {
            let number = number_of(about.subject);
            place_by_run(alloc, files, call, number, error, measure)
        }
    }
}

/// What is told of an error of a command.
fn fault_of<'a, F: Reopens>(
    alloc: Global,
    files: &F,
    call: &Call<'a>,
    error: CheckError,
) -> Fault<'a, CheckError>
    requires { Fits call.now }
    ensures { TellsPlaced (F.opens files.now) F.File.left call.now.limit call.now.asked
        (map string_bytes call.now.paths.now) (map string_bytes call.now.further.now) error result }
{
    let about = about_error(error);
    match path_of(files, call, about.subject) {
        Some(path) => Fault::In {
            path,
            place: place_at(alloc, files, call, about, path, error),
            error,
        },
        None => Fault::Alone(error),
    }
}

/// What is told of an error of the command that words give.
fn fault_by<'a, F: Reopens>(
    alloc: Global,
    words: &'a [String],
    files: &F,
    error: CheckError,
) -> Fault<'a, CheckError>
    ensures { TellsOf (F.opens files.now) F.File.left (map string_bytes words.now) error result }
{
    match call_of(words) {
        Some(call) => fault_of(alloc, files, &call, error),
        None => Fault::Alone(error),
    }
}

/// Tells which file a refusal is about, and where reading that file stopped: it is opened and read again for that. Each other ending
/// stays, and so does the error of a refusal.
pub fn explain<'a, F: Reopens>(
    alloc: Global,
    words: &'a Result<Option<Vec<String>>, MemoryError>,
    files: &F,
    ending: Ending<CheckError>,
) -> Ending<Fault<'a, CheckError>>
    ensures words { IfOk words.now (λ read. IfSome read (λ given.
        IsMapped (TellsOf (F.opens files.now) F.File.left (map string_bytes given.items))
        ending result)) }
    // An error before there are words is about no file.
    ensures other { IfOk words.now (λ read. IsNone read → IsMapped IsAlone ending result) }
    ensures memory { IsErr words.now → IsMapped IsAlone ending result }
{
    match words {
        Ok(Some(words)) => ending.map(|error| fault_by(alloc, words.as_slice(), files, error)),
        _ => ending.map(|error| Fault::Alone(error)),
    }
}

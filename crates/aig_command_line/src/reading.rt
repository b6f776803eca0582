//! Where reading an AIGER file stopped.

ghost use Rattle.std.specs.Prelude.{◌≡◌, ◌⊎◌, ◌≤◌, ◌^◌, true};
ghost use Rattle.aig_command_line.specs.Places.{IsPlaced, IsRefusedAt, read_measure};
ghost use Rattle.aig_command_line.specs.declared.tally.Place.TheVariants as places;

use crate::counted::{Counted, Origin};
use crate::files::Reopens;
use crate::tally::{Measure, Place};
use aig_base::Source;
use aig_reader::{ReadError, read};
use std::alloc::Global;
use std::marker::Brand;

/// How the place of an error in a file is told, if it has one.
pub(crate) fn read_measure(error: ReadError) -> Option<Measure>
    ensures { result ≡ read_measure error }
{
    match error {
        ReadError::Memory | ReadError::Stream | ReadError::Open => None,
        ReadError::Header | ReadError::TooMany | ReadError::Syntax(_) | ReadError::Literal(_) =>
            Some(Measure::Line),
        ReadError::Delta => Some(Measure::Byte),
        ReadError::Name => Some(Measure::Aiger),
    }
}

/// Whether two errors are the same.
fn is_same(first: ReadError, second: ReadError) -> bool
    ensures { result ≡ true → first ≡ second }
{
    first == second
}

/// Reads a file by single bytes. Returns the place of the last byte where it is refused for this error.
fn place_by_bytes<R: Source + Drop, B: Origin>(
    alloc: Global,
    source: R,
    error: ReadError,
    measure: Measure,
    limit: usize,
) -> Place
    requires origin { R.left source ≡ B.bytes }
    requires told { read_measure error ≡ Some measure }
    requires some { 1 ≤ limit }
    requires few { limit ≤ 2 ^ 31 }
    ensures { (result ≡ places.Whole) ⊎ IsRefusedAt limit B.bytes error result }
{
    let mut counted = Counted::<R, B>::new(source);
    match read(alloc, &mut counted, limit) {
        Err(again) if is_same(again, error) => counted.place(measure),
        _ => Place::Whole,
    }
}

/// The place where the file at a path is refused for this error. It is opened and read again for that. Where it is then not refused so,
/// or the error is of the file as a whole, no place is told.
pub fn place_in_file<F: Reopens>(
    alloc: Global,
    files: &F,
    path: &str,
    error: ReadError,
    limit: usize,
) -> Place
    requires some { 1 ≤ limit }
    requires few { limit ≤ 2 ^ 31 }
    ensures { IsPlaced (F.opens files.now) F.File.left limit path.now error result }
{
    let Some(measure) = read_measure(error) else {
        return Place::Whole;
    };
    match files.reopen(path) {
        Some(Ok(file)) => place_by_bytes::<F::File, Brand>(alloc, file, error, measure, limit),
        _ => Place::Whole,
    }
}

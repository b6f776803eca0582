//! Errors with their places, and a file that is read so.

ghost use Rattle.std.specs.Prelude.{◌≡◌, ◌≤◌, ◌^◌};
ghost use Rattle.aig_command_line.specs.Places.{IsPlaceOfError, ReadsPlaced, in_whole, whole};

use crate::counted::Origin;
use crate::followed::Followed;
use crate::reading::read_measure;
use crate::tally::Place;
use aig_base::Source;
use aig_circuit::CircuitLists;
use aig_lexer::InputBuffer;
use aig_reader::{ReadError, read_with};
use std::alloc::Global;
use std::marker::Brand;

/// An error, and where in the file that it is about reading stopped.
#[derive(Clone, Copy, Debug, PartialEq, Eq)]
pub struct Placed<E> {
    /// Why something is refused.
    pub error: E,
    /// The place.
    pub place: Place,
}

impl<E> Placed<E> {
    /// An error that has no one place.
    pub fn whole(error: E) -> Self
        ensures { result ≡ whole error }
    {
        Placed {
            error,
            place: Place::Whole,
        }
    }

    /// The result, with an error that has no one place.
    pub fn in_whole(done: Result<(), E>) -> Result<(), Self>
        ensures { result ≡ in_whole done }
    {
        match done {
            Ok(()) => Ok(()),
            Err(error) => Err(Placed::whole(error)),
        }
    }
}

/// An error of reading, with the place of the last byte that was taken: `held` bytes that came weren't.
fn with_place<R: Source, B: Origin>(
    followed: &Followed<R, B>,
    held: usize,
    error: ReadError,
) -> Placed<ReadError>
    ensures error { result.error ≡ error }
    ensures place { IsPlaceOfError B.bytes (⟦<Followed<R, B> as Source>⟧.left followed.now)
        (⟦<Followed<R, B> as Source>⟧.failed followed.now) error result.place }
{
    let place = match read_measure(error) {
        Some(measure) => followed.place(held, measure),
        None => Place::Whole,
    };
    Placed { error, place }
}

/// Reads a file from a source whose bytes are the origin.
fn read_followed<R: Source + Drop, B: Origin>(
    alloc: Global,
    source: R,
    limit: usize,
) -> Result<CircuitLists, Placed<ReadError>>
    requires origin { R.left source ≡ B.bytes }
    requires some { 1 ≤ limit }
    requires few { limit ≤ 2 ^ 31 }
    ensures { ReadsPlaced R.left R.failed limit source result }
{
    let mut buffer = InputBuffer::new();
    let mut followed = Followed::<R, B>::new(source);
    match read_with(alloc, &mut buffer, &mut followed, limit) {
        Ok(lists) => Ok(lists),
        Err(error) => Err(with_place(&followed, buffer.window().len(), error)),
    }
}

/// Reads a file in the AIGER format, as `aig_reader::read` does, and tells of an error the place where reading stopped: that of the
/// last byte that was taken. Requires `1 <= limit <= 2^31`.
// The frame with the buffers is not its callers'.
#[inline(never)]
pub fn read_placed<R: Source + Drop>(
    alloc: Global,
    source: R,
    limit: usize,
) -> Result<CircuitLists, Placed<ReadError>>
    requires some { 1 ≤ limit }
    requires few { limit ≤ 2 ^ 31 }
    ensures { ReadsPlaced R.left R.failed limit source result }
{
    read_followed::<R, Brand>(alloc, source, limit)
}

//! Files whose first bytes are kept as they pass, also those of a pipe.

ghost use Rattle.std.specs.Prelude.{◌≡◌};
ghost use Rattle.aig_command_line.specs.Watching.{OpensWatched, unwatched};

use crate::beginning::Beginning;
use crate::files::{OpenError, Opens, Reopens};
use crate::notice::Headers;
use aig_base::{Source, StreamFault};
use std::cell::Cell;

/// The first bytes of the first two files that are opened. No contract says what a cell holds.
#[derive(Drop)]
pub struct Watch {
    first: Cell<Beginning>,
    second: Cell<Beginning>,
    opened: Cell<usize>,
}

impl Watch {
    /// No file was opened.
    pub fn new() -> Self {
        Watch {
            first: Cell::new(Beginning::new()),
            second: Cell::new(Beginning::new()),
            opened: Cell::new(0),
        }
    }

    /// Where the first bytes of the next file are kept, if they are.
    fn next(&self) -> Option<&Cell<Beginning>> {
        let opened = self.opened.get();
        self.opened.set(opened.saturating_add(1));
        match opened {
            0 => Some(&self.first),
            1 => Some(&self.second),
            _ => None,
        }
    }

    /// The headers of these files, where their first bytes have one.
    pub fn headers(&self) -> Headers {
        Headers {
            first: self.first.get().header(),
            second: self.second.get().header(),
        }
    }
}

/// A source over another one. It gives the same bytes.
#[derive(Drop)]
pub struct Watched<'a, S> {
    source: S,
    seen: Option<&'a Cell<Beginning>>,
}

impl<'a, S: Source> Source for Watched<'a, S> {
    ghost left = { λ s. S.left s.source };

    ghost failed = { λ s. S.failed s.source };

    ghost pulls = { λ s. S.pulls s.source };

    fn pull(&mut self, buf: &mut [u8]) -> Result<usize, StreamFault> {
        let count = self.source.pull(buf)?;
        if let Some(seen) = self.seen {
            seen.set(seen.get().with(&buf[..count]));
        }
        Ok(count)
    }
}

/// Files over others, which are opened so, and give the same bytes.
#[derive(Drop)]
pub struct WatchedFiles<'a, F> {
    files: F,
    watch: &'a Watch,
}

impl<'a, F> WatchedFiles<'a, F> {
    /// These files, under watch.
    pub fn new(files: F, watch: &'a Watch) -> Self {
        WatchedFiles { files, watch }
    }
}

/// A file under watch, where it was opened.
fn make_watched<'a, S>(
    opened: Result<S, OpenError>,
    seen: Option<&'a Cell<Beginning>>,
) -> Result<Watched<'a, S>, OpenError>
    ensures { opened ≡ unwatched result }
{
    match opened {
        Ok(source) => Ok(Watched { source, seen }),
        Err(error) => Err(error),
    }
}

impl<'a, F: Opens> Opens for WatchedFiles<'a, F> {
    type File = Watched<'a, F::File>;

    ghost opens = { λ s. OpensWatched (F.opens s.files) };

    fn open(&self, path: &str) -> Result<Watched<'a, F::File>, OpenError> {
        make_watched(self.files.open(path), self.watch.next())
    }
}

impl<'a, F: Reopens> Reopens for WatchedFiles<'a, F> {
    fn reopen(&self, path: &str) -> Option<Result<Watched<'a, F::File>, OpenError>> {
        Some(make_watched(self.files.reopen(path)?, None))
    }
}

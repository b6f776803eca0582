//! The file that `binary` writes.
//!
//! What takes paths to the system has them in its frame, 4,096 bytes each. So the calls of this crate that do aren't inlined: their
//! frames are gone while the circuit is read and written.

ghost use Rattle.std.specs.Prelude.{◌≡◌, ◌≤◌, true, IfOk, OnErr, length, option_and_then, take};
ghost use Rattle.std.specs.Io.KnownBytes.{Appends, Keeps};

use crate::part::Names;
use crate::system::size_limit;
use crate::target::{AtEnd, Target};
use aig::WriteError;
use aig_base::{MemoryError, Sink, StreamFault, ToWrite};
use aig_tool_commands::{Commit, ToolError};
use std::fs::{self, File, OpenFile};
use std::random::RandomSource;
use std::rt::Files;

/// The file OUT as a sink. Nothing is made before the first bytes come, so that a file that is refused leaves no OUT.
///
/// Where OUT is a regular file, or isn't there, the bytes go into a new file beside it first. By `commit` that file takes
/// OUT's place where nothing of the old OUT is lost but its bytes, and else is copied into it. So a failed write leaves the
/// old file as it was, also where OUT is FILE. Where no new file can be made, and for a device, the bytes go into OUT itself.
#[derive(Drop)]
pub struct Output<'a, R: Files> {
    target: Target<'a, R>,
    /// Names for a new file beside OUT, until one is made.
    names: Option<Names>,
    file: Option<ToWrite<R::File>>,
    at_end: AtEnd<R::File>,
    /// How many bytes the file may still grow by.
    room: u64,
    /// Whether no file could be made.
    refused: bool,
    failed: bool,
}

/// How many bytes a file may grow by under a limit, which devices and pipes don't have.
fn room_under(file: &impl OpenFile, limit: u64) -> u64 {
    match file.metadata() {
        Ok(found) if found.is_file() => limit.saturating_sub(found.len()),
        _ => u64::MAX,
    }
}

impl<'a, R: Files + RandomSource + AllocGlobal> Output<'a, R> {
    /// The file that `out` leads to and that has the name `path` itself, of which nothing is made yet.
    #[inline(never)]
    pub fn beside(rt: &'a R, out: &'a str, path: String) -> Result<Self, MemoryError> {
        Ok(Output {
            names: Names::beside(rt, path.as_str())?,
            target: Target { rt, out, path },
            file: None,
            at_end: AtEnd::Stay,
            room: size_limit(rt)?,
            refused: false,
            failed: false,
        })
    }

    /// The file of a descriptor, which is opened at once and keeps the bytes that it has.
    #[inline(never)]
    pub fn onto(rt: &'a R, out: &'a str) -> Result<Self, ToolError> {
        let Ok(file) = File::options().append(true).open(rt, out) else {
            return Err(ToolError::Write(WriteError::Open));
        };
        let path = String::new(rt.alloc());
        Ok(Output {
            target: Target { rt, out, path },
            names: None,
            room: room_under(&file, size_limit(rt)?),
            file: Some(ToWrite::new(file)),
            at_end: AtEnd::Stay,
            refused: false,
            failed: false,
        })
    }

    /// Makes the file that the bytes go into.
    #[inline(never)]
    fn create(&mut self) -> Result<(), StreamFault>
        ensures { self.new.failed ≡ self.old.failed }
    {
        let names = self.names.take();
        match self.target.open(names) {
            Some(opened) => {
                self.room = room_under(&opened.file, self.room);
                self.file = Some(ToWrite::new(opened.file));
                self.at_end = opened.at_end;
                Ok(())
            }
            None => {
                self.refused = true;
                Err(StreamFault::Failed)
            }
        }
    }

    /// Writes bytes to the file, which is made before the first.
    fn write(&mut self, piece: &[u8]) -> Result<usize, StreamFault>
        ensures bound { IfOk result (λ n. n ≤ length piece.now) }
        ensures moved { IfOk result (λ n. Appends (⟦<Output<'a, R> as Sink>⟧.held self.old)
            (⟦<Output<'a, R> as Sink>⟧.held self.new) (take n piece.now)) }
        ensures kept { OnErr result (Keeps (⟦<Output<'a, R> as Sink>⟧.held self.old)
            (⟦<Output<'a, R> as Sink>⟧.held self.new)) }
        ensures some { IfOk result (λ n. n ≡ 0 → length piece.now ≡ 0) }
        ensures same { self.new.failed ≡ self.old.failed }
    {
        if self.file.is_none() {
            self.create()?;
        }
        if piece.len() as u64 > self.room {
            return Err(StreamFault::Failed);
        }
        match &mut self.file {
            Some(file) => {
                let n = file.put(piece)?;
                self.room -= n as u64;
                Ok(n)
            }
            None => Err(StreamFault::Failed),
        }
    }
}

impl<'a, R: Files + RandomSource + AllocGlobal> Sink for Output<'a, R> {
    ghost held = { λ o. option_and_then ⟦<ToWrite<R::File> as Sink>⟧.held o.file };

    ghost failed = { λ o. o.failed };

    fn put(&mut self, piece: &[u8]) -> Result<usize, StreamFault> {
        if self.failed {
            return Err(StreamFault::Failed);
        }
        match self.write(piece) {
            Ok(n) => Ok(n),
            Err(fault) => {
                self.failed = true;
                Err(fault)
            }
        }
    }
}

impl<'a, R: Files + RandomSource + AllocGlobal> Commit for Output<'a, R> {
    ghost committed = { λ _. true };

    ghost refused = { λ o. o.refused };

    fn commit(self) -> Result<(), WriteError> {
        let Output {
            target,
            names: _,
            file,
            at_end,
            room: _,
            refused: _,
            failed: _,
        } = self;
        match file {
            Some(file) => target.settle(file.into_inner(), at_end),
            None => Ok(()),
        }
    }

    #[inline(never)]
    fn discard(self) -> bool {
        let Output {
            target,
            names: _,
            file: _,
            at_end,
            room: _,
            refused,
            failed: _,
        } = self;
        if let AtEnd::Rename { name, old: _ } = at_end {
            let _ = fs::remove_file(target.rt, name.as_str());
        }
        refused
    }
}

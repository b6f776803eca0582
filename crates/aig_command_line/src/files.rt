//! Files that a program reads.

ghost use Rattle.std.specs.Prelude.{⊤, ℕ, List, Result, IfSome};
ghost use Rattle.aig_command_line.specs.declared.files.OpenError.{OpenError};

use aig_base::{FromRead, Source};
use std::fs::{self, File};
use std::rt::Files;

/// Why a file wasn't opened.
#[derive(Clone, Copy)]
pub enum OpenError {
    /// The system refused it.
    Refused,
}

/// Opens files for reading.
pub trait Opens {
    /// A file that was opened.
    type File: Source + Drop;

    /// What opening the file at a path may give: a source, whose bytes may be known, or why there is none.
    ghost opens: { Self → List ℕ → Result Self.File OpenError → Type 0 };

    /// Opens the file at a path.
    fn open(&self, path: &str) -> Result<Self::File, OpenError>
        ensures { opens self.now path.now result };
}

/// Opens files a second time.
pub trait Reopens: Opens {
    /// Opens the file at a path as `open` does, if that gives its first byte first again. A pipe or a terminal isn't opened: what was
    /// read of it is gone, and it may wait for more.
    fn reopen(&self, path: &str) -> Option<Result<Self::File, OpenError>>
        ensures { IfSome result (Self.opens self.now path.now) };
}

/// The files of the system. Nothing is known of their bytes before they are read.
#[derive(Drop)]
pub struct SystemFiles<'a, R> {
    rt: &'a R,
}

impl<'a, R> SystemFiles<'a, R> {
    /// The files that `rt` reaches.
    pub fn new(rt: &'a R) -> Self {
        SystemFiles { rt }
    }
}

impl<'a, R: Files> Opens for SystemFiles<'a, R> {
    type File = FromRead<R::File>;

    ghost opens = { λ _ _ _. ⊤ };

    fn open(&self, path: &str) -> Result<FromRead<R::File>, OpenError> {
        match File::open(self.rt, path) {
            Ok(file) => Ok(FromRead::new(file)),
            Err(_) => Err(OpenError::Refused),
        }
    }
}

impl<'a, R: Files> Reopens for SystemFiles<'a, R> {
    fn reopen(&self, path: &str) -> Option<Result<FromRead<R::File>, OpenError>> {
        match fs::metadata(self.rt, path) {
            Ok(found) if !found.is_file() => None,
            _ => Some(self.open(path)),
        }
    }
}

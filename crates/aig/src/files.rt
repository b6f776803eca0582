//! Files that are opened, or made anew.

ghost use Rattle.std.specs.Prelude.{⊤, ◌≡◌, ℕ, List, Result, IfErr};
ghost use Rattle.aig.specs.declared.aiger.WriteError.{WriteError};
ghost use Rattle.aig_reader.specs.declared.error.ReadError.{ReadError};

use crate::aiger::WriteError;
use aig_base::{FromRead, Sink, Source, ToWrite};
use aig_reader::ReadError;
use std::fs;
use std::rt::Files;

/// Opens files.
pub(crate) trait Opens {
    /// A file that was opened.
    type File: Source + Drop;

    /// What opening the file of a path may give: a source, whose bytes may be known, or why there is none.
    ghost opens: { List ℕ → Self → Result Self.File ReadError → Type 0 };

    /// Opens the file of a path.
    fn open(&self, path: &str) -> Result<Self::File, ReadError>
        ensures opened { opens path.now self.now result }
        ensures open { IfErr result (λ e. e ≡ ReadError.Open) };
}

/// Makes files anew.
pub(crate) trait Makes {
    /// A file that was made.
    type File: Sink + Drop;

    /// What making the file of a path may give, and leave: a sink, whose bytes may be known, or why there is none.
    ghost makes: { List ℕ → Self → Result Self.File WriteError → Self → Type 0 };

    /// What letting the file of a path be leaves.
    ghost closes: { List ℕ → Self → Self.File → Self → Type 0 };

    /// Makes the file of a path anew.
    fn make(&mut self, path: &str) -> Result<Self::File, WriteError>
        ensures made { makes path.now self.old result self.new }
        ensures open { IfErr result (λ e. e ≡ WriteError.Open) };

    /// Lets the file of a path be as it was written.
    fn close(&mut self, path: &str, file: Self::File)
        ensures { closes path.now self.old file self.new };
}

/// The files of the system. Nothing is known of their bytes.
#[derive(Drop)]
pub(crate) struct SystemFiles<'a, R> {
    rt: &'a R,
}

impl<'a, R> SystemFiles<'a, R> {
    /// The files that `rt` reaches.
    pub(crate) fn new(rt: &'a R) -> Self {
        SystemFiles { rt }
    }
}

impl<'a, R: Files> Opens for SystemFiles<'a, R> {
    type File = FromRead<R::File>;

    ghost opens = { λ _ _ _. ⊤ };

    fn open(&self, path: &str) -> Result<FromRead<R::File>, ReadError> {
        match fs::open(self.rt, path) {
            Ok(file) => Ok(FromRead::new(file)),
            Err(_) => Err(ReadError::Open),
        }
    }
}

impl<'a, R: Files> Makes for SystemFiles<'a, R> {
    type File = ToWrite<R::File>;

    ghost makes = { λ _ _ _ _. ⊤ };

    ghost closes = { λ _ _ _ _. ⊤ };

    fn make(&mut self, path: &str) -> Result<ToWrite<R::File>, WriteError> {
        match fs::create(self.rt, path) {
            Ok(file) => Ok(ToWrite::new(file)),
            Err(_) => Err(WriteError::Open),
        }
    }

    fn close(&mut self, _path: &str, file: ToWrite<R::File>) {
        drop(file);
    }
}

//! Why a file is refused.

ghost use Rattle.std.specs.Prelude.{◌≡◌, Some};
ghost use Rattle.aig_reader.specs.Errors.{header_error_of, section_name};
ghost use Rattle.aig_reader.specs.Faults.{error_in, gate_error_in, name_error_of, result_by};
ghost use Rattle.aig_reader.specs.declared.error.ReadError.TheVariants as errors;

use aig_lexer::{FileKind, LexError, LineError};
use std::alloc::AllocError;
use std::fmt;
use thiserror::Error;

/// A section of a file, as an error names it. It is printed by its name, in small letters and in the plural.
#[derive(Clone, Copy, Debug, PartialEq, Eq)]
pub enum Section {
    /// The inputs, `I` in the header.
    Inputs,
    /// The latches, `L` in the header.
    Latches,
    /// The outputs, `O` in the header.
    Outputs,
    /// The bad state properties, `B` in the header.
    Bads,
    /// The invariant constraints, `C` in the header.
    Constraints,
    /// The justice properties, `J` in the header.
    Justice,
    /// The fairness constraints, `F` in the header.
    Fairness,
    /// The gates, `A` in the header.
    Gates,
}

impl fmt::Display for Section {
    ghost output = { λ section. Some (section_name section) };

    fn fmt<W: fmt::Write>(&self, f: &mut fmt::Formatter<W>) -> fmt::Result {
        f.write_str(match self {
            Section::Inputs => "inputs",
            Section::Latches => "latches",
            Section::Outputs => "outputs",
            Section::Bads => "bads",
            Section::Constraints => "constraints",
            Section::Justice => "justice",
            Section::Fairness => "fairness",
            Section::Gates => "gates",
        })
    }
}

/// Why a file is refused.
#[derive(Clone, Copy, Debug, PartialEq, Eq, Error)]
pub enum ReadError {
    /// Memory was refused.
    #[error("out of memory")]
    Memory,
    /// A read failed in this call.
    #[error("read failed")]
    Stream,
    /// The first line isn't a good header line.
    #[error("bad header line")]
    Header,
    /// The header line is good, and the file has more variables than the limit allows.
    #[error("too many variables")]
    TooMany,
    /// A line of the section is malformed or cut, or has a number past 2^32 - 1.
    #[error("bad line in {0}")]
    Syntax(Section),
    /// A number of the section is no literal that may stand there.
    #[error("bad literal in {0}")]
    Literal(Section),
    /// A gate of a binary file is cut, or its differences aren't allowed.
    #[error("bad difference")]
    Delta,
    /// A name line is malformed or cut, is for no entry or for one that has a name, or names an input or a latch by
    /// bytes that aren't UTF-8.
    #[error("bad name line")]
    Name,
    /// The path can't be opened.
    #[error("cannot open")]
    Open,
}

impl From<AllocError> for ReadError {
    ghost from_gives = { λ _ r. r ≡ errors.Memory };

    fn from(_error: AllocError) -> ReadError {
        ReadError::Memory
    }
}

impl From<LexError> for ReadError {
    ghost from_gives = { λ e r. r ≡ header_error_of e };

    /// A fault in the header line. One in a line of a section goes by `LineError`.
    fn from(error: LexError) -> ReadError {
        match error {
            LexError::Stream => ReadError::Stream,
            LexError::Shape => ReadError::Header,
        }
    }
}

impl Section {
    /// What reading lines of this section gave.
    pub(crate) fn result_of<T>(self, lines: Result<T, LineError>) -> Result<T, ReadError>
        ensures { result ≡ result_by (error_in self) lines }
    {
        match lines {
            Ok(value) => Ok(value),
            Err(LineError::Memory) => Err(ReadError::Memory),
            Err(LineError::Stream) => Err(ReadError::Stream),
            Err(LineError::Syntax) => Err(ReadError::Syntax(self)),
            Err(LineError::Literal) => Err(ReadError::Literal(self)),
        }
    }
}

/// What reading the gates of a file of this kind gave.
pub fn gates_result<T>(kind: FileKind, gates: Result<T, LineError>) -> Result<T, ReadError>
    ensures { result ≡ result_by (gate_error_in kind) gates }
{
    match (kind, gates) {
        (FileKind::Binary, Err(LineError::Syntax | LineError::Literal)) => Err(ReadError::Delta),
        (_, gates) => Section::Gates.result_of(gates),
    }
}

/// What reading the names gave.
pub fn names_result<T>(names: Result<T, LineError>) -> Result<T, ReadError>
    ensures { result ≡ result_by name_error_of names }
{
    match names {
        Ok(value) => Ok(value),
        Err(LineError::Memory) => Err(ReadError::Memory),
        Err(LineError::Stream) => Err(ReadError::Stream),
        Err(LineError::Syntax | LineError::Literal) => Err(ReadError::Name),
    }
}

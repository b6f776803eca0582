//! Why a word, a number or a line is not read.

ghost use Rattle.std.specs.Prelude.{◌≡◌};
ghost use Rattle.aig_lexer.specs.Faults.{line_error_of};
ghost use Rattle.aig_lexer.specs.declared.error.LexError.TheVariants as lex;
ghost use Rattle.aig_lexer.specs.declared.error.LineError.TheVariants as line;

use aig_base::StreamFault;
use std::alloc::AllocError;

/// Why a word or number of the format is not read.
#[derive(Clone, Copy, Debug, PartialEq, Eq)]
pub enum LexError {
    /// A read failed.
    Stream,
    /// The bytes are malformed, or the stream ended.
    Shape,
}

/// Why a line of a section is not read, or what it says is refused.
#[derive(Clone, Copy)]
pub enum LineError {
    /// Memory ran out.
    Memory,
    /// A read failed.
    Stream,
    /// The line is malformed, or the stream ended in it.
    Syntax,
    /// A number is not a literal that may stand there.
    Literal,
}

impl From<StreamFault> for LexError {
    ghost from_gives = { λ _ r. r ≡ lex.Stream };

    fn from(_fault: StreamFault) -> LexError {
        LexError::Stream
    }
}

impl From<LexError> for LineError {
    ghost from_gives = { λ e r. r ≡ line_error_of e };

    fn from(error: LexError) -> LineError {
        match error {
            LexError::Stream => LineError::Stream,
            LexError::Shape => LineError::Syntax,
        }
    }
}

impl From<AllocError> for LineError {
    ghost from_gives = { λ _ r. r ≡ line.Memory };

    fn from(_error: AllocError) -> LineError {
        LineError::Memory
    }
}

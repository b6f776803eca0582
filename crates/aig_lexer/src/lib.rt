//! Reads the words and numbers of the AIGER formats from a source of bytes.
#![tactic(auto)]

mod buffer;
mod error;
mod header;
mod lexer;
mod list;
mod signed;

pub use aig_format::FileKind;
pub use buffer::InputBuffer;
pub use error::{LexError, LineError};
pub use header::{Header, header_line};
pub use lexer::{delta, digits_from, ended, next_line, number_from, pair};
pub use list::append;
pub use signed::{Signed, signed_in};

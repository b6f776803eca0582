//! The AIGER forms of a circuit, written to any sink, and its text form, written to a formatter.
#![tactic(auto)]

mod display;
mod form;
mod header;
mod line;
mod literal;
mod names;
mod numbering;
mod sections;

pub use display::fmt_text;
pub use form::{write_binary, write_text};
pub use numbering::binary_numbers;

//! What a text is written to: a sink, through a buffer, or a formatter.
#![tactic(auto)]

mod buffer;
mod formatter;
mod out;
mod put;
mod sink;

pub use buffer::{OutputBuffer, SHORT_PIECE};
pub use out::TextOut;
pub use sink::BufferedSink;

//! What the programs share: the words of a command line, the files that they open, lines that they write, and how they end.
#![tactic(auto)]

mod arguments;
mod beginning;
mod bytes;
mod command;
mod counted;
mod discarded;
mod environment;
mod fault;
mod files;
mod followed;
mod help;
mod in_memory;
mod limit;
mod line;
mod notice;
mod number;
mod output;
mod path;
mod piece;
mod placed;
mod reading;
mod status;
mod tally;
mod watched;

pub use arguments::{ArgumentForm, Given, Step, path_at};
pub use beginning::Beginning;
pub use command::{HasArguments, find};
pub use counted::{Counted, Origin};
pub use discarded::Discarded;
pub use environment::words;
pub use fault::Fault;
pub use files::{OpenError, Opens, Reopens, SystemFiles};
pub use help::{Help, asked};
pub use in_memory::InMemory;
pub use limit::limited;
pub use line::write_text;
pub use notice::{Headers, Regard, tell_of_files};
pub use number::steps;
pub use output::{Flush, FlushedWriter};
pub use path::ShownPath;
pub use placed::{Placed, read_placed};
pub use reading::place_in_file;
pub use status::{Ending, StandardError, Teller, end};
pub use tally::{Measure, Place};
pub use watched::{Watch, Watched, WatchedFiles};

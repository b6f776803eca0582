//! The title of printed clauses: what they ask, and a sum of the bytes of each file that they are of.

mod summed;
mod title;

pub use summed::Summed;
pub use title::{Title, Topic, write_title};

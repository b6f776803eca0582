//! What C gives and is given: edges by their literals, values by their numbers, lists in its memory, and statuses.
#![tactic(auto)]

mod buffer;
mod edges;
mod lists;
mod numbers;
mod status;
mod values;

pub use buffer::{give, give_made, tell};
pub use edges::{edge_of, literal_of};
pub use lists::{GivenLatch, GivenNode, edges_of, latches, literals, nodes};
pub use numbers::{clause_numbers, number_of, push_list, push_lists};
pub use status::{
    DONE, EMPTY, HEADER, MEMORY, PROOF, SMALL, TOO_MANY, UNWRITABLE, of_read, of_refutation,
};
pub use values::{are_values, number_of_value, numbers_of_values, value_of, values_of};

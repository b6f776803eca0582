//! Builders of circuits: leaves and gates that are added to a list of nodes.
#![tactic(auto)]

mod build;

pub use build::{
    new_and_node, new_ands_node, new_eq_node, new_imply_node, new_leaf_node, new_or_node,
    new_ors_node, trivial_new_and_node, trivial_new_ands_node, trivial_new_or_node,
    trivial_new_ors_node,
};

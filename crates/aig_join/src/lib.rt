//! Two circuits joined in one by leaves that both have: the miter of two circuits, and a circuit beside a witness circuit.
#![tactic(auto)]

mod alike;
mod certificate;
mod comparing;
mod comparison;
mod constraints;
mod joining;
mod laws;
mod names;
mod numbers;
mod starts;

pub use alike::miter_from;
pub use certificate::{certified_by, has_constant_further_inits, has_leaves_of};
pub use comparing::{have_same_counts, miter};
pub use comparison::{Comparison, Constraints};
pub use constraints::miter_by;
pub use joining::join;
pub use laws::{
    alike_miters_compare_runs, constrained_miters_compare_runs, joining_pairs_runs,
    joint_circuits_are_written, joint_circuits_keep_names, miters_are_one, miters_compare_machines,
    miters_compare_runs, witness_circuits_certify, witness_files_certify,
    written_miters_compare_machines, written_miters_compare_machines_by,
    written_miters_compare_machines_from, written_witnesses_certify,
};
pub use starts::{Matching, Starts};

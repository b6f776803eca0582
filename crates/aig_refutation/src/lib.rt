//! Checks proofs that clauses can't be satisfied, whoever made them, and finds hints where they have none.
#![tactic(auto)]

mod binary;
mod binary_numbered;
mod bound;
mod check;
mod checker;
mod closure;
mod compare;
mod error;
mod form;
mod hints;
mod laws;
mod list;
mod marks;
mod numbered;
mod propagation;
mod standing;
mod starts;
mod step;
mod units;
mod words;

pub use check::check_refutation;
pub use error::RefutationError;
pub use laws::{
    binary_proofs_are_read, numbered_proofs_are_read, obeyed_deletions_stand,
    ordered_rat_refutations_are_taken, ordered_refutations_are_taken, plain_proofs_are_read,
    plain_refutations_are_taken, plainly_refuted_clauses_are_unsatisfiable, proofs_are_read,
    rat_refuted_clauses_are_unsatisfiable, refuted_clauses_are_unsatisfiable,
    rup_clauses_are_implied, shown_clauses_are_unsatisfiable, taken_steps_keep_satisfiable,
    written_numbered_proofs_are_taken, written_plain_proofs_are_taken, written_proofs_are_taken,
};
pub use marks::Marks;
pub use propagation::{Reading, is_rup};

//! Literals, three values, lists of clauses, and a map of variables.

mod clauses;
mod dag;
mod far_clauses;
mod literal;
mod map;
mod near_clauses;
mod three;

pub use clauses::LitVvec;
pub use dag::DagCnf;
pub use literal::{Lit, Var};
pub use map::VarVMap;
pub use three::Lbool;

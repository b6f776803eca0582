//! Why a plan isn't shown to hold.

ghost use Rattle.std.specs.Prelude.{◌≡◌};
ghost use Rattle.aig_answers.specs.declared.plans.errors.PlanError.TheVariants as errors;
ghost use Rattle.aig_answers.specs.declared.plans.errors.Why.TheVariants as whys;

use aig_bounded::BoundedError;
use aig_refutation::RefutationError;
use thiserror::Error;

/// Why a question isn't shown to hold.
#[derive(Clone, Copy, Debug, PartialEq, Eq, Error)]
pub enum Why {
    /// There are no clauses of it. The proof wasn't read.
    #[error(transparent)]
    Clauses(BoundedError),
    /// The proof is refused.
    #[error(transparent)]
    Refutation(RefutationError),
}

/// Which question of a plan isn't shown to hold, and why.
#[derive(Clone, Copy, Debug, PartialEq, Eq, Error)]
#[error("question {index}: {why}")]
pub struct Refused {
    /// Its place in the plan, from 0 on.
    pub index: usize,
    /// Why.
    pub why: Why,
}

/// Why a plan isn't shown to hold of a circuit.
#[derive(Clone, Copy, Debug, PartialEq, Eq, Error)]
pub enum PlanError {
    /// The circuit has no bad edge, so that nothing is asked.
    #[error("no bad state property (aigedit bads makes outputs such)")]
    NoBads,
    /// The circuit has more nodes than the limit.
    #[error("too many variables")]
    TooMany,
    /// The circuit with the further steps of the question at this place may pass the limit.
    #[error("unrolled circuit may pass the limit")]
    TooLarge(usize),
    /// With the variables that tell states apart the question at this place may pass the limit.
    #[error("window may pass the limit")]
    Crowded(usize),
    /// A question isn't shown to hold.
    #[error(transparent)]
    Refused(Refused),
}

impl From<BoundedError> for Why {
    ghost from_gives = { λ e r. r ≡ whys.Clauses e };

    fn from(error: BoundedError) -> Why {
        Why::Clauses(error)
    }
}

impl From<RefutationError> for Why {
    ghost from_gives = { λ e r. r ≡ whys.Refutation e };

    fn from(error: RefutationError) -> Why {
        Why::Refutation(error)
    }
}

impl From<Refused> for PlanError {
    ghost from_gives = { λ e r. r ≡ errors.Refused e };

    fn from(error: Refused) -> PlanError {
        PlanError::Refused(error)
    }
}

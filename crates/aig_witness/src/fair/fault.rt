//! Why a witness doesn't show a fair lasso.

ghost use Rattle.std.specs.Prelude.{◌≡◌};
ghost use Rattle.aig_witness.specs.declared.fair.fault.LassoFault.TheVariants as errors;
ghost use Rattle.aig_witness.specs.declared.fault.WitnessFault.TheVariants as witness;

use crate::WitnessFault;
use aig_base::MemoryError;
use thiserror::Error;

/// Why a witness doesn't show a fair lasso of a circuit.
#[derive(Clone, Copy, Debug, PartialEq, Eq, Error)]
pub enum LassoFault {
    /// Memory ran out, or its values are not those of a run from an initial state that meets each constraint, as they have to be of
    /// a witness of a bad state too.
    #[error("{0}")]
    Run(WitnessFault),
    /// There is no justice property of this number.
    #[error("no such justice property")]
    NoJustice,
    /// No step has the state that follows the last one, or it is not known that one has.
    #[error("no state is known to come again after the last step")]
    NoLoop,
    /// The literal of this place in the justice property holds at no step of the loop, or it is not known that it does.
    #[error("literal {0} of the justice property is not known to hold in the loop")]
    Literal(usize),
    /// The fairness literal of this place holds at no step of the loop, or it is not known that it does.
    #[error("fairness literal {0} is not known to hold in the loop")]
    Fairness(usize),
}

impl From<WitnessFault> for LassoFault {
    ghost from_gives = { λ e r. r ≡ errors.Run e };

    fn from(error: WitnessFault) -> LassoFault {
        LassoFault::Run(error)
    }
}

impl From<MemoryError> for LassoFault {
    ghost from_gives = { λ _ r. r ≡ errors.Run witness.Memory };

    fn from(_error: MemoryError) -> LassoFault {
        LassoFault::Run(WitnessFault::Memory)
    }
}

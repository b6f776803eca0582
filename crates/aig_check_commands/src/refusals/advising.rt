//! What may be the matter with a proof that is refused.

ghost use Rattle.std.specs.Prelude.{◌≡◌};
ghost use Rattle.aig_check_commands.specs.Advising.{Advises, has_misfit, is_misfit, misfits_condition, misfits_fault, misfits_plan};

use crate::error::CheckError;
use aig_answers::{GoalFault, PlanError, Refused, Why};
use aig_command_line::{Ending, Teller};
use aig_refutation::RefutationError;
use aig_witness_circuit_checks::{ConditionError, SimulationError};

/// Whether a proof is refused as one of other clauses is: a step doesn't follow, it names a literal or a clause that isn't theirs, or
/// it is unfinished.
fn is_misfit(error: RefutationError) -> bool
    ensures { result ≡ is_misfit error }
{
    match error {
        RefutationError::Step
        | RefutationError::Asymmetry
        | RefutationError::Literal
        | RefutationError::Unnamed
        | RefutationError::Unfinished => true,
        _ => false,
    }
}

/// Whether a proof of a plan is refused so.
fn misfits_plan(error: PlanError) -> bool
    ensures { result ≡ misfits_plan error }
{
    match error {
        PlanError::Refused(
            Refused {
                why: Why::Refutation(error),
                ..
            },
        ) => is_misfit(error),
        _ => false,
    }
}

/// The same of the proofs of a goal.
fn misfits_fault(fault: GoalFault) -> bool
    ensures { result ≡ misfits_fault fault }
{
    match fault {
        GoalFault::Plan(error) => misfits_plan(error),
        _ => false,
    }
}

/// The same of a proof for a condition of a witness circuit.
fn misfits_condition(error: ConditionError) -> bool
    ensures { result ≡ misfits_condition error }
{
    match error {
        ConditionError::Question(_) => false,
        ConditionError::Refutation(error) => is_misfit(error),
    }
}

/// Whether the program refuses a proof so.
fn has_misfit(ending: Ending<CheckError>) -> bool
    ensures { result ≡ has_misfit ending }
{
    match ending {
        Ending::Refused(CheckError::Goal(error)) => misfits_fault(error.fault),
        Ending::Refused(CheckError::Simulation(SimulationError::Condition(_, error))) => {
            misfits_condition(error)
        }
        _ => false,
    }
}

/// Tells in a line what may be the matter where a proof is refused as one of other clauses is: a step doesn't follow, it names a
/// literal or a clause that isn't theirs, or it is unfinished. Beside each other ending nothing is told.
pub fn advise<T: Teller>(ending: Ending<CheckError>, errors: &mut T)
    ensures { Advises T.tells ending errors.old errors.new }
{
    if has_misfit(ending) {
        errors.tell(
            "aigcheck: it may be a proof of other clauses: of another K, another file, or the other setting (raw)",
        );
    }
}

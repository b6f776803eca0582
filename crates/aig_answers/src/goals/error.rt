//! Why a goal isn't shown.

ghost use Rattle.std.specs.Prelude.{◌≡◌};
ghost use Rattle.aig_answers.specs.declared.goals.error.GoalFault.TheVariants as faults;

use crate::goals::goal::Goal;
use crate::plans::{PlanError, Refused};
use aig_base::MemoryError;
use aig_subjects::{Subject, SubjectError};
use std::error::Error;
use std::fmt::{self, Display};

/// Why a goal isn't shown of a subject.
#[derive(Clone, Copy, Debug, PartialEq, Eq)]
pub enum GoalFault {
    /// A file is refused, or there is no circuit of the subject. No proof was read.
    Subject(SubjectError),
    /// Memory was refused for the plan. No proof was read.
    Memory,
    /// The plan isn't shown to hold of the circuit.
    Plan(PlanError),
}

impl From<SubjectError> for GoalFault {
    ghost from_gives = { λ e r. r ≡ faults.Subject e };

    fn from(error: SubjectError) -> GoalFault {
        GoalFault::Subject(error)
    }
}

impl From<MemoryError> for GoalFault {
    ghost from_gives = { λ _ r. r ≡ faults.Memory };

    fn from(_error: MemoryError) -> GoalFault {
        GoalFault::Memory
    }
}

impl From<PlanError> for GoalFault {
    ghost from_gives = { λ e r. r ≡ faults.Plan e };

    fn from(error: PlanError) -> GoalFault {
        GoalFault::Plan(error)
    }
}

/// Which goal isn't shown of which subject, and why.
#[derive(Clone, Copy, Debug, PartialEq, Eq)]
pub struct GoalError {
    /// The subject.
    pub subject: Subject,
    /// The goal.
    pub goal: Goal,
    /// Why.
    pub fault: GoalFault,
}

impl GoalError {
    /// What the question at this place of the plan is called, where even an error of the circuit's room is told with it.
    fn part(&self, index: usize) -> &'static str {
        match (self.subject, self.goal) {
            (Subject::Certified(_) | Subject::MiterCertified(_), _) if index > 0 => "window: ",
            (Subject::Certified(_) | Subject::MiterCertified(_), _)
            | (Subject::Miter(_), Goal::Refuted(_)) => "query: ",
            _ => "",
        }
    }

    /// Writes which question isn't shown to hold, and why.
    fn write_refused<W: fmt::Write>(
        &self,
        f: &mut fmt::Formatter<W>,
        refused: Refused,
    ) -> fmt::Result {
        let Refused { index, why } = refused;
        let part = self.part(index);
        match self.goal {
            Goal::Safe(..) if part.is_empty() && index == 0 => write!(f, "base: {why}"),
            Goal::SafeBySteps(k, _) if part.is_empty() && index <= k => {
                write!(f, "step {index}: {why}")
            }
            Goal::Safe(..) | Goal::SafeBySteps(..) if part.is_empty() => write!(f, "step: {why}"),
            _ => write!(f, "{part}{why}"),
        }
    }

    /// Writes why the plan isn't shown to hold. A miter that is asked for all steps is too large with its further steps.
    fn write_plan<W: fmt::Write>(
        &self,
        f: &mut fmt::Formatter<W>,
        error: PlanError,
    ) -> fmt::Result {
        match error {
            PlanError::Refused(refused) => self.write_refused(f, refused),
            PlanError::TooLarge(index) | PlanError::Crowded(index) => {
                let part = self.part(index);
                write!(f, "{part}{error}")
            }
            PlanError::TooMany
                if matches!(
                    (self.subject, self.goal),
                    (Subject::Miter(_), Goal::Safe(..))
                ) => {
                let error = PlanError::TooLarge(1);
                write!(f, "{error}")
            }
            PlanError::TooMany | PlanError::NoBads => {
                let part = self.part(0);
                write!(f, "{part}{error}")
            }
        }
    }
}

impl Display for GoalError {
    fn fmt<W: fmt::Write>(&self, f: &mut fmt::Formatter<W>) -> fmt::Result {
        match (self.subject, self.fault) {
            (_, GoalFault::Subject(SubjectError::File(_) | SubjectError::Pair(_))) => {}
            (Subject::MiterCertified(_), _) => f.write_str("certificate: ")?,
            _ => {}
        }
        match self.fault {
            GoalFault::Subject(error) => write!(f, "{error}"),
            GoalFault::Memory => f.write_str("out of memory"),
            GoalFault::Plan(error) => self.write_plan(f, error),
        }
    }
}

impl Error for GoalError {}

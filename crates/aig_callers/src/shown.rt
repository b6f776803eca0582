//! A file that is held in memory, and a proof about it.

ghost use Rattle.std.specs.Prelude.{◌≡◌, ◌<◌, ◌^◌, [], IfOk, IsOk, IsErrOf, IsTrue};
ghost use Rattle.aig_answers.specs.Answers.{IsAsked};
ghost use Rattle.aig_runs.specs.Safety.{IsSafeAt};
ghost use Rattle.aig_format.specs.File.{File};
ghost use Rattle.aig_format.specs.Fits.{Accepts};

use aig_answers::{Goal, GoalFault, PlanError, Refused, Why, check_goal};
use aig_command_line::InMemory;
use aig_edits::{Comparison, Constraints, Starts};
use aig_subjects::{FileSubject, Subject};
use std::alloc::Global;

/// The limit on nodes.
pub(crate) const LIMIT: usize = 1 << 24;

/// How files are compared: on runs that meet the constraints of both, whose registers with open start begin each as it likes.
pub(crate) const COMPARISON: Comparison = Comparison {
    starts: Starts::Apart,
    constraints: Constraints::OfBoth,
};

/// Whether a proof is taken that the machine of a file reaches no bad state at step `k`.
pub fn is_shown_safe(alloc: Global, file: &[u8], k: usize, proof: &[u8]) -> Result<bool, GoalFault>
    requires { k < 2 ^ 32 }
    // Where it is, the machine reaches none.
    ensures safe { IfOk result (λ shown. IsTrue shown
        → (f : File) × Accepts file.now (2 ^ 24) f × IsSafeAt f k) }
    // Whether it is or not, something is asked of the file.
    ensures asked { IsOk result → (f : File) × IsAsked (2 ^ 24) k file.now f }
    // And nothing only of a file without bad literals.
    ensures nothing { IsErrOf result (GoalFault.Plan PlanError.NoBads)
        → (f : File) × Accepts file.now (2 ^ 24) f × (f.properties.bads ≡ []) }
{
    match check_goal(
        alloc,
        LIMIT,
        Subject::File(FileSubject::Own),
        Goal::Refuted(k),
        true,
        true,
        &mut [InMemory::new(file)],
        &mut [InMemory::new(proof)],
    ) {
        Ok(()) => Ok(true),
        Err(error) => match error.fault {
            GoalFault::Plan(
                PlanError::Refused(
                    Refused {
                        why: Why::Refutation(_),
                        ..
                    },
                ),
            ) => Ok(false),
            fault => Err(fault),
        },
    }
}

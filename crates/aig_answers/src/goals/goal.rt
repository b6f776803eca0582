//! What proofs are to show, and the questions that they answer.

ghost use Rattle.std.specs.Prelude.{◌≡◌, ◌<◌, ◌^◌, IfOk};
ghost use Rattle.aig_answers.specs.Goals.{goal_of, last_step, plan_of};
ghost use Rattle.aig_answers.specs.Plans.{asked_with, plan_each};

use crate::plans::{Ask, Question};
use aig_base::MemoryError;
use aig_runs::Window;
use std::alloc::Global;

/// What proofs are to show.
#[derive(Clone, Copy, Debug, PartialEq, Eq)]
pub enum Goal {
    /// That no bad state is reached at step `k`.
    Refuted(usize),
    /// That none is reached up to step `k`.
    RefutedTo(usize),
    /// That none is reached at any step if none is up to step `k`, by a window of `k + 2` steps.
    Inductive(usize, Window),
    /// That none is reached at any step, by a proof about the steps 0 to `k` and one about such a window.
    Safe(usize, Window),
    /// The same, by a proof about each of these steps and one about the window.
    SafeBySteps(usize, Window),
}

impl Goal {
    /// What a proof of the clauses that ask this shows.
    pub fn of(ask: Ask) -> Goal
        ensures { result ≡ goal_of ask }
    {
        match ask {
            Ask::Step(k) => Goal::Refuted(k),
            Ask::UpTo(k) => Goal::RefutedTo(k),
            Ask::Window(k, form) => Goal::Inductive(k, form),
        }
    }

    /// The step that it names.
    pub fn last_step(self) -> usize
        ensures { result ≡ last_step self }
    {
        match self {
            Goal::Refuted(k) | Goal::RefutedTo(k) => k,
            Goal::Inductive(k, _) | Goal::Safe(k, _) | Goal::SafeBySteps(k, _) => k,
        }
    }
}

/// A question with its setting.
pub fn asked_with(optimize: bool, ask: Ask) -> Question
    ensures { result ≡ asked_with optimize ask }
{
    Question { ask, optimize }
}

/// A plan that asks for each of the steps 0 to `k`, and for a window.
fn plan_each(
    alloc: Global,
    k: usize,
    form: Window,
    base_optimize: bool,
    step_optimize: bool,
) -> Result<Vec<Question>, MemoryError>
    requires { k < 2 ^ 32 }
    ensures { IfOk result (λ plan. plan.items ≡ plan_each k form base_optimize step_optimize) }
{
    let mut plan = Vec::with_capacity(alloc, k + 2)?;
    for n in 0..k + 1 {
        plan.push_reserved(asked_with(base_optimize, Ask::Step(n)));
    }
    plan.push_reserved(asked_with(step_optimize, Ask::Window(k, form)));
    Ok(plan)
}

/// The plan of a goal: its windows have the second setting, and what else it asks has the first.
pub(crate) fn plan_of(
    alloc: Global,
    goal: Goal,
    base_optimize: bool,
    step_optimize: bool,
) -> Result<Vec<Question>, MemoryError>
    requires { last_step goal < 2 ^ 32 }
    ensures { IfOk result (λ plan. plan.items ≡ plan_of goal base_optimize step_optimize) }
{
    match goal {
        Goal::Refuted(k) => Ok(vec![in alloc; asked_with(base_optimize, Ask::Step(k))]?),
        Goal::RefutedTo(k) => Ok(vec![in alloc; asked_with(base_optimize, Ask::UpTo(k))]?),
        Goal::Inductive(k, form) => {
            Ok(vec![in alloc; asked_with(step_optimize, Ask::Window(k, form))]?)
        }
        Goal::Safe(k, form) => {
            let base = asked_with(base_optimize, Ask::UpTo(k));
            let step = asked_with(step_optimize, Ask::Window(k, form));
            Ok(vec![in alloc; base, step]?)
        }
        Goal::SafeBySteps(k, form) => plan_each(alloc, k, form, base_optimize, step_optimize),
    }
}

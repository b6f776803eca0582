//! The number of a step and the form of a window, as C gives them.

ghost use Rattle.std.specs.Prelude.{◌≡◌, ◌<◌, ◌≤◌, ◌^◌, IfErr, IfOk};
ghost use Rattle.aig_calls.specs.Calls.{form_of};
ghost use Rattle.aig_calls.specs.Statuses.{many_steps};

use crate::status::MANY_STEPS;
use aig_answers::Window;

/// The number of a step, if it is below 2^32.
pub(crate) fn step_of(k: u64) -> Result<usize, u32>
    ensures ok { IfOk result (λ step. (step ≡ k) × (k < 2 ^ 32)) }
    ensures err { IfErr result (λ status. (status ≡ many_steps) × (2 ^ 32 ≤ k)) }
{
    if k >= 1 << 32 {
        return Err(MANY_STEPS);
    }
    Ok(k as usize)
}

/// The form of a window, by whether its states are told apart.
pub(crate) fn window_form(distinct: bool) -> Window
    ensures { result ≡ form_of distinct }
{
    if distinct {
        Window::Distinct
    } else {
        Window::Plain
    }
}

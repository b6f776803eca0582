//! Whether there is room for the clauses of a plan.

ghost use Rattle.std.specs.Prelude.{◌≡◌, ◌≤◌, ◌↔◌, All, IsTrue};
ghost use Rattle.aig_answers.specs.Plans.{CanBeAsked, first_over, room_of, size_of};

use crate::plans::asking::{Ask, Question};
use crate::plans::errors::PlanError;
use crate::windows::has_room;
use aig_circuit::CircuitView;
use aig_runs::Window;
use aig_unroll::is_size_within;

/// Whether the clauses of a question are within the limit, as far as that is known before they are made: `plain` leaves out the
/// variables that tell states apart.
fn fits(circuit: &CircuitView<'_>, limit: usize, ask: Ask, plain: bool) -> bool
    requires { CanBeAsked limit ask circuit.now }
    ensures { IsTrue result ↔ (size_of plain ask circuit.now ≤ limit) }
{
    match ask {
        Ask::Step(k) => is_size_within(circuit.nodes().len(), circuit.latchs().len(), k, limit),
        Ask::UpTo(_) => true,
        Ask::Window(k, form) => {
            let form = if plain { Window::Plain } else { form };
            has_room(circuit, k, form, limit)
        }
    }
}

/// The place of the first question of a plan that may pass the limit.
fn first_over(
    circuit: &CircuitView<'_>,
    limit: usize,
    plan: &[Question],
    plain: bool,
) -> Option<usize>
    requires { All (λ q. CanBeAsked limit q.ask circuit.now) plan.now }
    ensures { result ≡ first_over plain limit plan.now circuit.now }
{
    for (index, question) in plan.iter().enumerate() {
        if !fits(circuit, limit, question.ask, plain) {
            return Some(index);
        }
    }
    None
}

/// Refuses a circuit for whose questions there is no room, as far as that is known before their clauses are made, and one without bad
/// edges, of which nothing is asked.
///
/// # Errors
///
/// The first that applies of these:
///
/// - `TooMany`: the circuit has more nodes than the limit.
/// - `TooLarge`: by its bound the circuit with the further steps of this question, the first such one, has more.
/// - `NoBads`: there is no bad edge.
/// - `Crowded`: with the variables that tell states apart this question, the first such one, may pass the limit.
pub fn check_room(
    circuit: &CircuitView<'_>,
    limit: usize,
    plan: &[Question],
) -> Result<(), PlanError>
    requires { All (λ q. CanBeAsked limit q.ask circuit.now) plan.now }
    ensures { result ≡ room_of limit plan.now circuit.now }
{
    if limit < circuit.nodes().len() {
        return Err(PlanError::TooMany);
    }
    if let Some(index) = first_over(circuit, limit, plan, true) {
        return Err(PlanError::TooLarge(index));
    }
    if circuit.bads().is_empty() {
        return Err(PlanError::NoBads);
    }
    match first_over(circuit, limit, plan, false) {
        Some(index) => Err(PlanError::Crowded(index)),
        None => Ok(()),
    }
}

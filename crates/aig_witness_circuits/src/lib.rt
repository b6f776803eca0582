//! Witness circuits that simulate a model, and which of their leaves stand for leaves of it.
#![tactic(auto)]

mod circles;
mod claims;
mod condition;
mod copying;
mod error;
mod frames;
mod questions;
mod sharing;

ghost use Rattle.std.specs.Prelude.{◌≤◌, ◌↔◌, ℕ, All, Bool};
ghost use Rattle.aig_change.specs.Runs.{IsAllowedRun};
ghost use Rattle.aig_circuit.specs.Circuit.{Circuit, IsCircuit};
ghost use Rattle.aig_circuit.specs.Edges.{HasConstantInit};
ghost use Rattle.aig_join.specs.Pairs.{IsGoodState};
ghost use Rattle.aig_runs.specs.Safety.{IsCircuitSafeAt};
ghost use Rattle.aig_witness_circuits.specs.Questions.{AsksIf, Holds, IsNeverTrue};
ghost use Rattle.aig_witness_circuits.specs.Simulation.{Agrees, CanStart, IsCertificate, IsSharing, Sharing};
ghost use Rattle.aig_witness_circuits.specs.Stratified.{IsStratified};
ghost use Rattle.aig_witness_circuits.specs.declared.condition.Condition.{Condition};

pub use circles::is_circular;
pub use condition::Condition;
pub use error::QuestionError;
pub use questions::question;
pub use sharing::{SharingError, shared_leaves, shared_leaves_are_one};

/// Law: a model with a certificate is safe at every step, since beside each of its runs from an initial state that meet the constraints
/// goes one of the witness circuit, which agrees with it on the shared leaves and whose states are good.
pub fn certified_models_are_safe()
    ensures runs { (shared : Sharing) (model witness : Circuit) → IsCircuit witness
        → IsCertificate shared model witness → (k : ℕ) (x : ℕ → ℕ → Bool)
        → IsAllowedRun model k x
        → (y : ℕ → ℕ → Bool) × IsAllowedRun witness k y
        × ((t : ℕ) → t ≤ k → Agrees shared (x t) (y t) × IsGoodState witness (y t)) }
    ensures safe { (shared : Sharing) (model witness : Circuit) → IsCircuit witness
        → IsCertificate shared model witness → (k : ℕ) → IsCircuitSafeAt model k }
{}

/// Law: latches whose resets don't depend on one another in a circle can start.
pub fn stratified_resets_can_start()
    ensures { (shared : Sharing) (c : Circuit) → IsStratified shared c → CanStart shared c }
{}

/// Law: latches whose resets are constant or open are in an order in which none depends on another.
pub fn constant_resets_are_stratified()
    ensures { (shared : Sharing) (c : Circuit) → IsCircuit c → All HasConstantInit c.latchs
        → IsStratified shared c }
{}

/// Law: where for each condition there is a question that no values answer, the witness circuit certifies the model.
pub fn unanswered_questions_certify()
    ensures { (shared : Sharing) (model witness : Circuit) → IsSharing shared
        → CanStart shared witness
        → ((condition : Condition) → (q : Circuit)
        × (asks : AsksIf (Holds condition shared model witness) q) × IsNeverTrue q asks.edge)
        → IsCertificate shared model witness }
{}

/// Law: a question is safe at its first step, which a solver can be asked for by its query, exactly where the condition holds.
pub fn conditions_hold_where_questions_are_safe()
    ensures { (condition : Condition) (shared : Sharing) (model witness q : Circuit)
        → AsksIf (Holds condition shared model witness) q
        → Holds condition shared model witness ↔ IsCircuitSafeAt q 0 }
{}

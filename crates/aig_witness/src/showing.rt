//! What a known witness of a file's circuit says of the file's machine.

ghost use Rattle.std.specs.Prelude.{◌≢◌, ◌-◌, ℕ, length};
ghost use Rattle.aig_runs.specs.Safety.{IsSafeAt};
ghost use Rattle.aig_format.specs.Circuit.{circuit_of};
ghost use Rattle.aig_format.specs.File.{File};
ghost use Rattle.aig_format.specs.Fits.{Fits};
ghost use Rattle.aig_witness.specs.Witness.{Witness};
ghost use Rattle.aig_witness.specs.declared.fault.WitnessFault.{WitnessFault};
ghost use Rattle.aig_witness.specs.declared.fault.WitnessFault.TheVariants as errors;
ghost use Rattle.aig_witness.specs.Answers.{IsWrong};
ghost use Rattle.aig_witness.specs.Machine.{IsGiven, ShowsBad};
ghost use Rattle.aig_witness.specs.Shown.{IsKnownWitness};

use aig_ternary::known_values_hold;

/// Law: a known witness of the circuit of a file that fits shows a bad state of the file's machine.
pub fn known_witnesses_show()
    ensures { (f : File) (limit : ℕ) (w : Witness) → Fits f limit → IsKnownWitness (circuit_of f) w
        → ShowsBad f w }
{
    known_values_hold();
}

/// Law: where a witness shows a bad state, the machine isn't safe at that step.
pub fn witnesses_are_unsafe()
    ensures { (f : File) (w : Witness) → ShowsBad f w → ¬ IsSafeAt f (length w.steps - 1) }
{}

/// Law: where every value of a witness is given, it shows a bad state of the file's machine only where its values are a known
/// witness of the circuit.
pub fn given_witnesses_are_known()
    ensures { (f : File) (limit : ℕ) (w : Witness) → Fits f limit → IsGiven w → ShowsBad f w
        → IsKnownWitness (circuit_of f) w }
{}

/// Law: where every value of a witness is given, a refusal that is not for want of memory means that it shows no bad state.
pub fn wrong_witnesses_show_nothing()
    ensures { (f : File) (limit : ℕ) (w : Witness) (e : WitnessFault) → Fits f limit → IsGiven w
        → e ≢ errors.Memory → IsWrong (circuit_of f) w e → ¬ ShowsBad f w }
{}

//! What a known lasso of a file's circuit says of the file's machine.

ghost use Rattle.std.specs.Prelude.{◌≢◌, ◌-◌, ℕ, length};
ghost use Rattle.aig_format.specs.Circuit.{circuit_of};
ghost use Rattle.aig_format.specs.File.{File};
ghost use Rattle.aig_format.specs.Fits.{Fits};
ghost use Rattle.aig_edit_laws.specs.Fair.{HasFairLasso};
ghost use Rattle.aig_edit_laws.specs.declared.fairness.Fairness.TheVariants.{Justice};
ghost use Rattle.aig_witness.specs.Machine.{IsGiven};
ghost use Rattle.aig_witness.specs.Witness.{Witness};
ghost use Rattle.aig_witness.specs.declared.fault.WitnessFault.TheVariants as witness;
ghost use Rattle.aig_witness.specs.declared.fair.fault.LassoFault.{LassoFault};
ghost use Rattle.aig_witness.specs.declared.fair.fault.LassoFault.TheVariants as errors;
ghost use Rattle.aig_witness.specs.WrongLassos.{IsWrongLasso};
ghost use Rattle.aig_witness.specs.Lassos.{IsKnownLasso};
ghost use Rattle.aig_witness.specs.ShownLassos.{ShowsLasso};

use aig_ternary::known_values_hold;

/// Law: a known lasso of the circuit of a file that fits shows a fair lasso of the file's machine, with the same loop.
pub fn known_lassos_show()
    ensures { (f : File) (limit l : ℕ) (w : Witness) → Fits f limit
        → IsKnownLasso (circuit_of f) w l → ShowsLasso f w l }
{
    known_values_hold();
}

/// Law: where a witness shows a fair lasso, the justice property has one of so many steps.
pub fn shown_lassos_are_fair()
    ensures { (f : File) (w : Witness) (l : ℕ) → ShowsLasso f w l
        → HasFairLasso f (Justice w.bad) (length w.steps - 1) }
{}

/// Law: where every value of a witness is given, a refusal that is not for want of memory means that it shows no fair lasso, from
/// whichever step on.
pub fn wrong_lassos_show_nothing()
    ensures { (f : File) (limit l : ℕ) (w : Witness) (e : LassoFault) → Fits f limit → IsGiven w
        → e ≢ errors.Run witness.Memory → IsWrongLasso (circuit_of f) w e → ¬ ShowsLasso f w l }
{}

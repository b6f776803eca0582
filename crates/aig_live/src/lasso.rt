//! Lassos, as runs that come back to a step.

ghost use Rattle.std.specs.Prelude.{◌≡◌, ◌≤◌, ℕ, Bool, IsTrue};
ghost use Rattle.aig_live.specs.EndedRounds.{AreMetAgain, rounds};
ghost use Rattle.aig_live.specs.Saving.{IsSince, is_active};
ghost use Rattle.aig_live.specs.Turning.{turn};

/// Law: where a state is or was saved, it is that of one step, and what is seen is what was true since then.
pub fn saving_keeps_one_step()
    ensures { (save : ℕ → Bool) (t : ℕ) → IsTrue (is_active save t) → (l : ℕ) × IsSince save l t }
{}

/// Law: of a lasso's steps those of its loop are taken again and again.
pub fn loops_come_again()
    ensures within { (l k t : ℕ) → l ≤ k → turn l k t ≤ k }
    ensures again { (l k t s : ℕ) → l ≤ k → l ≤ s → s ≤ k → (u : ℕ) × (t ≤ u) × (turn l k u ≡ s) }
{}

/// Law: where each of some values is true again and again, as many rounds end as one wants.
pub fn rounds_end_again()
    ensures { (m : ℕ) (v : ℕ → ℕ → Bool) → AreMetAgain m v → (k : ℕ)
        → (t : ℕ) × (k ≤ rounds m v t) }
{}

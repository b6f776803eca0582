//! Laws of refuted queries, of windows, and of inductive invariants and certificates.

ghost use Rattle.std.specs.Prelude.{◌+◌, ◌^◌, ◌≤◌, ◌↔◌, ◌++◌, ℕ, Bool, IsTrue};
ghost use Rattle.std.specs.Prelude.{All, Contains, List, length};
ghost use Rattle.aig_base.specs.declared.logic.literal.Lit.{Lit};
ghost use Rattle.aig_circuit.specs.Circuit.{Circuit};
ghost use Rattle.aig_format.specs.File.{File};
ghost use Rattle.aig_format.specs.Circuit.{circuit_of};
ghost use Rattle.aig_format.specs.Fits.{Fits};
ghost use Rattle.aig_format.specs.Machine.{IsMachineRun, IsMachineInitial};
ghost use Rattle.aig_format_laws.specs.MachineRuns.{AgreeOnKnown};
ghost use Rattle.aig_base.specs.Formula.{clauses_in, IsSatisfiable};
ghost use Rattle.aig_runs.specs.Queries.{IsQueryOf, IsSafeTo};
ghost use Rattle.aig_runs.specs.Certificate.{Extends, IsCertificateOf};
ghost use Rattle.aig_runs.specs.Induction.{IsKInductive};
ghost use Rattle.aig_runs.specs.Inductive.{IsInductive};
ghost use Rattle.aig_runs.specs.Safety.{IsGood, IsSafeAt};
ghost use Rattle.aig_runs.specs.WindowClauses.{AsksWindow};
ghost use Rattle.aig_runs.specs.declared.window.Window.{Window};
ghost use Rattle.aig_runs.specs.declared.window.Window.TheVariants.{Distinct, Plain};

use crate::refuted_queries_are_safe;

/// Law: where no assignment satisfies both lists of clauses of a query, the file's machine has no run of k + 1 steps from a
/// start on which every constraint holds and, at the last step, some bad literal.
pub fn refuted_queries_have_no_witness()
    ensures { (f : File) (k : ℕ) (circuit unrolled : Circuit) (clauses : List (List (List Lit)))
        (extra : List (List Lit))
        → IsQueryOf f k circuit unrolled clauses extra
        → ¬ IsSatisfiable (clauses_in clauses ++ extra) → IsSafeAt f k }
{}

/// Law: where that holds of the queries for 0 to n, no bad literal holds, at a step up to n, on any run from an initial state on which
/// the constraints hold up to there.
pub fn refutations_are_safe()
    ensures { (f : File) (n : ℕ) (circuit unrolled : ℕ → Circuit)
        (clauses : ℕ → List (List (List Lit))) (extra : ℕ → List (List Lit))
        → ((k : ℕ) → k ≤ n → IsQueryOf f k (circuit k) (unrolled k) (clauses k) (extra k))
        → ((k : ℕ) → k ≤ n → ¬ IsSatisfiable (clauses_in (clauses k) ++ extra k))
        → IsSafeTo f n }
{
    refuted_queries_are_safe();
}

/// Law: a machine that is safe at each step up to n is safe up to n.
pub fn safe_steps_are_safe()
    ensures { (f : File) (n : ℕ) → ((k : ℕ) → k ≤ n → IsSafeAt f k) → IsSafeTo f n }
{}

/// Law: an inductive invariant that excludes the bad literals means that none holds at any step of any run from an initial state on
/// which the constraints hold up to there.
pub fn inductive_invariants_are_safe()
    ensures { (f : File) (invariant : (ℕ → Bool) → Bool)
        → IsInductive f invariant → (n : ℕ) → IsSafeTo f n }
{}

/// Law: a test that passes exactly where no bad literal holds is an inductive invariant exactly
/// where none holds at step 0 of a run from an initial state, and no window of two steps reaches one at its
/// end. So where a literal's inverse is the one bad literal, this makes the literal an invariant.
pub fn invariants_are_windows()
    ensures { (f : File) (invariant : (ℕ → Bool) → Bool)
        → ((values : ℕ → Bool) → IsTrue (invariant values) ↔ IsGood f values)
        → IsInductive f invariant ↔ (IsSafeTo f 0 × IsKInductive Plain f 0) }
{}

/// Law: where no bad literal is reached up to step k, and no window of k + 2 steps reaches one first at its end, none is
/// reached at any step. It is enough to look at the windows on which no state comes twice.
pub fn inductive_windows_are_safe()
    ensures { (form : Window) (f : File) (k : ℕ) → IsSafeTo f k → IsKInductive form f k
        → (n : ℕ) → IsSafeTo f n }
{}

/// Law: L latches have 2 ^ L states, so no window of more steps is without a state that comes
/// twice, and the distinct windows of k + 2 steps of every machine are inductive from
/// k = 2 ^ L - 1 on; so where no bad literal is reached up to that step, none is reached at any.
pub fn distinct_windows_are_complete()
    ensures inductive { (f : File) (k : ℕ) → 2 ^ length f.latches ≤ k + 1
        → IsKInductive Distinct f k }
    ensures safe { (f : File) (k : ℕ) → 2 ^ length f.latches ≤ k + 1 → IsSafeTo f k
        → (n : ℕ) → IsSafeTo f n }
{}

/// Law: where no assignment satisfies the clauses that ask for a window of k + 2 steps with a bad literal first at its end,
/// there is none.
pub fn refuted_windows_are_inductive()
    ensures { (form : Window) (f : File) (limit k : ℕ) (optimize : Bool)
        (clauses : List (List (List Lit))) (extra : List (List Lit))
        → Fits f limit → AsksWindow form (circuit_of f) k optimize clauses extra
        → ¬ IsSatisfiable (clauses_in clauses ++ extra) → IsKInductive form f k }
{}

/// Law: a file that extends another by inputs, latches or gates has its runs: for each run of the
/// other from an initial state there is one with the same values of all that the other defines; and each of
/// its own runs is one of the other.
pub fn extended_files_have_runs()
    ensures forth { (g f : File) (bound limit last : ℕ) (run : ℕ → ℕ → Bool)
        → Fits g bound → Fits f limit → Extends g f → IsMachineRun f last run
        → IsMachineInitial f run
        → (r : ℕ → ℕ → Bool) × IsMachineRun g last r × IsMachineInitial g r
        × AgreeOnKnown f last run r }
    ensures back { (g f : File) (last : ℕ) (run : ℕ → ℕ → Bool) → Extends g f
        → IsMachineRun g last run → IsMachineRun f last run }
    ensures starts { (g f : File) (run : ℕ → ℕ → Bool) → Extends g f
        → IsMachineInitial g run → IsMachineInitial f run }
{}

/// Law: a file is safe as far as its certificate is, and so at every step where the certificate is
/// safe up to step k and its windows of k + 2 steps are inductive. A file that extends another,
/// with no further constraints and with all its bad literals among others, is a certificate of it.
pub fn certificates_are_safe()
    ensures safe { (g f : File) (bound limit n : ℕ) → Fits g bound → Fits f limit
        → IsCertificateOf g f → IsSafeTo g n → IsSafeTo f n }
    ensures inductive { (form : Window) (g f : File) (bound limit k : ℕ)
        → Fits g bound → Fits f limit → IsCertificateOf g f
        → IsSafeTo g k → IsKInductive form g k → (n : ℕ) → IsSafeTo f n }
    ensures listed { (g f : File) → Extends g f
        → All (Contains f.properties.constraints) g.properties.constraints
        → All (Contains g.properties.bads) f.properties.bads → IsCertificateOf g f }
{}

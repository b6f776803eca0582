//! Laws of refutations.

ghost use Rattle.std.specs.Prelude.{◌≡◌, ◌⊎◌, ◌-◌, ◌^◌, ◌≤◌, ◌∷◌, ℕ, All, Bool, Err, IsTrue, List, None, Ok, Option, Some, length, map, true};
ghost use Rattle.aig_base.specs.declared.logic.literal.Lit.{Lit};
ghost use Rattle.aig_base.specs.Clauses.{is_true_clause};
ghost use Rattle.aig_base.specs.Formula.{IsSatisfiable};
ghost use Rattle.aig_refutation.specs.declared.error.RefutationError.{RefutationError};
ghost use Rattle.aig_refutation.specs.Checking.{IsPlainOutcome, Live, Shows, all_live, are_all_in, outcome, shown_by, taken};
ghost use Rattle.aig_refutation.specs.Forms.{is_binary, plain_steps_in, steps_in, telling};
ghost use Rattle.aig_refutation.specs.Proofs.{allowed};
ghost use Rattle.aig_refutation.specs.Propagation.{is_rup};
ghost use Rattle.aig_refutation.specs.Rat.{is_rat_refutation};
ghost use Rattle.aig_refutation.specs.Steps.{Drops, Learns, PlainStep, Refute, Stand, StandWithout, Step, is_refutation};
ghost use Rattle.aig_refutation.specs.Taken.{KeepsLive};
ghost use Rattle.aig_refutation.specs.Written.{AreInOrder, AreWithin, IsBinaryStep, IsNumber, IsPlainStep, IsWrittenStep, as_read, binary_text, plain_text, proof_text, step_bytes, worded_text};

/// Law: a clause that follows by reverse unit propagation is true wherever the clauses are among
/// which its hints are looked up.
pub fn rup_clauses_are_implied()
    ensures { (clause_of : ℕ → Option (List Lit)) (clause : List Lit) (hints : List ℕ)
        → IsTrue (is_rup clause_of clause hints)
        → (v : ℕ → Bool)
        → ((n : ℕ) (other : List Lit) → clause_of n ≡ Some other
        → IsTrue (is_true_clause v other))
        → IsTrue (is_true_clause v clause) }
{}

/// Law: clauses that some steps refute can't be satisfied.
pub fn refuted_clauses_are_unsatisfiable()
    ensures { (clauses : List (List Lit)) (steps : List Step)
        → IsTrue (is_refutation clauses steps) → ¬ IsSatisfiable clauses }
{}

/// Law: clauses that some steps refute, each of which follows or has the RAT property on its first literal, can't be satisfied.
pub fn rat_refuted_clauses_are_unsatisfiable()
    ensures { (clauses : List (List Lit)) (steps : List Step)
        → IsTrue (is_rat_refutation clauses steps) → ¬ IsSatisfiable clauses }
{}

/// Law: a step that is taken keeps the clauses that are there satisfiable.
pub fn taken_steps_keep_satisfiable()
    ensures { (live next : Live) (step : Step) → taken live step ≡ Ok next
        → KeepsLive live next }
{}

/// Law: clauses that the text of an LRAT file shows to be in conflict can't be satisfied.
pub fn shown_clauses_are_unsatisfiable()
    ensures { (variables : ℕ) (clauses : List (List Lit)) (bytes : List ℕ)
        → shown_by variables clauses bytes ≡ Some (Ok tt) → ¬ IsSatisfiable clauses }
{}

/// Law: clauses that steps without numbers refute can't be satisfied.
pub fn plainly_refuted_clauses_are_unsatisfiable()
    ensures { (clauses : List (List Lit)) (steps : List PlainStep)
        → Refute clauses steps → ¬ IsSatisfiable clauses }
{}

/// Law: a DRAT proof, text or binary, whose steps refute the clauses isn't refused.
pub fn plain_refutations_are_taken()
    ensures { (variables : ℕ) (clauses : List (List Lit)) (bytes : List ℕ) (e : RefutationError)
        → let script = plain_steps_in variables bytes in
        IsPlainOutcome clauses script (Err e) → Refute clauses script.steps → ⊥ }
{}

/// Law: steps each clause of which follows where all deletions are obeyed are such steps also where a clause of a literal alone stays.
pub fn obeyed_deletions_stand()
    ensures { (clauses : List (List Lit)) (steps : List PlainStep)
        → StandWithout clauses steps → Stand clauses steps }
{}

/// Law: the steps of an LRAT file are read from the text that is written of them, also where they name new variables: below 65,536
/// more than the clauses have, and one more for each step before.
pub fn proofs_are_read()
    ensures { (variables last : ℕ) (step : Step) (steps : List Step)
        → IsNumber last → AreWithin IsWrittenStep (allowed variables) (step ∷ steps)
        → steps_in variables (proof_text last (step ∷ steps))
        ≡ Some (record { steps = step ∷ steps; fault = RefutationError.Unfinished }) }
{}

/// Law: the steps of a DRAT file are read from the text that is written of them, where the first literal of a clause that is added
/// comes last; no line has a number.
pub fn plain_proofs_are_read()
    ensures { (variables : ℕ) (steps : List PlainStep)
        → AreWithin IsPlainStep (allowed variables) steps
        → (steps_in variables (plain_text steps) ≡ None)
        × (plain_steps_in variables (plain_text steps)
        ≡ record { steps = map as_read steps; fault = RefutationError.Unfinished }) }
{}

/// Law: the steps of a binary DRAT proof are read from the bytes that are written of them, if these are taken for one: where the
/// first step adds a clause, or drops one of few enough bytes.
pub fn binary_proofs_are_read()
    ensures read { (variables : ℕ) (steps : List PlainStep)
        → AreWithin IsPlainStep (allowed variables) steps
        → All (IsPlainStep (2 ^ 31 - 1)) steps → is_binary (binary_text steps) ≡ true
        → (steps_in variables (binary_text steps) ≡ None)
        × (plain_steps_in variables (binary_text steps)
        ≡ record { steps = steps; fault = RefutationError.Unfinished }) }
    ensures adds { (clause : List Lit) (steps : List PlainStep)
        → is_binary (binary_text (Learns clause ∷ steps)) ≡ true }
    ensures drops { (clause : List Lit) (steps : List PlainStep)
        → length (step_bytes (Drops clause)) ≤ telling
        → is_binary (binary_text (Drops clause ∷ steps)) ≡ true }
{}

/// Law: the steps of a binary LRAT proof are read from the bytes that are written of them behind the word `lrat`.
pub fn numbered_proofs_are_read()
    ensures { (variables : ℕ) (steps : List Step)
        → AreWithin IsWrittenStep (allowed variables) steps → All IsBinaryStep steps
        → steps_in variables (worded_text steps)
        ≡ Some (record { steps = steps; fault = RefutationError.Unfinished }) }
{}

/// Law: the text of an LRAT file that is written of steps which can all be taken, up to the empty clause, is refused for memory and
/// the stream alone.
pub fn written_proofs_are_taken()
    ensures { (variables last : ℕ) (clauses : List (List Lit)) (steps : List Step)
        (e : RefutationError) → IsNumber last → AreWithin IsWrittenStep (allowed variables) steps
        → are_all_in variables clauses ≡ true
        → outcome (all_live clauses) steps RefutationError.Unfinished ≡ Ok tt
        → Shows variables clauses (Some (proof_text last steps)) (Err e)
        → (e ≡ RefutationError.Memory) ⊎ (e ≡ RefutationError.Stream) }
{}

/// Law: so are the bytes of such steps behind the word `lrat`.
pub fn written_numbered_proofs_are_taken()
    ensures { (variables : ℕ) (clauses : List (List Lit)) (steps : List Step)
        (e : RefutationError) → AreWithin IsWrittenStep (allowed variables) steps
        → All IsBinaryStep steps → are_all_in variables clauses ≡ true
        → outcome (all_live clauses) steps RefutationError.Unfinished ≡ Ok tt
        → Shows variables clauses (Some (worded_text steps)) (Err e)
        → (e ≡ RefutationError.Memory) ⊎ (e ≡ RefutationError.Stream) }
{}

/// Law: so is that of a DRAT file, text or binary, which is written of steps that refute the clauses.
pub fn written_plain_proofs_are_taken()
    ensures text { (variables : ℕ) (clauses : List (List Lit)) (steps : List PlainStep)
        (e : RefutationError) → AreWithin IsPlainStep (allowed variables) steps
        → are_all_in variables clauses ≡ true → Refute clauses steps
        → Shows variables clauses (Some (plain_text steps)) (Err e)
        → (e ≡ RefutationError.Memory) ⊎ (e ≡ RefutationError.Stream) }
    ensures binary { (variables : ℕ) (clauses : List (List Lit)) (steps : List PlainStep)
        (e : RefutationError) → AreWithin IsPlainStep (allowed variables) steps
        → All (IsPlainStep (2 ^ 31 - 1)) steps → is_binary (binary_text steps) ≡ true
        → are_all_in variables clauses ≡ true → Refute clauses steps
        → Shows variables clauses (Some (binary_text steps)) (Err e)
        → (e ≡ RefutationError.Memory) ⊎ (e ≡ RefutationError.Stream) }
{}

/// Law: steps that refute clauses can all be taken, up to the empty clause, where their numbers are in order.
pub fn ordered_refutations_are_taken()
    ensures { (clauses : List (List Lit)) (steps : List Step) (fault : RefutationError)
        → AreInOrder (all_live clauses) steps → IsTrue (is_refutation clauses steps)
        → outcome (all_live clauses) steps fault ≡ Ok tt }
{}

/// Law: so can steps that do so with the RAT property, whichever variables they name.
pub fn ordered_rat_refutations_are_taken()
    ensures { (clauses : List (List Lit)) (steps : List Step) (fault : RefutationError)
        → AreInOrder (all_live clauses) steps → IsTrue (is_rat_refutation clauses steps)
        → outcome (all_live clauses) steps fault ≡ Ok tt }
{}

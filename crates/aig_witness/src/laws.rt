//! Laws of the text of witnesses.

ghost use Rattle.std.specs.Prelude.{◌≡◌, ◌<◌, ◌^◌, ◌++◌, ℕ, Bool, List, Some};
ghost use Rattle.aig_witness.specs.Reading.{parse_claim, parse_next, parse_next_claim, parse_witness};
ghost use Rattle.aig_witness.specs.Witness.{Claim, IsTaken, SpellsClaim, SpellsWitness, Witness, witness_text};

/// Law: what is read from the front, of a kind of property that is taken, is spelled so; what is spelled so is read, whatever follows
/// it, and it is the next witness.
pub fn claims_are_spelled()
    ensures sound { (justice : Bool) (bytes rest : List ℕ) (c : Claim)
        → parse_claim justice bytes ≡ Some (c, rest)
        → IsTaken justice c.kind
        × ((front : List ℕ) × (bytes ≡ front ++ rest) × SpellsClaim c front) }
    ensures complete { (justice : Bool) (front rest : List ℕ) (c : Claim) → IsTaken justice c.kind
        → SpellsClaim c front → parse_claim justice (front ++ rest) ≡ Some (c, rest) }
    ensures next { (justice : Bool) (front rest : List ℕ) (c : Claim) → IsTaken justice c.kind
        → SpellsClaim c front → parse_next_claim justice (front ++ rest) ≡ Some (Some c, rest) }
{}

/// Law: what is read of a bad state property from the front is spelled so, what is spelled so is read, whatever follows it, and it is
/// the next witness.
pub fn witnesses_are_spelled()
    ensures sound { (bytes rest : List ℕ) (w : Witness) → parse_witness bytes ≡ Some (w, rest)
        → (front : List ℕ) × (bytes ≡ front ++ rest) × SpellsWitness w front }
    ensures complete { (front rest : List ℕ) (w : Witness) → SpellsWitness w front
        → parse_witness (front ++ rest) ≡ Some (w, rest) }
    ensures next { (front rest : List ℕ) (w : Witness) → SpellsWitness w front
        → parse_next (front ++ rest) ≡ Some (Some w, rest) }
{}

/// Law: what is written of a witness spells it, and so is read again.
pub fn witnesses_are_read()
    ensures spells { (w : Witness) → w.bad < 2 ^ 32 → SpellsWitness w (witness_text w) }
    ensures read { (w : Witness) (rest : List ℕ) → w.bad < 2 ^ 32
        → parse_next (witness_text w ++ rest) ≡ Some (Some w, rest) }
{}

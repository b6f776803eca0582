//! The words that give what constraints say where two machines are compared.

ghost use Rattle.std.specs.Prelude.{◌≡◌, ◌≢◌, ◌∷◌, ℕ, IfNone, IfSome, List, Some, codes, map, string_bytes};
ghost use Rattle.aig_edits.specs.Words.{AreConstraints, constraints_word};
ghost use Rattle.aig_join.specs.declared.comparison.Constraints.{Constraints};

use aig_join::Constraints;

/// What constraints say by this word, if it is one for them.
fn constraints_of(word: &str) -> Option<Constraints>
    ensures some { IfSome result (λ constraints. constraints_word constraints ≡ Some word.now) }
    ensures none { IfNone result
        ((constraints : Constraints) → constraints_word constraints ≢ Some word.now) }
{
    if word == "first" {
        Some(Constraints::OfFirst)
    } else if word == "compared" {
        Some(Constraints::Compared)
    } else {
        None
    }
}

/// The words after `--constraints`, where that is the first.
fn after_word(words: &[String]) -> Option<&[String]>
    ensures some { IfSome result (λ rest. map string_bytes words.now
        ≡ codes "--constraints" ∷ map string_bytes rest.now) }
    ensures none { IfNone result ((rest : List (List ℕ))
        → ¬ (map string_bytes words.now ≡ codes "--constraints" ∷ rest)) }
{
    let (first, rest) = words.split_first()?;
    if first.as_str() == "--constraints" {
        Some(rest)
    } else {
        None
    }
}

/// What constraints say by the first word, and the words after it.
fn said_first(words: &[String]) -> Option<(Constraints, &[String])>
    ensures some { IfSome result (λ p. AreConstraints p.0
        (codes "--constraints" ∷ map string_bytes words.now) (map string_bytes p.1.now)) }
    ensures none { IfNone result ((constraints : Constraints) (rest : List (List ℕ))
        → ¬ AreConstraints constraints (codes "--constraints" ∷ map string_bytes words.now) rest) }
{
    let (first, rest) = words.split_first()?;
    Some((constraints_of(first.as_str())?, rest))
}

/// What constraints say by the first words, and the words after these: those of the first circuit alone by `--constraints first`, those
/// that are compared by `--constraints compared`, and those of both where the first word isn't `--constraints`. None where another word
/// comes after that word, or none. It takes no memory.
pub fn constraints_first(words: &[String]) -> Option<(Constraints, &[String])>
    ensures some { IfSome result
        (λ p. AreConstraints p.0 (map string_bytes words.now) (map string_bytes p.1.now)) }
    ensures none { IfNone result ((constraints : Constraints) (rest : List (List ℕ))
        → ¬ AreConstraints constraints (map string_bytes words.now) rest) }
{
    match after_word(words) {
        Some(rest) => said_first(rest),
        None => Some((Constraints::OfBoth, words)),
    }
}

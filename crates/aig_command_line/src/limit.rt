//! The limit on the nodes of a circuit that the words of a command line give.

ghost use Rattle.std.specs.Prelude.{◌≡◌, ◌∷◌, ℕ, IfNone, IfSome, List, map, string_bytes};
ghost use Rattle.aig_command_line.specs.Limits.{IsLimit, IsLimited};
ghost use Rattle.aig_format.specs.Text.{IsNumber};

use crate::arguments::{after_word, number_first};

/// The limit where the words give none.
const USUAL_LIMIT: usize = 1 << 24;

/// The highest limit.
const HIGHEST_LIMIT: usize = 1 << 31;

/// The limit that the first word gives, and the words after it.
fn limit_first(words: &[String]) -> Option<(usize, &[String])>
    ensures some { IfSome result (λ p. (word : List ℕ) × IsNumber p.0 word × IsLimit p.0
        × (map string_bytes words.now ≡ word ∷ map string_bytes p.1.now)) }
    ensures none { IfNone result ((n : ℕ) (word : List ℕ) (rest : List (List ℕ))
        → IsNumber n word → IsLimit n → ¬ (map string_bytes words.now ≡ word ∷ rest)) }
{
    let (limit, rest) = number_first(words)?;
    if limit == 0 || limit > HIGHEST_LIMIT {
        return None;
    }
    Some((limit, rest))
}

/// The limit on the nodes of a circuit that the words after the program's name give, and the words after those that give it: N of
/// `--limit N`, from 1 to 2^31, if the first word is `--limit`, and else 2^24. None if that is the first word, and no such N comes
/// after it. It takes no memory.
pub fn limited(words: &[String]) -> Option<(usize, &[String])>
    ensures some { IfSome result
        (λ p. IsLimited (map string_bytes words.now) p.0 (map string_bytes p.1.now)) }
    ensures none { IfNone result ((limit : ℕ) (rest : List (List ℕ))
        → ¬ IsLimited (map string_bytes words.now) limit rest) }
    ensures limit { IfSome result (λ p. IsLimit p.0) }
{
    match after_word(words, "--limit") {
        Some(rest) => limit_first(rest),
        None => Some((USUAL_LIMIT, words)),
    }
}

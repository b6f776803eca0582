//! The number of steps that a word gives.

ghost use Rattle.std.specs.Prelude.{◌≡◌, ◌↔◌, ◌<◌, ◌^◌, ℕ, IfSome, Some};
ghost use Rattle.aig_format.specs.Text.{IsNumber};

/// The number of steps that a word gives: one or more decimal digits, with a value of at most 2^32 - 1.
pub fn steps(word: &str) -> Option<usize>
    ensures exact { (k : ℕ) → (result ≡ Some k) ↔ IsNumber k word.now }
    ensures small { IfSome result (λ k. k < 2 ^ 32) }
{
    // `parse` takes a plus in front.
    if word.as_bytes().starts_with(b"+") {
        return None;
    }
    match word.parse::<u32>() {
        Ok(k) => Some(k as usize),
        Err(_) => None,
    }
}

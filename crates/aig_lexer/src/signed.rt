//! Numbers that may have a minus in front, as the texts of proofs and of solutions have them.

ghost use Rattle.std.specs.Prelude.{◌≡◌, ◌<◌, ◌≤◌, length, take, IfSome};
ghost use Rattle.aig_lexer.specs.SignedNumbers.{IsSigned, minus_at};

use crate::lexer::number_in;

/// A number that may have a minus in front, at the front of bytes.
#[derive(Clone, Copy)]
pub struct Signed {
    /// Its value without the minus.
    pub value: u32,
    /// Whether it has none.
    pub positive: bool,
    /// The byte that ends it.
    pub end: u8,
    /// How many bytes it takes with that one.
    pub count: usize,
}

/// How many bytes the minus in front takes, if there is one.
#[inline(always)]
fn minus_at(bytes: &[u8]) -> usize
    ensures is { result ≡ minus_at bytes.now }
    ensures inside { result ≤ length bytes.now }
{
    match bytes {
        [b'-', ..] => 1,
        _ => 0,
    }
}

/// Reads a number, which may have a minus in front, at the front of `bytes`, where the byte that ends it is among the nine after
/// its first digit, and these are there.
#[inline(always)]
pub fn signed_in(bytes: &[u8]) -> Option<Signed>
    ensures within { IfSome result (λ x. (0 < x.count) × (x.count ≤ length bytes.now)) }
    ensures reads { IfSome result
        (λ x. IsSigned (take x.count bytes.now) x.positive x.value x.end) }
{
    let minus = minus_at(bytes);
    let Some((value, end, count)) = number_in(&bytes[minus..]) else {
        return None;
    };
    Some(Signed {
        value,
        positive: minus == 0,
        end,
        count: minus + count + 1,
    })
}

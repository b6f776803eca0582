//! Words of the format: bytes, numbers, lines of numbers, and differences.

ghost use Rattle.std.specs.Prelude.{◌≡◌, ◌+◌, ◌-◌, ◌++◌, ◌<◌, ◌≤◌, ℕ, List, Some, length, take, IfSome};
ghost use Rattle.std.specs.Char.{IsNotAsciiDigit};
ghost use Rattle.std.specs.Int.{IsInRange};
ghost use Rattle.aig_format.specs.Parse.{
  parse_byte,
  parse_delta,
  parse_digits,
  parse_ended,
  parse_next_and_reset,
  parse_number,
  parse_pair,
};
ghost use Rattle.aig_lexer.specs.Digits.{GivesDigits};
ghost use Rattle.aig_lexer.specs.Faults.{word_cause};
ghost use Rattle.aig_lexer.specs.Takes.{Gives, feed};
ghost use Rattle.aig_lexer.specs.WordReaders.{parse_number_from};

use crate::buffer::InputBuffer;
use crate::error::LexError;
use aig_base::Source;

/// Takes the next byte. Returns `Shape` at the end of the stream, and `Stream` where a read failed.
pub(crate) fn next_byte<R: Source>(buffer: &mut InputBuffer, r: &mut R) -> Result<u8, LexError>
    ensures { Gives word_cause (λ byte. byte) (feed R.left R.failed R.pulls buffer.old r.old)
        (feed R.left R.failed R.pulls buffer.new r.new) result parse_byte }
{
    buffer.next(r)?.ok_or(LexError::Shape)
}

/// How many bytes after a number's first digit are looked at at once. A number that ends there is below 10^9, and so needs no
/// test of overflow.
const NEAR: usize = 9;

/// The value of a digit, and more than 9 for any other byte.
// One difference of whole words tells whether it is a digit, and is its value: that is fewer steps than a test of the byte.
#[inline(always)]
fn digit_of(byte: u8) -> u64
    ensures digit { result ≤ 9 → IsInRange 48 57 byte × (result ≡ byte - 48) }
    ensures other { 9 < result → IsNotAsciiDigit byte }
{
    (byte as u64).wrapping_sub(b'0' as u64)
}

/// Reads on in a number after its first digit, where the byte that ends it is among the first nine of `bytes`: its value,
/// that byte, and how many bytes it takes with that byte.
#[inline(always)]
fn digits_in(bytes: &[u8], first: u64) -> Option<(u32, u8, usize)>
    requires { first < 10 }
    ensures within { IfSome result (λ x. x.2 ≤ length bytes.now) }
    ensures reads { IfSome result (λ x. (rest : List ℕ)
        → parse_digits first (take x.2 bytes.now ++ rest) ≡ Some ((x.0, x.1), rest)) }
{
    if bytes.len() < NEAR {
        return None;
    }
    let mut value = first;
    for i in 0..NEAR {
        let digit = digit_of(bytes[i]);
        if digit > 9 {
            return Some((value as u32, bytes[i], i + 1));
        }
        value = 10 * value + digit;
    }
    None
}

/// Reads a number at the front of `bytes`, where `digits_in` finds its end: its value, the byte that ends it, and how many
/// bytes it takes after the first.
#[inline(always)]
pub(crate) fn number_in(bytes: &[u8]) -> Option<(u32, u8, usize)>
    ensures within { IfSome result (λ x. x.2 < length bytes.now) }
    ensures reads { IfSome result (λ x. (rest : List ℕ)
        → parse_number (take (x.2 + 1) bytes.now ++ rest) ≡ Some ((x.0, x.1), rest)) }
{
    match bytes {
        [first, others @ ..] if first.is_ascii_digit() => digits_in(others, (*first - b'0') as u64),
        _ => None,
    }
}

/// Reads on in a number after its first digit, byte by byte, as `digits_from` does.
#[cold]
fn digits_by_bytes<R: Source>(
    buffer: &mut InputBuffer,
    r: &mut R,
    first: u64,
) -> Result<(u32, Option<u8>), LexError>
    requires { first < 10 }
    ensures { GivesDigits first (feed R.left R.failed R.pulls buffer.old r.old)
        (feed R.left R.failed R.pulls buffer.new r.new) result }
{
    let mut value = first;
    while let Some(b) = buffer.next(r)? {
        if !b.is_ascii_digit() {
            return Ok((value as u32, Some(b)));
        }
        value = 10 * value + (b - b'0') as u64;
        if value > u32::MAX as u64 {
            return Err(LexError::Shape);
        }
    }
    Ok((value as u32, None))
}

/// Reads on in a number after its first digit, whose value is `first`: the number, and the byte after it, or none at the end of
/// the stream.
///
/// Returns `Shape` where the number isn't below 2^32, and `Stream` where a read failed.
pub fn digits_from<R: Source>(
    buffer: &mut InputBuffer,
    r: &mut R,
    first: u64,
) -> Result<(u32, Option<u8>), LexError>
    requires { first < 10 }
    ensures { GivesDigits first (feed R.left R.failed R.pulls buffer.old r.old)
        (feed R.left R.failed R.pulls buffer.new r.new) result }
{
    match digits_in(buffer.window(), first) {
        Some((value, end, count)) => {
            buffer.consume(count);
            Ok((value, Some(end)))
        }
        None => digits_by_bytes(buffer, r, first),
    }
}

/// Reads on in a number whose first byte, which was read before, is `first`: its value, and the byte that ends it.
///
/// A number is one or more decimal digits (AIGER format 20071012, "Header"); zeros may lead, and its value is below 2^32.
/// Returns `Shape` where there is no such number, or the bytes end in it, and `Stream` where a read failed.
pub fn number_from<R: Source>(
    buffer: &mut InputBuffer,
    r: &mut R,
    first: u8,
) -> Result<(u32, u8), LexError>
    ensures { Gives word_cause (λ x. (x.0, x.1)) (feed R.left R.failed R.pulls buffer.old r.old)
        (feed R.left R.failed R.pulls buffer.new r.new) result (parse_number_from first) }
{
    if !first.is_ascii_digit() {
        return Err(LexError::Shape);
    }
    let (value, end) = digits_from(buffer, r, (first - b'0') as u64)?;
    let Some(end) = end else {
        return Err(LexError::Shape);
    };
    Ok((value, end))
}

/// Reads a number as `number_from` does, its first byte by itself.
#[cold]
fn number_after_first<R: Source>(buffer: &mut InputBuffer, r: &mut R) -> Result<(u32, u8), LexError>
    ensures { Gives word_cause (λ x. (x.0, x.1)) (feed R.left R.failed R.pulls buffer.old r.old)
        (feed R.left R.failed R.pulls buffer.new r.new) result parse_number }
{
    let first = next_byte(buffer, r)?;
    number_from(buffer, r, first)
}

/// Reads a number as `number_from` does, its first byte included: its value, and the byte that ends it.
#[inline(always)]
pub(crate) fn number<R: Source>(buffer: &mut InputBuffer, r: &mut R) -> Result<(u32, u8), LexError>
    ensures { Gives word_cause (λ x. (x.0, x.1)) (feed R.left R.failed R.pulls buffer.old r.old)
        (feed R.left R.failed R.pulls buffer.new r.new) result parse_number }
{
    match number_in(buffer.window()) {
        Some((value, end, count)) => {
            buffer.consume(count + 1);
            Ok((value, end))
        }
        None => number_after_first(buffer, r),
    }
}

/// Reads a number that the byte `end` ends, as `ended` does, its first byte by itself.
#[cold]
fn ended_after_first<R: Source>(
    buffer: &mut InputBuffer,
    r: &mut R,
    end: u8,
) -> Result<u32, LexError>
    ensures { Gives word_cause (λ x. x) (feed R.left R.failed R.pulls buffer.old r.old)
        (feed R.left R.failed R.pulls buffer.new r.new) result (parse_ended end) }
{
    let (value, found) = number_after_first(buffer, r)?;
    if found != end {
        return Err(LexError::Shape);
    }
    Ok(value)
}

/// Reads a number that the byte `end` ends.
///
/// Returns `Shape` where there is no such number, or another byte ends it, and `Stream` where a read failed.
// `number` is not called: a value and the byte after it that come out of either of two ways lie in memory, in two parts that are
// read as one, and that read waits for them.
#[inline(always)]
pub fn ended<R: Source>(buffer: &mut InputBuffer, r: &mut R, end: u8) -> Result<u32, LexError>
    ensures { Gives word_cause (λ x. x) (feed R.left R.failed R.pulls buffer.old r.old)
        (feed R.left R.failed R.pulls buffer.new r.new) result (parse_ended end) }
{
    let Some((value, found, count)) = number_in(buffer.window()) else {
        return ended_after_first(buffer, r, end);
    };
    buffer.consume(count + 1);
    if found != end {
        return Err(LexError::Shape);
    }
    Ok(value)
}

/// Reads a line of two numbers, with one space between them, as an and gate's operands are written in a text file (AIGER
/// format 20071012, "Input/Latch/Output/And section").
///
/// Returns `Shape` where there is no such line, and `Stream` where a read failed.
pub fn pair<R: Source>(buffer: &mut InputBuffer, r: &mut R) -> Result<(u32, u32), LexError>
    ensures { Gives word_cause (λ x. (x.0, x.1)) (feed R.left R.failed R.pulls buffer.old r.old)
        (feed R.left R.failed R.pulls buffer.new r.new) result parse_pair }
{
    let first = ended(buffer, r, b' ')?;
    let second = ended(buffer, r, b'\n')?;
    Ok((first, second))
}

/// Reads a latch's next literal, and its reset if one is written, up to the end of the line (AIGER format 20071012,
/// "Input/Latch/Output/And section"; AIGER 1.9: "Reset logic").
///
/// Returns `Shape` where there is no such line, and `Stream` where a read failed. Which resets a latch may have is not
/// tested here.
pub fn next_line<R: Source>(
    buffer: &mut InputBuffer,
    r: &mut R,
) -> Result<(u32, Option<u32>), LexError>
    ensures { Gives word_cause (λ x. (x.0, x.1)) (feed R.left R.failed R.pulls buffer.old r.old)
        (feed R.left R.failed R.pulls buffer.new r.new) result parse_next_and_reset }
{
    let (next, end) = number(buffer, r)?;
    match end {
        b'\n' => Ok((next, None)),
        b' ' => Ok((next, Some(ended(buffer, r, b'\n')?))),
        _ => Err(LexError::Shape),
    }
}

/// How many groups of seven bits a difference has at most.
const MOST_GROUPS: u32 = 5;

/// How many groups of a difference are looked at at once. A difference of so few is below 2^28, and so needs no test of
/// overflow.
const NEAR_GROUPS: usize = 4;

/// Reads a difference at the front of `bytes`, where it ends among the first four: its value, and how many bytes it takes.
#[inline(always)]
fn delta_in(bytes: &[u8]) -> Option<(u32, usize)>
    ensures within { IfSome result (λ x. x.1 ≤ length bytes.now) }
    ensures reads { IfSome result (λ x. (rest : List ℕ)
        → parse_delta (take x.1 bytes.now ++ rest) ≡ Some (x.0, rest)) }
{
    if bytes.len() < NEAR_GROUPS {
        return None;
    }
    let mut difference = 0u32;
    let mut place = 1u32;
    for i in 0..NEAR_GROUPS {
        let b = bytes[i];
        difference += place * (b % 128) as u32;
        if b < 128 {
            return Some((difference, i + 1));
        }
        place *= 128;
    }
    None
}

/// Reads a difference byte by byte.
#[cold]
fn delta_by_bytes<R: Source>(buffer: &mut InputBuffer, r: &mut R) -> Result<u32, LexError>
    ensures { Gives word_cause (λ d. d) (feed R.left R.failed R.pulls buffer.old r.old)
        (feed R.left R.failed R.pulls buffer.new r.new) result parse_delta }
{
    let mut difference = 0u64;
    let mut place = 1u64;
    for _ in 0..MOST_GROUPS {
        let b = next_byte(buffer, r)?;
        difference += place * (b % 128) as u64;
        if b < 128 {
            if difference > u32::MAX as u64 {
                return Err(LexError::Shape);
            }
            return Ok(difference as u32);
        }
        place *= 128;
    }
    Err(LexError::Shape)
}

/// Reads a difference of a binary file (AIGER format 20071012, "Binary encoding"): groups of seven bits, the lowest first; a
/// byte whose top bit is clear ends it.
///
/// A spelling need not be the shortest. Returns `Shape` where the difference has more than five bytes or is not below 2^32,
/// or the bytes end in it, and `Stream` where a read failed.
#[inline(always)]
pub fn delta<R: Source>(buffer: &mut InputBuffer, r: &mut R) -> Result<u32, LexError>
    ensures { Gives word_cause (λ d. d) (feed R.left R.failed R.pulls buffer.old r.old)
        (feed R.left R.failed R.pulls buffer.new r.new) result parse_delta }
{
    match delta_in(buffer.window()) {
        Some((difference, count)) => {
            buffer.consume(count);
            Ok(difference)
        }
        None => delta_by_bytes(buffer, r),
    }
}

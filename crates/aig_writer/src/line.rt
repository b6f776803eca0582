//! Numbers as they are written.

ghost use Rattle.std.specs.Prelude.{◌≡◌, ◌+◌, ◌-◌, ◌*◌, ◌^◌, ◌++◌, ◌<◌, ◌≤◌, drop, length, replicate, take};
ghost use Rattle.aig_format.specs.Written.{delta_of, line_text};
ghost use Rattle.aig_output.specs.Writing.{WritesPieces};

use aig_output::{SHORT_PIECE, TextOut};
use itoa::write_digits;

/// Room for a line of three numbers with a byte after each.
const LINE: usize = 64;

/// Puts a line of numbers, apart by one space each, into blanks, so that it ends at `end`, and returns where it starts.
#[inline(always)]
pub(crate) fn put_line(text: &mut [u8], end: usize, numbers: &[usize]) -> usize
    requires some { 0 < length numbers.now }
    requires room { 21 * length numbers.now < end }
    requires long { length text.old ≡ end + 32 }
    requires after { drop end text.old ≡ replicate 32 32 }
    requires blank { take end text.old ≡ replicate end 32 }
    ensures within { result ≤ end }
    ensures line { take (end - result) (drop result text.new) ≡ line_text numbers.now }
{
    text[end - 1] = b'\n';
    let mut start = end;
    let mut left = numbers.len();
    while left > 0 {
        left -= 1;
        start = write_digits(numbers[left] as u64, text, start - 1);
    }
    start
}

/// Writes a line of numbers, one at least and three at most, apart by one space each.
#[inline(always)]
pub(crate) fn write_line<O: TextOut>(out: &mut O, numbers: &[usize]) -> Result<(), O::Error>
    requires some { 0 < length numbers.now }
    requires few { length numbers.now ≤ 3 }
    ensures { WritesPieces O.wrote O.stopped out.old result (line_text numbers.now) out.new }
{
    let mut text = [b' '; LINE + SHORT_PIECE];
    let start = put_line(&mut text, LINE, numbers);
    out.write_front(&text[start..], LINE - start)
}

/// Puts a binary difference at `at`, in groups of seven bits, the lowest first, in its shortest spelling (AIGER format
/// 20071012, "Binary encoding"), and returns where it ends.
fn put_difference(groups: &mut [u8], at: usize, d: usize) -> usize
    requires small { d < 2 ^ 32 }
    requires room { at + 5 ≤ length groups.old }
    ensures within { result ≤ at + 5 }
    ensures text { take result groups.new ≡ take at groups.old ++ delta_of d }
{
    let mut end = at;
    let mut rest = d;
    while rest >= 128 {
        groups[end] = (rest % 128) as u8 + 128;
        end += 1;
        rest /= 128;
    }
    groups[end] = rest as u8;
    end + 1
}

/// Writes two binary differences.
pub(crate) fn write_differences<O: TextOut>(
    out: &mut O,
    first: usize,
    second: usize,
) -> Result<(), O::Error>
    requires first { first < 2 ^ 32 }
    requires second { second < 2 ^ 32 }
    ensures { let text = delta_of first ++ delta_of second in
        WritesPieces O.wrote O.stopped out.old result text out.new }
{
    let mut groups = [0; SHORT_PIECE];
    let middle = put_difference(&mut groups, 0, first);
    let end = put_difference(&mut groups, middle, second);
    out.write_front(&groups, end)
}

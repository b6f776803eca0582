//! The entry that a name is for.

ghost use Rattle.std.specs.Prelude.{◌≡◌, ◌<◌, [], ◌∷◌, length};
ghost use Rattle.aig_circuit.specs.Circuit.{latch_leaves};
ghost use Rattle.aig_format.specs.Letters.{count_of, letter_of_inputs, letter_of_latches};
ghost use Rattle.aig_lexer.specs.Header.{numbers_of};
ghost use Rattle.aig_lexer.specs.Takes.{feed};
ghost use Rattle.aig_format.specs.Parse.{is_comment};
ghost use Rattle.aig_symbols.specs.Names.{node_at};
ghost use Rattle.aig_symbols.specs.NameSteps.{PlaceComes};

use super::text::skip_rest;
use aig_base::Source;
use aig_circuit::AigLatch;
use aig_lexer::{Header, InputBuffer, LexError, number_from};

/// How many entries the section of this letter has by the header, and 0 where no section has it (AIGER format 20071012,
/// "Symbol table"; AIGER 1.9: "Properties").
fn entry_count(header: &Header, letter: u8) -> u32
    ensures { result ≡ count_of (numbers_of header.now) letter }
{
    match letter {
        b'i' => header.inputs,
        b'l' => header.latches,
        b'o' => header.outputs,
        b'b' => header.bads,
        b'c' => header.constraints,
        b'j' => header.justice,
        b'f' => header.fairness,
        _ => 0,
    }
}

/// Whether a letter and the byte after it begin the comment: a `c`, and no digit.
fn begins_comment(letter: u8, next: u8) -> bool
    ensures { result ≡ is_comment (letter ∷ next ∷ []) }
{
    letter == b'c' && !next.is_ascii_digit()
}

/// Reads the place of the next name, up to the space after it: the letter of its section, and its position there, which has
/// to be below the header's count of the section. Where no name is left, the rest of the stream is read.
///
/// A `c` that ends the stream or has no digit after it begins the comment.
pub fn next_place<R: Source>(
    buffer: &mut InputBuffer,
    r: &mut R,
    header: &Header,
) -> Result<Option<(u8, u32)>, LexError>
    ensures { PlaceComes (numbers_of header.now)
        (feed R.left R.failed R.pulls buffer.old r.old)
        (feed R.left R.failed R.pulls buffer.new r.new) result }
{
    let letter = match buffer.next(r) {
        Ok(Some(letter)) => letter,
        Ok(None) => return Ok(None),
        Err(_) => return Err(LexError::Stream),
    };
    let first = match buffer.next(r) {
        Ok(Some(first)) => first,
        Ok(None) if letter == b'c' => return Ok(None),
        Ok(None) => return Err(LexError::Shape),
        Err(_) => return Err(LexError::Stream),
    };
    if begins_comment(letter, first) {
        return match skip_rest(buffer, r) {
            Ok(()) => Ok(None),
            Err(_) => Err(LexError::Stream),
        };
    }
    match number_from(buffer, r, first) {
        Ok((position, end)) => {
            if end != b' ' {
                return Err(LexError::Shape);
            }
            if position >= entry_count(header, letter) {
                return Err(LexError::Shape);
            }
            Ok(Some((letter, position)))
        }
        Err(error) => Err(error),
    }
}

/// The node that a name of this place names: that of an input, or a latch's leaf. Other names have none.
pub fn named_node(letter: u8, position: u32, inputs: &[usize], latchs: &[AigLatch]) -> Option<usize>
    requires inputs { letter ≡ letter_of_inputs → position < length inputs.now }
    requires latchs { letter ≡ letter_of_latches → position < length latchs.now }
    ensures { result ≡ node_at inputs.now (latch_leaves latchs.now) letter position }
{
    match letter {
        b'i' => Some(inputs[position as usize]),
        b'l' => Some(latchs[position as usize].input()),
        _ => None,
    }
}

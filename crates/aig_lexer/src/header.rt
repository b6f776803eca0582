//! The header line.

ghost use Rattle.aig_format.specs.Parse.{parse_header, header_from, parse_header_numbers, parse_kind};
ghost use Rattle.aig_lexer.specs.Faults.{word_cause};
ghost use Rattle.aig_lexer.specs.Header.{numbers_of};
ghost use Rattle.aig_lexer.specs.Takes.{Gives, feed};

use crate::buffer::InputBuffer;
use crate::error::LexError;
use crate::lexer::{next_byte, number};
use aig_base::Source;
use aig_format::FileKind;

/// The header of a file: its kind, the greatest variable, and how many entries each section has (AIGER format 20071012,
/// "Header": `M I L O A`; AIGER 1.9: `B C J F`).
#[derive(Clone, Copy)]
pub struct Header {
    /// Whether the file is a text or a binary one.
    pub kind: FileKind,
    /// The number of the greatest variable, `M`.
    pub greatest: u32,
    /// How many inputs there are, `I`.
    pub inputs: u32,
    /// How many latches there are, `L`.
    pub latches: u32,
    /// How many outputs there are, `O`.
    pub outputs: u32,
    /// How many and gates there are, `A`.
    pub gates: u32,
    /// How many bad state properties there are, `B`.
    pub bads: u32,
    /// How many invariant constraints there are, `C`.
    pub constraints: u32,
    /// How many justice properties there are, `J`: sets of literals.
    pub justice: u32,
    /// How many fairness constraints there are, `F`.
    pub fairness: u32,
}

/// Reads the header line: the kind's word, and five to nine numbers (AIGER format 20071012, "Header"; the numbers after the
/// first five are those of AIGER 1.9, and 0 where they are not written).
///
/// Returns `Shape` where the bytes are no such line, or end in it, and `Stream` where a read failed.
pub fn header_line<R: Source>(buffer: &mut InputBuffer, r: &mut R) -> Result<Header, LexError>
    ensures { Gives word_cause (λ h. (h.kind, numbers_of h))
        (feed R.left R.failed R.pulls buffer.old r.old)
        (feed R.left R.failed R.pulls buffer.new r.new) result parse_header }
{
    let kind = kind_word(buffer, r)?;
    let [
        greatest,
        inputs,
        latches,
        outputs,
        gates,
        bads,
        constraints,
        justice,
        fairness,
    ] = header_numbers(buffer, r)?;
    Ok(Header {
        kind,
        greatest,
        inputs,
        latches,
        outputs,
        gates,
        bads,
        constraints,
        justice,
        fairness,
    })
}

/// Reads `aag` or `aig`, and the space after it.
fn kind_word<R: Source>(buffer: &mut InputBuffer, r: &mut R) -> Result<FileKind, LexError>
    ensures { Gives word_cause (λ kind. kind) (feed R.left R.failed R.pulls buffer.old r.old)
        (feed R.left R.failed R.pulls buffer.new r.new) result parse_kind }
{
    let mut word = [0; 4];
    for byte in &mut word {
        *byte = next_byte(buffer, r)?;
    }
    if word == *b"aag " {
        Ok(FileKind::Text)
    } else if word == *b"aig " {
        Ok(FileKind::Binary)
    } else {
        Err(LexError::Shape)
    }
}

/// How many numbers a header line has at least.
const FEWEST: usize = 5;

/// How many numbers a header line has at most.
const MOST: usize = 9;

/// Reads a line of five to nine numbers; those that are not written are 0.
fn header_numbers<R: Source>(buffer: &mut InputBuffer, r: &mut R) -> Result<[u32; MOST], LexError>
    ensures { Gives word_cause header_from (feed R.left R.failed R.pulls buffer.old r.old)
        (feed R.left R.failed R.pulls buffer.new r.new) result parse_header_numbers }
{
    let mut numbers = [0; MOST];
    for i in 0..MOST {
        let (value, end) = number(buffer, r)?;
        numbers[i] = value;
        if end == b'\n' && i + 1 >= FEWEST {
            return Ok(numbers);
        }
        if end != b' ' {
            break;
        }
    }
    Err(LexError::Shape)
}

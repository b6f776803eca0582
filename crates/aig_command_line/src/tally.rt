//! Where in a file reading stopped.

ghost use Rattle.std.specs.Prelude.{◌≡◌, ◌+◌, ◌-◌, ◌<◌, ◌≤◌, ◌^◌, ◌++◌, ◌∷◌, [], List, ℕ, Some, false, get_or, length};

use crate::bytes::{byte_at, feeds_in, has_zero};

/// How many bytes at the front tell whether a proof that begins with `d` is binary.
const TELLING: u64 = 1024;

/// A place in a file.
#[derive(Clone, Copy, Debug, PartialEq, Eq)]
pub enum Place {
    /// No one place: it is the file as a whole.
    Whole,
    /// A line, the first of which is 1.
    Line(u64),
    /// A byte, the first of which is 1.
    Byte(u64),
}

/// How a place is told.
#[derive(Clone, Copy, Debug, PartialEq, Eq)]
pub enum Measure {
    /// By its line.
    Line,
    /// By its byte.
    Byte,
    /// By its byte in a binary AIGER file, whose second byte is `i`, and else by its line.
    Aiger,
    /// By its byte in a binary proof, and else by its line. Such a proof begins with `a`, with the `l` of the word `lrat`, or with `d`
    /// where a byte 0 is among the first 1,024.
    Proof,
}

/// The counts of bytes that came.
#[derive(Clone, Copy)]
pub(crate) struct Tally {
    /// How many they are.
    bytes: u64,
    /// How many of them are line feeds.
    feeds: u64,
    /// The line of the last one.
    line: u64,
    /// The first one, and 0 where there is none.
    first: u8,
    /// The second one, and 0 where there is none.
    second: u8,
    /// Whether a byte 0 is among the first 1,024.
    has_zero: bool,
    ghost few: { feeds ≤ bytes },
}

impl Tally {
    ghost use Rattle.aig_command_line.specs.Counts.{CountsWith, IsTally, has_zero, is_by_bytes, place_of};

    /// The counts of no bytes.
    pub(crate) fn new() -> Self
        ensures { IsTally result [] }
    {
        Tally {
            bytes: 0,
            feeds: 0,
            line: 1,
            first: 0,
            second: 0,
            has_zero: false,
        }
    }

    /// Whether no further byte can be counted.
    pub(crate) fn is_full(&self) -> bool
        ensures { result ≡ false → self.now.bytes < 2 ^ 64 - 1 }
    {
        self.bytes == u64::MAX
    }

    /// The counts with a further byte.
    pub(crate) fn with(self, byte: u8) -> Self
        requires { self.bytes < 2 ^ 64 - 1 }
        ensures { (came : List ℕ) → IsTally self came → IsTally result (came ++ byte ∷ []) }
    {
        let is_feed = byte == b'\n';
        Tally {
            bytes: self.bytes + 1,
            feeds: if is_feed { self.feeds + 1 } else { self.feeds },
            line: self.feeds + 1,
            first: if self.bytes == 0 { byte } else { self.first },
            second: if self.bytes == 1 { byte } else { self.second },
            has_zero: self.zero_with(&[byte]),
        }
    }

    /// The counts with the bytes of a piece, where these can be counted.
    pub(crate) fn with_piece(self, piece: &[u8]) -> Option<Self>
        ensures { CountsWith (Some self) piece.now result }
    {
        let bytes = self.bytes.checked_add(piece.len() as u64)?;
        let Some((last, front)) = piece.split_last() else {
            return Some(self);
        };
        let feeds = self.feeds + feeds_in(front);
        Some(Tally {
            bytes,
            feeds: if *last == b'\n' { feeds + 1 } else { feeds },
            line: feeds + 1,
            first: self.first_with(piece),
            second: self.second_with(piece),
            has_zero: self.zero_with(piece),
        })
    }

    /// The first byte, where a piece comes.
    fn first_with(&self, piece: &[u8]) -> u8
        ensures { (came : List ℕ) → IsTally self.now came
            → result ≡ get_or (came ++ piece.now) 0 0 }
    {
        if self.bytes == 0 {
            byte_at(piece, 0)
        } else {
            self.first
        }
    }

    /// The second byte, where a piece comes.
    fn second_with(&self, piece: &[u8]) -> u8
        ensures { (came : List ℕ) → IsTally self.now came
            → result ≡ get_or (came ++ piece.now) 1 0 }
    {
        match self.bytes {
            0 => byte_at(piece, 1),
            1 => byte_at(piece, 0),
            _ => self.second,
        }
    }

    /// Whether a byte 0 is among the first, where a piece comes.
    fn zero_with(&self, piece: &[u8]) -> bool
        ensures { (came : List ℕ) → IsTally self.now came
            → result ≡ has_zero (came ++ piece.now) }
    {
        let left = TELLING.saturating_sub(self.bytes) as usize;
        self.has_zero || has_zero(piece, left)
    }

    /// Whether places are told by bytes.
    fn is_by_bytes(&self, measure: Measure) -> bool
        ensures { (came : List ℕ) → IsTally self.now came → result ≡ is_by_bytes measure came }
    {
        match measure {
            Measure::Line => false,
            Measure::Byte => true,
            Measure::Aiger => self.second == b'i',
            Measure::Proof => match self.first {
                b'a' | b'l' => true,
                b'd' => self.has_zero,
                _ => false,
            },
        }
    }

    /// The place of the last byte that came.
    pub(crate) fn place(&self, measure: Measure) -> Place
        ensures { (came : List ℕ) → IsTally self.now came → result ≡ place_of measure came }
    {
        if self.is_by_bytes(measure) {
            Place::Byte(self.bytes)
        } else {
            Place::Line(self.line)
        }
    }
}

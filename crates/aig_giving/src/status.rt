//! The numbers by which calls say how they ended. `include/aig.h` has them in words.

ghost use Rattle.std.specs.Prelude.{◌≡◌, ◌<◌};
ghost use Rattle.aig_giving.specs.Statuses.{read_status, refutation_status, section_number};

use aig_reader::{ReadError, Section};
use aig_refutation::RefutationError;

/// The call has done what it is for.
pub const DONE: u32 = 0;
/// The answer doesn't fit the caller's memory.
pub const SMALL: u32 = 1;
/// Memory was refused.
pub const MEMORY: u32 = 2;
/// The circuit is too large for the format.
pub const UNWRITABLE: u32 = 9;
/// The first line isn't a good header line.
pub const HEADER: u32 = 10;
/// The file has more variables than the limit allows.
pub const TOO_MANY: u32 = 11;
/// A gate of a binary file is cut, or its differences aren't allowed.
const DELTA: u32 = 12;
/// A name line is wrong.
const NAME: u32 = 13;
/// A line of a section is wrong. The section's number is added.
const SYNTAX: u32 = 16;
/// A number of a section is no literal that may stand there. The section's number is added.
const LITERAL: u32 = 24;
/// A proof is refused. The fault's number is added.
pub const PROOF: u32 = 40;
/// A handle holds nothing: the first status of a call on a circuit in memory.
pub const EMPTY: u32 = 110;

/// The number of a section, in the order of the header's counts from 1.9 on, and of the gates at last.
fn section_number(section: Section) -> u32
    ensures exact { result ≡ section_number section }
    ensures few { result < 8 }
{
    match section {
        Section::Inputs => 0,
        Section::Latches => 1,
        Section::Outputs => 2,
        Section::Bads => 3,
        Section::Constraints => 4,
        Section::Justice => 5,
        Section::Fairness => 6,
        Section::Gates => 7,
    }
}

/// The status of a file that is refused. No path is opened, and no read of memory fails.
pub fn of_read(error: ReadError) -> u32
    ensures exact { result ≡ read_status error }
    ensures few { result < 60 }
{
    match error {
        ReadError::Memory | ReadError::Stream => MEMORY,
        ReadError::Header | ReadError::Open => HEADER,
        ReadError::TooMany => TOO_MANY,
        ReadError::Syntax(section) => SYNTAX + section_number(section),
        ReadError::Literal(section) => LITERAL + section_number(section),
        ReadError::Delta => DELTA,
        ReadError::Name => NAME,
    }
}

/// The status of a proof that is refused. No read of memory fails.
pub fn of_refutation(error: RefutationError) -> u32
    ensures exact { result ≡ refutation_status error }
    ensures few { result < 60 }
{
    match error {
        RefutationError::Memory | RefutationError::Stream => MEMORY,
        RefutationError::Variable => PROOF,
        RefutationError::Line => PROOF + 1,
        RefutationError::Literal => PROOF + 2,
        RefutationError::Unnamed => PROOF + 3,
        RefutationError::Twice => PROOF + 4,
        RefutationError::Large => PROOF + 5,
        RefutationError::Step => PROOF + 6,
        RefutationError::Asymmetry => PROOF + 7,
        RefutationError::Binary => PROOF + 8,
        RefutationError::Unfinished => PROOF + 9,
    }
}

//! The numbers by which calls say how they ended. `include/aig.h` has them in words.

ghost use Rattle.std.specs.Prelude.{◌≡◌};
ghost use Rattle.aig_handles.specs.Files.{write_status};

use aig::WriteError;
use aig_giving::{MEMORY, UNWRITABLE};

/// An edge, a node, an entry, a list or a step isn't there, or a limit isn't one.
pub(crate) const RANGE: u32 = 111;
/// There are more than 2^31 nodes, or could be; for clauses, 2^31 or more.
pub(crate) const FULL: u32 = 112;
/// A leaf is neither an input nor a latch's.
pub(crate) const FREE_LEAF: u32 = 113;
/// An initial edge isn't constant.
pub(crate) const INITIAL_EDGE: u32 = 114;
/// The name of an input or a latch has a line feed.
pub(crate) const LINE_FEED: u32 = 115;
/// The node isn't a free leaf.
pub(crate) const NOT_FREE: u32 = 116;
/// The name isn't UTF-8.
pub(crate) const NOT_UTF8: u32 = 117;
/// The node has no name.
pub(crate) const NO_NAME: u32 = 118;
/// The node isn't a gate, or an operand has no smaller number.
pub(crate) const NOT_ADMITTED: u32 = 119;
/// The circuit doesn't begin with the other one.
pub(crate) const NO_BEGINNING: u32 = 120;
/// There are more or fewer values than inputs or latches.
pub(crate) const COUNT: u32 = 121;
/// A value is none of the three.
pub(crate) const VALUE: u32 = 122;

/// The status of a circuit that isn't written. No file is made, and a write to memory stops only where memory is refused.
pub(crate) fn of_write(error: WriteError) -> u32
    ensures { result ≡ write_status error }
{
    match error {
        WriteError::Memory | WriteError::Stream | WriteError::Open => MEMORY,
        WriteError::FreeLeaf => FREE_LEAF,
        WriteError::InitialEdge => INITIAL_EDGE,
        WriteError::Name => LINE_FEED,
        WriteError::TooLarge => UNWRITABLE,
    }
}

//! The lines, comments and titles that are printed.

pub(crate) mod comments;
pub(crate) mod equal_lines;
pub(crate) mod line;
pub(crate) mod living;
pub(crate) mod sums;
pub(crate) mod titles;

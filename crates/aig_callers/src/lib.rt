//! A law that joins `aigedit` to `aigtool` and `aigcheck`. And, read for tests alone, so that each is proved once: small callers of the
//! library, as a crate above it writes them, whose proofs cite public clauses and laws alone; and tests of the library's calls on
//! circuits, and of these callers.
#![tactic(auto)]

#[cfg(test)]
mod callers;
#[cfg(test)]
mod instances;
mod laws;
#[cfg(test)]
mod printing;
#[cfg(test)]
mod sample;
#[cfg(test)]
mod shown;
#[cfg(test)]
mod taking;
#[cfg(test)]
mod tests;

pub use laws::joint_files_ask_the_same;

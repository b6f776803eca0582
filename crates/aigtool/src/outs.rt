//! Where OUT leads.

ghost use Rattle.std.specs.Prelude.{⊤};

use crate::output::Output;
use crate::place::{self, Place};
use aig_tool_commands::{Outs, ToolError};
use std::random::RandomSource;
use std::rt::Files;

/// The files of the system that OUT may lead to. Nothing is known of where a path leads.
#[derive(Drop)]
pub struct SystemOuts<'a, R> {
    rt: &'a R,
}

impl<'a, R> SystemOuts<'a, R> {
    /// The files that `rt` reaches.
    pub fn new(rt: &'a R) -> Self {
        SystemOuts { rt }
    }
}

impl<'a, R: Files + RandomSource + AllocGlobal> Outs<'a> for SystemOuts<'a, R> {
    type Out = Output<'a, R>;

    ghost leads = { λ _ _ _. ⊤ };

    fn find(&self, path: &'a str) -> Result<Option<Output<'a, R>>, ToolError> {
        match place::find(self.rt, path)? {
            Place::StandardOutput => Ok(None),
            Place::Descriptor => Ok(Some(Output::onto(self.rt, path)?)),
            Place::File(own) => Ok(Some(Output::beside(self.rt, path, own)?)),
        }
    }
}

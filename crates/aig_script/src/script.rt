//! What steps work on, and why one can't be taken.

use aig::Aig;
use aig_base::MemoryError;
use std::alloc::Global;
use std::io;

/// Why steps end.
#[derive(Clone, Copy, Debug)]
pub(crate) enum Fault {
    /// What comes before a call took more memory than there is.
    Memory,
    /// No step has this name and these words.
    Step,
    /// A file failed.
    File,
}

impl From<MemoryError> for Fault {
    fn from(_error: MemoryError) -> Fault {
        Fault::Memory
    }
}

impl From<io::Error> for Fault {
    fn from(_error: io::Error) -> Fault {
        Fault::File
    }
}

/// Why a step answers nothing.
#[derive(Clone, Copy, Debug)]
pub(crate) enum Refusal {
    /// Its call was refused memory.
    Memory,
    /// The circuit doesn't allow it, or it has no such words.
    NotAllowed,
    /// A leaf is neither input nor latch.
    FreeLeaf,
}

impl From<MemoryError> for Refusal {
    fn from(_error: MemoryError) -> Refusal {
        Refusal::Memory
    }
}

/// What steps work on: a circuit, and another that was kept.
pub(crate) struct Script {
    pub(crate) alloc: Global,
    pub(crate) circuit: Aig,
    pub(crate) kept: Aig,
}

impl Drop for Script {
    fn drop(self) {
        let Script {
            alloc: _,
            circuit: _,
            kept: _,
        } = self;
    }
}

impl Script {
    /// Two circuits without leaves.
    pub(crate) fn new(alloc: Global) -> Result<Script, Fault> {
        let circuit = Aig::new(alloc)?;
        let kept = Aig::new(alloc)?;
        Ok(Script {
            alloc,
            circuit,
            kept,
        })
    }
}

//! What C holds: a circuit, a simulation, an unrolled circuit or none.

ghost use Rattle.std.specs.Prelude.{◌≡◌, None, Some, option_map};
ghost use Rattle.aig_held.specs.Kept.{held};
ghost use Rattle.aig_held.specs.contracts.held.Held.{the_row};
ghost use Rattle.aig_held.specs.declared.held.Held.{Held};

use crate::held::Held;
use crate::loose::Loose;
use std::alloc::Global;
use std::marker::Model;
use std::{mem, ptr};

/// A circuit, a simulation or an unrolled circuit on the heap, or none. C makes one of zeros, which has none, and never reads, writes or copies one that has.
#[repr(C)]
pub struct Handle {
    at: *mut u8,
    ghost value: { Held } by { the_row.coded },
}

impl Model for Handle {
    ghost use Rattle.aig_held.specs.contracts.held.Held.{the_row};
    ghost use Rattle.aig_held.specs.Kept.{kept};

    ghost also_owns = { λ h. kept the_row h.at h.value };
}

impl Handle {
    /// The handle of none.
    pub fn none() -> Handle
        ensures { held result.at result.value ≡ None }
    {
        Handle {
            at: ptr::null_mut(),
        }
    }

    /// The handle of a value.
    pub(crate) fn of(value: Loose<Held, Global>) -> Handle
        ensures { held result.at result.value ≡ Some value.value }
    {
        let Loose { at, alloc: _ } = value;
        Handle { at: at as *mut u8 }
    }

    /// What it holds, if anything.
    pub(crate) fn into_loose(self, alloc: Global) -> Option<Loose<Held, Global>>
        ensures { option_map (λ l. l.value) result ≡ held self.at self.value }
    {
        let Handle { at } = self;
        if at == ptr::null_mut() {
            return None;
        }
        Some(Loose {
            at: at as *mut Held,
            alloc,
        })
    }

    /// Takes out what it holds, if anything.
    pub fn take(&mut self, alloc: Global) -> Option<Box<Held>>
        ensures value { option_map (λ b. b.value) result ≡ held self.old.at self.old.value }
        ensures none { held self.new.at self.new.value ≡ None }
    {
        let was = mem::replace(self, Handle::none());
        match was.into_loose(alloc) {
            Some(value) => Some(value.into_box()),
            None => None,
        }
    }

    /// Puts a value in, and lets go what was there.
    pub fn put(&mut self, alloc: Global, value: Box<Held>)
        ensures { held self.new.at self.new.value ≡ Some value.value }
    {
        let was = mem::replace(self, Handle::of(Loose::of(value)));
        if let Some(old) = was.into_loose(alloc) {
            drop(old.into_box());
        }
    }
}

unsafe impl Send for Handle {}

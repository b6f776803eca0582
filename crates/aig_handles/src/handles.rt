//! Handles: making, copying and letting go what they hold.

ghost use Rattle.std.specs.Prelude.{◌≡◌, IfSome, IfOk, IfErr, None, Some};
ghost use Rattle.aig_circuit.specs.Circuit.{only_false};
ghost use Rattle.aig_handles.specs.Handles.{DoneOr, OnHeld, circuit_in, held_in};

use aig::Aig;
use aig_giving::{DONE, EMPTY, MEMORY};
use aig_held::{Handle, Held};
use std::alloc::Global;

/// Puts a value into a handle, in place of what it held.
pub(crate) fn put_held(alloc: Global, value: Held, to: &mut Handle) -> u32
    ensures { DoneOr result (held_in to.new ≡ Some value) (to.new ≡ to.old) (result ≡ MEMORY) }
{
    match Box::new(alloc, value) {
        Ok(value) => {
            to.put(alloc, value);
            DONE
        }
        Err(_) => MEMORY,
    }
}

/// Puts the circuit of node 0 alone into a handle, in place of what it held.
#[unsafe(no_mangle)]
pub extern "C" fn aig_circuit_new(alloc: Global, circuit: &mut Handle) -> u32
    ensures { DoneOr result (circuit_in circuit.new ≡ Some only_false) (circuit.new ≡ circuit.old)
        (result ≡ MEMORY) }
{
    match Aig::new(alloc) {
        Ok(aig) => put_held(alloc, Held::Circuit(aig), circuit),
        Err(_) => MEMORY,
    }
}

/// Lets go what a handle holds, if anything.
#[unsafe(no_mangle)]
pub extern "C" fn aig_circuit_free(alloc: Global, circuit: &mut Handle)
    ensures { held_in circuit.new ≡ None }
{
    drop(circuit.take(alloc));
}

/// Puts a copy of a circuit into another handle.
fn copy(alloc: Global, aig: &Aig, to: &mut Handle) -> u32
    ensures { DoneOr result (circuit_in to.new ≡ Some aig.now) (to.new ≡ to.old) (result ≡ MEMORY) }
{
    match aig.clone() {
        Ok(made) => put_held(alloc, Held::Circuit(made), to),
        Err(_) => MEMORY,
    }
}

/// Puts a copy of a circuit into another handle, in place of what that held.
#[unsafe(no_mangle)]
pub extern "C" fn aig_circuit_clone(alloc: Global, circuit: &mut Handle, to: &mut Handle) -> u32
    ensures kept { held_in circuit.new ≡ held_in circuit.old }
    ensures copies { OnHeld circuit.old circuit.new result
        (to.new ≡ to.old) (λ aig _. DoneOr result (circuit_in to.new ≡ Some aig) (to.new ≡ to.old)
        (result ≡ MEMORY)) }
{
    lend!(alloc, circuit, aig => copy(alloc, &*aig, to))
}

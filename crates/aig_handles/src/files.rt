//! Circuits that are read from bytes, and their written forms.

ghost use Rattle.std.specs.Prelude.{◌≡◌, ◌≤◌, ◌^◌, IfErr, IfOk, IsSomeAnd, Ok, Some};
ghost use Rattle.aig.specs.Writing.{IsVerdictOf};
ghost use Rattle.aig_format.specs.Circuit.{binary_of, text_of};
ghost use Rattle.aig_handles.specs.Files.{GivesForm, IsReadFrom, IsUnwritten, RefusesFile};
ghost use Rattle.aig_handles.specs.Handles.{DoneOr, OnHeld, circuit_in, held_in};

use crate::handles::put_held;
use crate::status::{RANGE, of_write};
use aig::Aig;
use aig_base::{FromRead, Source, ToWrite};
use aig_giving::{EMPTY, give_made, of_read};
use aig_held::{Handle, Held};
use std::alloc::Global;

/// A source of these bytes.
fn source_of<'a>(bytes: &'a [u8]) -> FromRead<&'a [u8]>
    ensures { ⟦<FromRead<&'a [u8]> as Source>⟧.left result ≡ Some bytes.now }
{
    FromRead::new(bytes)
}

/// The circuit of the file that the bytes are, or the status that says why there is none.
fn read(alloc: Global, bytes: &[u8], limit: usize) -> Result<Aig, u32>
    ensures circuit { IfOk result (IsReadFrom bytes.now limit) }
    ensures refused { IfErr result (RefusesFile bytes.now limit) }
{
    if limit == 0 || limit > 1 << 31 {
        return Err(RANGE);
    }
    match Aig::from_aiger(alloc, &mut source_of(bytes), limit) {
        Ok(aig) => Ok(aig),
        Err(error) => Err(of_read(error)),
    }
}

/// Puts the circuit of a file into a handle, in place of what it held.
#[unsafe(no_mangle)]
pub extern "C" fn aig_circuit_from_aiger(
    alloc: Global,
    circuit: &mut Handle,
    file: &[u8],
    limit: usize,
) -> u32
    ensures { DoneOr result (IsSomeAnd (circuit_in circuit.new) (IsReadFrom file.now limit))
        (circuit.new ≡ circuit.old) (RefusesFile file.now limit result) }
{
    match read(alloc, file, limit) {
        Ok(aig) => put_held(alloc, Held::Circuit(aig), circuit),
        Err(status) => status,
    }
}

/// The text form of a circuit, or the status that says why there is none.
fn text(alloc: Global, aig: &Aig) -> Result<Vec<u8>, u32>
    ensures form { IfOk result (λ v. (v.items ≡ text_of aig.now) × IsVerdictOf aig.now (Ok tt)) }
    ensures refused { IfErr result (IsUnwritten aig.now) }
{
    let mut sink = ToWrite::new(Vec::new(alloc));
    match aig.write_text(&mut sink) {
        Ok(()) => Ok(sink.into_inner()),
        Err(error) => Err(of_write(error)),
    }
}

/// The binary form of a circuit, or the status that says why there is none.
fn binary(alloc: Global, aig: &Aig) -> Result<Vec<u8>, u32>
    ensures form { IfOk result (λ v. (v.items ≡ binary_of aig.now) × IsVerdictOf aig.now (Ok tt)) }
    ensures refused { IfErr result (IsUnwritten aig.now) }
{
    let mut sink = ToWrite::new(Vec::new(alloc));
    match aig.write_binary(&mut sink) {
        Ok(()) => Ok(sink.into_inner()),
        Err(error) => Err(of_write(error)),
    }
}

/// Gives the text form of a circuit.
fn write_text(alloc: Global, aig: &Aig, out: &mut [u8], needed: &mut usize) -> u32
    ensures { GivesForm text_of result out.old out.new needed.old needed.new aig.now }
{
    give_made(text(alloc, aig), out, needed)
}

/// Gives the binary form of a circuit.
fn write_binary(alloc: Global, aig: &Aig, out: &mut [u8], needed: &mut usize) -> u32
    ensures { GivesForm binary_of result out.old out.new needed.old needed.new aig.now }
{
    give_made(binary(alloc, aig), out, needed)
}

/// Gives the text form of a circuit.
#[unsafe(no_mangle)]
pub extern "C" fn aig_circuit_write_text(
    alloc: Global,
    circuit: &mut Handle,
    out: &mut [u8],
    needed: &mut usize,
) -> u32
    ensures kept { held_in circuit.new ≡ held_in circuit.old }
    ensures form { OnHeld circuit.old circuit.new result
        ((out.new ≡ out.old) × (needed.new ≡ needed.old)) (λ aig _. GivesForm text_of result
        out.old out.new needed.old needed.new aig) }
{
    lend!(alloc, circuit, aig => write_text(alloc, &*aig, out, needed))
}

/// Gives the binary form of a circuit.
#[unsafe(no_mangle)]
pub extern "C" fn aig_circuit_write_binary(
    alloc: Global,
    circuit: &mut Handle,
    out: &mut [u8],
    needed: &mut usize,
) -> u32
    ensures kept { held_in circuit.new ≡ held_in circuit.old }
    ensures form { OnHeld circuit.old circuit.new result
        ((out.new ≡ out.old) × (needed.new ≡ needed.old)) (λ aig _. GivesForm binary_of result
        out.old out.new needed.old needed.new aig) }
{
    lend!(alloc, circuit, aig => write_binary(alloc, &*aig, out, needed))
}

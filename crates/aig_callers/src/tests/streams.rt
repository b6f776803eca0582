//! Readers and writers of std that fail.

use crate::tests::read;
use aig::{Aig, ReadError, WriteError};
use aig_base::{FromRead, Sink, Source, StreamFault, ToWrite};
use aig_encode::{EncodeError, encode, query};
use std::alloc::Global;
use std::io;
use std::io::{ErrorKind, Read, Write};
use std::test::Fail;

/// The limit on variables.
const LIMIT: usize = 1 << 24;

/// The and of two inputs.
const AND: &[u8] = b"aag 3 2 0 1 1\n2\n4\n6\n6 4 2\n";

/// Its binary form.
const BINARY_AND: &[u8] = b"aig 3 2 0 1 1\n6\n\x02\x02";

/// A reader and writer whose every call is interrupted.
#[derive(Drop)]
struct Interrupted;

impl Read for Interrupted {
    fn read(&mut self, _buf: &mut [u8]) -> io::Result<usize> {
        Err(io::Error::from(ErrorKind::Interrupted))
    }
}

impl Write for Interrupted {
    fn write(&mut self, _piece: &[u8]) -> io::Result<usize> {
        Err(io::Error::from(ErrorKind::Interrupted))
    }

    fn flush(&mut self) -> io::Result<()> {
        Ok(())
    }
}

/// A writer that takes no byte.
#[derive(Drop)]
struct Idle;

impl Write for Idle {
    fn write(&mut self, _piece: &[u8]) -> io::Result<usize> {
        Ok(0)
    }

    fn flush(&mut self) -> io::Result<()> {
        Ok(())
    }
}

/// Pulls once, through a bound.
fn pull_once<R: Source>(r: &mut R, buf: &mut [u8]) -> Result<usize, StreamFault> {
    r.pull(buf)
}

/// Puts once, through a bound.
fn put_once<W: Sink>(w: &mut W, piece: &[u8]) -> Result<usize, StreamFault> {
    w.put(piece)
}

#[test]
fn fails_where_interrupted(rt: HostRuntime) {
    let mut buf = [0u8; 2];
    let mut source = FromRead::new(Interrupted);
    assert!(rt; pull_once(&mut source, &mut buf) == Err(StreamFault::Failed));
    assert!(rt; pull_once(&mut source, &mut buf) == Err(StreamFault::Failed));
    let mut sink = ToWrite::new(Interrupted);
    assert!(rt; put_once(&mut sink, b"a") == Err(StreamFault::Failed));
    assert!(rt; put_once(&mut sink, b"") == Err(StreamFault::Failed));
}

#[test]
fn fails_where_no_byte_is_taken(rt: HostRuntime) {
    let mut sink = ToWrite::new(Idle);
    assert!(rt; put_once(&mut sink, b"") == Ok(0));
    assert!(rt; put_once(&mut sink, b"a") == Err(StreamFault::Failed));
}

/// A reader that gives its bytes, then its end if it ends, and is interrupted from then on.
#[derive(Drop)]
struct Breaking<'a> {
    bytes: &'a [u8],
    ends: bool,
}

impl<'a> Read for Breaking<'a> {
    fn read(&mut self, buf: &mut [u8]) -> io::Result<usize> {
        if !self.bytes.is_empty() {
            return self.bytes.read(buf);
        }
        if !self.ends {
            return Err(io::Error::from(ErrorKind::Interrupted));
        }
        self.ends = false;
        Ok(0)
    }
}

/// Why a circuit isn't read, encoded and asked for, if it isn't, where the reader breaks.
fn faults(
    alloc: Global,
    bytes: &[u8],
    ends: bool,
) -> (Option<ReadError>, Option<EncodeError>, Option<EncodeError>) {
    let mut reading = FromRead::new(Breaking { bytes, ends });
    let mut encoding = FromRead::new(Breaking { bytes, ends });
    let mut asking = FromRead::new(Breaking { bytes, ends });
    (
        Aig::from_aiger(alloc, &mut reading, LIMIT).err(),
        encode(alloc, &mut encoding, LIMIT, 1, true).err(),
        query(alloc, &mut asking, LIMIT, 1, true).err(),
    )
}

// A reader that breaks after its end isn't asked again.
#[test]
fn tells_a_reader_that_breaks(rt: HostRuntime) {
    let fault = ReadError::Stream;
    let refused = Some(EncodeError::Read(fault));
    for bytes in [AND, BINARY_AND] {
        for j in 0..bytes.len() + 1 {
            let broken = faults(rt.alloc(), &bytes[..j], false);
            assert!(rt;
                broken == (Some(fault), refused, refused),
                "after {j} bytes"
            );
        }
        assert!(rt; faults(rt.alloc(), bytes, true) == (None, None, None));
    }
}

#[test]
fn tells_a_writer_that_breaks(rt: HostRuntime) -> Result<(), Fail> {
    let circuit = read(rt.alloc(), AND)?;
    let fault = Err(WriteError::Stream);
    let (mut text, mut binary) = (ToWrite::new(Interrupted), ToWrite::new(Interrupted));
    assert!(rt;
        circuit.write_text(&mut text) == fault && circuit.write_binary(&mut binary) == fault
    );
    let (mut text, mut binary) = (ToWrite::new(Idle), ToWrite::new(Idle));
    assert!(rt;
        circuit.write_text(&mut text) == fault && circuit.write_binary(&mut binary) == fault
    );
    Ok(())
}

//! Steps on sources and sinks of bytes, and on the words of a source.

ghost use Rattle.std.specs.Prelude.{◌<◌, ◌≡◌, length};

use crate::files::source;
use crate::script::{Refusal, Script};
use crate::show::{print, print_answer};
use crate::words::{Line, find};
use crate::writing::taker_of;
use aig_base::{FromRead, MemoryError, Parts, Sink, Source, StreamFault, ToWrite};
use aig_lexer::{InputBuffer, LexError, delta, ended, header_line, pair};
use std::alloc::Global;
use std::fs;
use std::io::Print;
use std::rt::Files;

/// Which stream is used, and how.
enum Stream {
    Pull,
    PullStd,
    PullMany,
    Put,
    PutStd,
    PutMany,
    Lex,
}

const STEPS: [(&str, Stream); 7] = [
    ("pull", Stream::Pull),
    ("pull_std", Stream::PullStd),
    ("pull_many", Stream::PullMany),
    ("put", Stream::Put),
    ("put_std", Stream::PutStd),
    ("put_many", Stream::PutMany),
    ("lex", Stream::Lex),
];

/// Pulls once, and prints the bytes that came.
fn print_pull<R: Print, S: Source>(rt: &R, source: &mut S, buf: &mut [u8]) {
    match source.pull(buf) {
        Ok(n) => print(rt, &&buf[..n]),
        Err(fault) => print(rt, &fault),
    }
}

/// Room for so many bytes.
fn room(alloc: Global, size: usize) -> Result<Vec<u8>, MemoryError> {
    Ok(vec![in alloc; 0; size]?)
}

/// Appends bytes.
fn append(bytes: &mut Vec<u8>, more: &[u8]) -> Result<(), MemoryError> {
    Ok(bytes.extend_from_slice(more)?)
}

/// Pulls so often into so much room, and prints the bytes that come.
fn print_pulls<R: Print, S: Source>(
    rt: &R,
    alloc: Global,
    source: &mut S,
    count: usize,
    size: usize,
) -> Result<(), Refusal> {
    let mut buf = room(alloc, size)?;
    for _ in 0..count {
        print_pull(rt, source, &mut buf);
    }
    Ok(())
}

/// Pulls from the bytes of a file, so many at a time.
fn pull<R: Print + Files + AllocGlobal>(
    rt: &R,
    script: &Script,
    path: &str,
    numbers: &[usize],
) -> Result<(), Refusal> {
    let [count, size, piece, fails @ ..] = numbers else {
        return Err(Refusal::NotAllowed);
    };
    let mut source = source(rt, path, *piece, fails)?;
    print_pulls(rt, script.alloc, &mut source, *count, *size)
}

/// The bytes of a file.
fn bytes_of<R: Files + AllocGlobal>(rt: &R, path: &str) -> Result<Vec<u8>, Refusal> {
    match fs::read(rt, path) {
        Ok(bytes) => Ok(bytes),
        Err(_) => Err(Refusal::NotAllowed),
    }
}

/// Pulls from a reader of std.
fn pull_std<R: Print + Files + AllocGlobal>(
    rt: &R,
    script: &Script,
    path: &str,
    numbers: &[usize],
) -> Result<(), Refusal> {
    let [count, size] = numbers else {
        return Err(Refusal::NotAllowed);
    };
    let bytes = bytes_of(rt, path)?;
    let mut source = FromRead::new(bytes.as_slice());
    print_pulls(rt, script.alloc, &mut source, *count, *size)?;
    print(rt, &source.into_inner().len());
    Ok(())
}

/// The bytes that so many pulls into so much room give, up to one that fails.
fn pulled<S: Source>(
    alloc: Global,
    source: &mut S,
    count: usize,
    size: usize,
) -> Result<Vec<u8>, Refusal> {
    let mut buf = room(alloc, size)?;
    let mut bytes = Vec::new(alloc);
    for _ in 0..count {
        match source.pull(&mut buf) {
            Ok(n) => append(&mut bytes, &buf[..n])?,
            Err(_) => return Err(Refusal::NotAllowed),
        }
    }
    Ok(bytes)
}

/// Pulls often from a reader of std, and prints how many bytes came, and whether they are those of the file.
fn pull_many<R: Print + Files + AllocGlobal>(
    rt: &R,
    script: &Script,
    path: &str,
    numbers: &[usize],
) -> Result<(), Refusal> {
    let [count, size] = numbers else {
        return Err(Refusal::NotAllowed);
    };
    let bytes = bytes_of(rt, path)?;
    let mut source = FromRead::new(bytes.as_slice());
    let pulled = pulled(script.alloc, &mut source, *count, *size)?;
    print(rt, &(pulled.len(), pulled == bytes));
    Ok(())
}

/// Puts the bytes of each file once, and prints how many are taken.
fn print_puts<R: Print + Files + AllocGlobal, S: Sink>(
    rt: &R,
    sink: &mut S,
    paths: &[&str],
) -> Result<(), Refusal> {
    for path in paths {
        let bytes = bytes_of(rt, path)?;
        print_answer(rt, &sink.put(&bytes));
    }
    Ok(())
}

/// Puts files into a sink that takes so many bytes at a time and has room for so many, and prints what it holds.
fn put<R: Print + Files + AllocGlobal>(
    rt: &R,
    script: &Script,
    line: Line<'_>,
) -> Result<(), Refusal> {
    let ([most, room, ..], [_, _, paths @ ..]) = (line.numbers, line.words) else {
        return Err(Refusal::NotAllowed);
    };
    let mut taker = taker_of(script.alloc, &[*most, *room])?;
    print_puts(rt, &mut taker, paths)?;
    print(rt, &taker.bytes());
    Ok(())
}

/// Puts files into a writer of std, and prints what that holds.
fn put_std<R: Print + Files + AllocGlobal>(
    rt: &R,
    script: &Script,
    paths: &[&str],
) -> Result<(), Refusal> {
    let mut sink = ToWrite::new(Vec::new(script.alloc));
    print_puts(rt, &mut sink, paths)?;
    print(rt, &sink.into_inner());
    Ok(())
}

/// How many bytes so many puts of a piece take, up to one that fails.
fn taken<S: Sink>(sink: &mut S, piece: &[u8], count: usize) -> Result<usize, StreamFault> {
    let mut taken = 0usize;
    for _ in 0..count {
        taken = taken.saturating_add(sink.put(piece)?);
    }
    Ok(taken)
}

/// Puts a file often into a writer of std, and prints how many bytes are taken, and how many it holds, and whether they are the file's.
fn put_many<R: Print + Files + AllocGlobal>(
    rt: &R,
    script: &Script,
    path: &str,
    numbers: &[usize],
) -> Result<(), Refusal> {
    let [count] = numbers else {
        return Err(Refusal::NotAllowed);
    };
    let bytes = bytes_of(rt, path)?;
    let mut sink = ToWrite::new(Vec::new(script.alloc));
    print_answer(rt, &taken(&mut sink, &bytes, *count));
    let held = sink.into_inner();
    print(rt, &(held.len(), held == bytes));
    Ok(())
}

/// Prints a header's greatest number, a number with its end, a pair, and so many differences.
fn print_words<R: Print>(rt: &R, source: &mut Parts, count: usize) -> Result<(), LexError> {
    let mut buffer = InputBuffer::new();
    print(rt, &header_line(&mut buffer, source)?.greatest);
    print(rt, &ended(&mut buffer, source, b' ')?);
    print(rt, &pair(&mut buffer, source)?);
    for _ in 0..count {
        print(rt, &delta(&mut buffer, source)?);
    }
    Ok(())
}

/// Prints the words of the bytes of a file, so many at a time.
fn lex<R: Print + Files + AllocGlobal>(
    rt: &R,
    path: &str,
    numbers: &[usize],
) -> Result<(), Refusal> {
    let [count, piece] = numbers else {
        return Err(Refusal::NotAllowed);
    };
    let mut source = source(rt, path, *piece, &[])?;
    if let Err(error) = print_words(rt, &mut source, *count) {
        print(rt, &error);
    }
    Ok(())
}

/// Takes a step of the table that names a file.
fn take_file<R: Print + Files + AllocGlobal>(
    rt: &R,
    script: &Script,
    step: &Stream,
    line: Line<'_>,
) -> Result<(), Refusal> {
    let ([path, ..], [_, numbers @ ..]) = (line.words, line.numbers) else {
        return Err(Refusal::NotAllowed);
    };
    match step {
        Stream::Pull => pull(rt, script, path, numbers),
        Stream::PullStd => pull_std(rt, script, path, numbers),
        Stream::PullMany => pull_many(rt, script, path, numbers),
        Stream::PutMany => put_many(rt, script, path, numbers),
        Stream::Lex => lex(rt, path, numbers),
        Stream::Put => put(rt, script, line),
        Stream::PutStd => put_std(rt, script, line.words),
    }
}

/// Takes a step of this file, if it is one.
pub(crate) fn take<R: Print + Files + AllocGlobal>(
    rt: &R,
    script: &Script,
    line: Line<'_>,
) -> bool {
    let Some(step) = find(&STEPS, line.name) else {
        return false;
    };
    if let Err(refusal) = take_file(rt, script, step, line) {
        print(rt, &refusal);
    }
    true
}

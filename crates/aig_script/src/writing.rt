//! Steps that write a circuit.

ghost use Rattle.std.specs.Prelude.{◌<◌};

use crate::script::{Refusal, Script};
use crate::show::{call, print, print_answer};
use crate::words::{Line, find};
use aig::{Aig, WriteError};
use aig_base::{Taker, ToWrite};
use std::alloc::Global;
use std::fmt::Write;
use std::io::Print;
use std::path::Path;
use std::rt::Files;
use std::{fmt, fs};

/// Where the circuit is written.
enum Writing {
    Text,
    Binary,
    Taker,
    PutText,
    PutBinary,
    Display,
    DisplayStyled,
    ToFile,
    ToFileBinary,
    Contents,
}

const STEPS: [(&str, Writing); 10] = [
    ("text", Writing::Text),
    ("binary", Writing::Binary),
    ("taker", Writing::Taker),
    ("put_text", Writing::PutText),
    ("put_binary", Writing::PutBinary),
    ("display", Writing::Display),
    ("display_styled", Writing::DisplayStyled),
    ("to_file", Writing::ToFile),
    ("to_file_binary", Writing::ToFileBinary),
    ("contents", Writing::Contents),
];

/// Prints bytes as a text, quoted.
fn print_text<R: Print>(rt: &R, bytes: Vec<u8>) {
    match String::from_utf8(bytes) {
        Ok(text) => print(rt, &text),
        Err(_) => print(rt, &"not UTF-8"),
    }
}

/// Prints the text form of the circuit, or why there is none.
fn text<R: Print>(rt: &R, script: &Script) {
    let mut sink = ToWrite::new(Vec::new(script.alloc));
    match script.circuit.write_text(&mut sink) {
        Ok(()) => print_text(rt, sink.into_inner()),
        Err(error) => print(rt, &error),
    }
}

/// Prints the bytes of the binary form of the circuit, or why there is none.
fn binary<R: Print>(rt: &R, script: &Script) {
    let mut sink = ToWrite::new(Vec::new(script.alloc));
    match script.circuit.write_binary(&mut sink) {
        Ok(()) => print(rt, &sink.into_inner()),
        Err(error) => print(rt, &error),
    }
}

/// A sink that takes so many bytes at a time, and has room for so many.
pub(crate) fn taker_of(alloc: Global, numbers: &[usize]) -> Result<Taker, Refusal> {
    match numbers {
        [most, room] if *most > 0 => Ok(Taker::new(alloc, *most, *room)?),
        _ => Err(Refusal::NotAllowed),
    }
}

/// Makes a sink, and prints what it holds.
fn taker<R: Print>(rt: &R, script: &Script, numbers: &[usize]) {
    match call!(rt, taker_of(script.alloc, numbers)) {
        Ok(taker) => print(rt, &taker.bytes()),
        Err(refusal) => print(rt, &refusal),
    }
}

/// Writes the circuit into a sink, in the text form or the binary form.
fn write(circuit: &Aig, ascii: bool, taker: &mut Taker) -> Result<(), WriteError> {
    if ascii {
        circuit.write_text(taker)
    } else {
        circuit.write_binary(taker)
    }
}

/// Writes the circuit into a sink, and prints what that holds.
fn put<R: Print>(rt: &R, script: &Script, ascii: bool, numbers: &[usize]) {
    match taker_of(script.alloc, numbers) {
        Ok(mut taker) => {
            print_answer(rt, &call!(rt, write(&script.circuit, ascii, &mut taker)));
            print(rt, &taker.bytes());
        }
        Err(refusal) => print(rt, &refusal),
    }
}

/// Room for so many bytes, and the text that came. A piece that is longer is refused.
struct Room {
    left: usize,
    text: String,
}

impl Drop for Room {
    fn drop(self) {
        let Room { left: _, text: _ } = self;
    }
}

impl fmt::Write for Room {
    fn write_str(&mut self, s: &str) -> fmt::Result {
        if s.len() > self.left || self.text.push_str(s).is_err() {
            return Err(fmt::Error);
        }
        self.left -= s.len();
        Ok(())
    }
}

/// Prints what was written into a room, or that it was refused.
fn print_room<R: Print>(rt: &R, room: &Room, written: fmt::Result) {
    match written {
        Ok(()) => print(rt, &room.text),
        Err(_) => {
            let _ = println!(rt; "refused after {} bytes", room.text.len());
        }
    }
}

/// Prints what the circuit is printed as into so much room, twice behind options where it is `styled`.
fn display<R: Print>(rt: &R, script: &Script, numbers: &[usize], styled: bool) {
    let [left] = numbers else {
        return print(rt, &Refusal::NotAllowed);
    };
    let (left, text) = (*left, String::new(script.alloc));
    let mut room = Room { left, text };
    let written = if styled {
        write!(room, "{:>60}{:.3}", script.circuit, script.circuit)
    } else {
        write!(room, "{}", script.circuit)
    };
    print_room(rt, &room, written);
}

/// Writes the circuit into the file of a path.
fn to_file<R: Print + Files>(rt: &R, script: &Script, path: &str, ascii: bool) {
    let path = Path::new(path);
    print_answer(rt, &call!(rt, script.circuit.to_file(rt, path, ascii)));
}

/// Prints the bytes of the file of a path.
fn contents<R: Print + Files + AllocGlobal>(rt: &R, path: &str) {
    match fs::read(rt, path) {
        Ok(bytes) => print(rt, &bytes),
        Err(_) => print(rt, &Refusal::NotAllowed),
    }
}

/// Takes a step of the table that names a file.
fn take_file<R: Print + Files + AllocGlobal>(
    rt: &R,
    script: &Script,
    step: &Writing,
    words: &[&str],
) {
    let [path] = words else {
        return print(rt, &Refusal::NotAllowed);
    };
    match step {
        Writing::ToFile => to_file(rt, script, path, true),
        Writing::ToFileBinary => to_file(rt, script, path, false),
        _ => contents(rt, path),
    }
}

/// Takes a step of this file, if it is one.
pub(crate) fn take<R: Print + Files + AllocGlobal>(
    rt: &R,
    script: &Script,
    line: Line<'_>,
) -> bool {
    let Some(step) = find(&STEPS, line.name) else {
        return false;
    };
    match step {
        Writing::Text => text(rt, script),
        Writing::Binary => binary(rt, script),
        Writing::Taker => taker(rt, script, line.numbers),
        Writing::PutText => put(rt, script, true, line.numbers),
        Writing::PutBinary => put(rt, script, false, line.numbers),
        Writing::Display => display(rt, script, line.numbers, false),
        Writing::DisplayStyled => display(rt, script, line.numbers, true),
        _ => take_file(rt, script, step, line.words),
    }
    true
}

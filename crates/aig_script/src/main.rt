//! Takes the steps of a file, one a line, on a circuit, on clauses and on a map, and prints the name and the answer of each.
//!
//! A line is the name of a step and its words. Edges are literals. A step that makes a circuit puts it
//! in place of the one before, and one that is refused leaves that as it was. Where a step makes a
//! call, the lines `call` and `answer` stand around it: between them that call alone takes memory.
#![tactic(auto)]

mod ask;
mod build;
mod change;
mod files;
mod leaves;
mod lists;
mod nodes;
mod properties;
mod script;
mod show;
mod simulation;
mod streams;
mod values;
mod words;
mod writing;

use crate::lists::Lists;
use crate::script::{Fault, Script};
use crate::words::Line;
use std::io::Print;
use std::process::ExitCode;
use std::rt::{Env, Files};
use std::{env, fs};

/// Takes a step, if it is one.
fn take_step<R: Print + Files + AllocGlobal>(
    rt: &R,
    script: &mut Script,
    lists: &mut Lists,
    line: Line<'_>,
) -> bool {
    values::take(rt, line)
        || lists::take(rt, lists, line)
        || streams::take(rt, script, line)
        || build::take(rt, script, line)
        || nodes::take(rt, &mut script.circuit, line)
        || change::take(rt, script, line)
        || ask::take(rt, script, line)
        || simulation::take(rt, script, line)
        || writing::take(rt, script, line)
        || files::take(rt, script, line)
}

/// Takes the step of a line, if it has one.
fn take_line<R: Print + Files + AllocGlobal>(
    rt: &R,
    script: &mut Script,
    lists: &mut Lists,
    line: &str,
) -> Result<(), Fault> {
    let words = words::words(script.alloc, line)?;
    let numbers = words::numbers(script.alloc, &words)?;
    let Some(line) = words::line_of(&words, &numbers) else {
        return Ok(());
    };
    show::print_name(rt, line.name);
    if take_step(rt, script, lists, line) {
        Ok(())
    } else {
        Err(Fault::Step)
    }
}

/// Takes the steps of a text on circuits and on lists.
fn take_lines<R: Print + Files + AllocGlobal>(
    rt: &R,
    script: &mut Script,
    lists: &mut Lists,
    text: &str,
) -> Result<(), Fault> {
    for line in text.lines() {
        take_line(rt, script, lists, line)?;
    }
    Ok(())
}

/// Takes the steps of a text on circuits, and on lists that begin without clauses.
fn take_on_circuits<R: Print + Files + AllocGlobal>(
    rt: &R,
    script: &mut Script,
    text: &str,
) -> Result<(), Fault> {
    let mut lists = Lists::new(script.alloc)?;
    take_lines(rt, script, &mut lists, text)
}

/// Takes the steps of a text.
fn take_all<R: Print + Files + AllocGlobal>(rt: &R, text: &str) -> Result<(), Fault> {
    let mut script = Script::new(rt.alloc())?;
    take_on_circuits(rt, &mut script, text)
}

/// Takes the steps of the file that the first word names.
fn execute(rt: &(impl Env + Print + Files + AllocGlobal)) -> Result<(), Fault> {
    let Some(path) = env::args(rt)?.nth(1) else {
        return Err(Fault::Step);
    };
    let text = fs::read_to_string(rt, path.as_str())?;
    take_all(rt, text.as_str())
}

fn main(rt: HostRuntime) -> ExitCode {
    match execute(&rt) {
        Ok(()) => ExitCode::SUCCESS,
        Err(fault) => {
            let _ = eprintln!(rt; "aig_script: {fault:?}");
            ExitCode::FAILURE
        }
    }
}

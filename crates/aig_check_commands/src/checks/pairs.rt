//! Printing the clauses that the proofs of a certificate are of: of FILE's own circuit, or of one that is made of it.

ghost use Rattle.std.specs.Prelude.{◌≡◌, ◌≤◌, ◌^◌, ◌++◌, ◌∷◌, [], IfOk};
ghost use Rattle.aig_answers.specs.Answers.{AreWrittenFrom, AskWith};
ghost use Rattle.aig_circuit.specs.Circuit.{IsCircuit};
ghost use Rattle.aig_circuit.specs.View.{lists_circuit};
ghost use Rattle.aig_command_line.specs.Limits.{IsLimit};
ghost use Rattle.aig_runs.specs.WindowClauses.{AsksWindow};
ghost use Rattle.aig_runs.specs.declared.window.Window.TheVariants.{Plain};
ghost use Rattle.aig_unroll.specs.Places.{unrolled_size};
ghost use Rattle.aig_check_commands.specs.Pairs.{RunsObligations, certified_error};
ghost use Rattle.aig_check_commands.specs.Printed.{Printed};
ghost use Rattle.aig_check_commands.specs.Printing.{AnswersJoint, AreObligationsOf, AsksJoint, WritesBase, WritesBehind, WritesBoth};

use crate::checks::printing::{after_writing, tell_circuit};
use crate::error::CheckError;
use crate::lines::sums::read_certified;
use crate::lines::titles::{Title, Topic, write_title};
use aig_answers::{
    Ask, ClauseParts, Goal, GoalError, GoalFault, Window, asked_with, check_room, plans_have_room,
    query_parts, window_parts,
};
use aig_base::{MemoryError, Sink, Source, StreamFault};
use aig_circuit::{CircuitLists, CircuitView};
use aig_command_line::write_text;
use aig_dimacs::write_circuit;
use aig_runs::Unrolled;
use aig_subjects::{FileSubject, Subject};
use aig_unroll::unroll_to;
use std::alloc::Global;

// ---- clauses

/// What the clauses are written from that the proofs of a certificate are of.
struct Obligations {
    /// The joint circuit, with no further step.
    joint: Unrolled,
    /// What the clauses of its query for step 0 are written from beside it.
    base: ClauseParts,
    /// The joint circuit with one step more.
    stepped: CircuitLists,
    /// What the clauses of the joint circuit's plain window of two steps are written from beside it.
    step: ClauseParts,
}

impl Drop for Obligations {
    fn drop(self) {
        let Obligations {
            joint: _,
            base: _,
            stepped: _,
            step: _,
        } = self;
    }
}

/// The joint circuit with one step more, and what the clauses of its plain window of two steps are written from beside it.
fn part_window(
    alloc: Global,
    joint: &CircuitView<'_>,
    optimize: bool,
) -> Result<(CircuitLists, ClauseParts), MemoryError>
    requires { unrolled_size joint.now 1 ≤ 2 ^ 31 }
    ensures circuit { IfOk result (λ made. IsCircuit (lists_circuit made.0)) }
    ensures written { IfOk result (λ made. AreWrittenFrom (lists_circuit made.0) optimize made.1) }
    ensures asks { IfOk result (λ made. AskWith (lists_circuit made.0) optimize
        (λ lists. AsksWindow Plain joint.now 0 optimize lists.clauses lists.extra) made.1) }
{
    let stepped = unroll_to(joint, 1)?;
    let parts = window_parts(alloc, joint, 0, &CircuitView::new(&stepped), optimize)?;
    Ok((stepped, parts))
}

/// What the clauses of a joint circuit's query for step 0 and of its window of two steps are written from.
fn ask_both(alloc: Global, joint: CircuitLists, optimize: bool) -> Result<Obligations, MemoryError>
    requires circuit { IsCircuit (lists_circuit joint) }
    requires base { unrolled_size (lists_circuit joint) 0 ≤ 2 ^ 31 }
    requires step { unrolled_size (lists_circuit joint) 1 ≤ 2 ^ 31 }
    ensures { IfOk result (AreObligationsOf optimize (lists_circuit joint)) }
{
    let joint = Unrolled::new(joint, 0)?;
    let base = query_parts(alloc, &joint, optimize)?;
    let (stepped, step) = part_window(alloc, &joint.circuit(), optimize)?;
    Ok(Obligations {
        joint,
        base,
        stepped,
        step,
    })
}

/// The same, if there is room for the clauses.
fn ask_joint(
    alloc: Global,
    limit: usize,
    joint: CircuitLists,
    optimize: bool,
) -> Result<Obligations, GoalFault>
    requires limit { IsLimit limit }
    requires circuit { IsCircuit (lists_circuit joint) }
    ensures { AsksJoint limit optimize (lists_circuit joint) result }
{
    plans_have_room();
    let base = asked_with(optimize, Ask::Step(0));
    let step = asked_with(optimize, Ask::Window(0, Window::Plain));
    check_room(&CircuitView::new(&joint), limit, &[base, step])?;
    Ok(ask_both(alloc, joint, optimize)?)
}

// ---- texts

/// Writes the clauses of a circuit and further ones, after a line that names them. No list of them is made.
fn write_part<W: Sink>(
    w: &mut W,
    name: &[u8],
    circuit: &CircuitView<'_>,
    optimize: bool,
    parts: &ClauseParts,
) -> Result<(), StreamFault>
    requires { AreWrittenFrom circuit.now optimize parts.now }
    ensures { WritesBehind W.held W.failed (name.now ++ 10 ∷ []) circuit.now optimize
        parts.now.extra w.old result w.new }
{
    tell_circuit(circuit, optimize, &parts.needed, &parts.extra);
    write_text(w, name)?;
    write_circuit(w, circuit, optimize, &parts.needed, &parts.extra)
}

/// Writes the clauses of which BASE is a proof, behind the title.
fn write_base<W: Sink>(
    w: &mut W,
    title: &Title,
    circuit: &CircuitView<'_>,
    optimize: bool,
    parts: &ClauseParts,
) -> Result<(), StreamFault>
    requires { AreWrittenFrom circuit.now optimize parts.now }
    ensures { WritesBase W.held W.failed title.now circuit.now optimize parts.now.extra w.old
        result w.new }
{
    tell_circuit(circuit, optimize, &parts.needed, &parts.extra);
    write_title(w, title)?;
    write_part(w, b"c base", circuit, optimize, parts)
}

/// Writes the text of the clauses that the proofs of a certificate are of.
fn write_obligations<W: Sink>(
    w: &mut W,
    title: &Title,
    asked: &Obligations,
    optimize: bool,
) -> Result<(), StreamFault>
    requires circuit { IsCircuit (lists_circuit asked.now.stepped) }
    requires base { AreWrittenFrom asked.now.joint.unrolled optimize asked.now.base }
    requires step { AreWrittenFrom (lists_circuit asked.now.stepped) optimize asked.now.step }
    ensures { WritesBoth W.held W.failed title.now asked.now optimize w.old result w.new }
{
    let joint = asked.joint.unrolled();
    let stepped = CircuitView::new(&asked.stepped);
    tell_circuit(&stepped, optimize, &asked.step.needed, &asked.step.extra);
    write_base(w, title, &joint, optimize, &asked.base)?;
    write_part(w, b"c step", &stepped, optimize, &asked.step)
}

// ---- commands

/// The error of a certificate.
fn certified_error(own: FileSubject, fault: GoalFault) -> CheckError
    ensures { result ≡ certified_error own fault }
{
    CheckError::Goal(GoalError {
        subject: Subject::Certified(own),
        goal: Goal::SafeBySteps(0, Window::Plain),
        fault,
    })
}

/// Prints the clauses of a joint circuit behind their title, which has these sums, if there is room for them.
fn print_joint<W: Sink>(
    alloc: Global,
    limit: usize,
    own: FileSubject,
    optimize: bool,
    joint: CircuitLists,
    sum: [u8; 32],
    beside: [u8; 32],
    w: &mut W,
) -> Result<(), CheckError>
    requires limit { IsLimit limit }
    requires circuit { IsCircuit (lists_circuit joint) }
    ensures { Printed W.held W.failed
        (AnswersJoint limit own optimize (lists_circuit joint) sum beside) w.old result w.new }
{
    match ask_joint(alloc, limit, joint, optimize) {
        Ok(asked) => {
            let title = Title {
                topic: Topic::Obligations,
                optimize,
                sum,
                beside: Some(beside),
            };
            after_writing(write_obligations(w, &title, &asked, optimize))
        }
        Err(fault) => Err(certified_error(own, fault)),
    }
}

/// Prints the clauses that the proofs of a certificate of FILE's circuit are of, or of the one that is made of it, behind their title, with
/// the sum of FILE's bytes, or of the made circuit's text, and that of CERT's bytes: after the line `c base` those of which BASE is a proof,
/// and after the line `c step` those of which STEP is one. No list of those of gates is made.
///
/// # Errors
///
/// Only after `Write` something was written.
///
/// - `Goal`: a file is refused, there is no joint circuit or no room for the clauses, as `aig_answers::check_goal` says of a certificate,
///   or memory was refused.
/// - `Write`: the writer failed.
pub fn print_obligations<S: Source + Drop, W: Sink>(
    alloc: Global,
    limit: usize,
    own: FileSubject,
    optimize: bool,
    file: S,
    certificate: S,
    w: &mut W,
) -> Result<(), CheckError>
    requires { IsLimit limit }
    ensures { (rest : S) × (other : S)
        × RunsObligations S.left S.failed W.held W.failed limit own optimize file certificate w.old
        result rest other w.new }
{
    let read = match read_certified(alloc, limit, own, file, certificate) {
        Ok(read) => read,
        Err(error) => return Err(certified_error(own, GoalFault::Subject(error))),
    };
    let (joint, sum, beside) = read;
    print_joint(alloc, limit, own, optimize, joint, sum, beside, w)
}

//! What the commands do with the bytes of a file and of a witness circuit that simulates the circuit of the file that is asked about, and of
//! proofs about both.

ghost use Rattle.std.specs.Prelude.{◌≡◌, ◌≢◌, IfOk, false};
ghost use Rattle.std.specs.Io.KnownBytes.{IsAtEnd};
ghost use Rattle.aig_answers.specs.Answers.{AreWrittenFrom};
ghost use Rattle.aig_circuit.specs.Circuit.{IsCircuit};
ghost use Rattle.aig_circuit.specs.View.{lists_circuit};
ghost use Rattle.aig_command_line.specs.Limits.{IsLimit};
ghost use Rattle.aig_format.specs.Writable.{FitsFormat};
ghost use Rattle.aig_witness_circuit_checks.specs.Simulated.{IsClaim, proofs_of};
ghost use Rattle.aig_subjects.specs.declared.subject.FileSubject.TheVariants.{Own};
ghost use Rattle.aig_check_commands.specs.Printed.{Printed};
ghost use Rattle.aig_check_commands.specs.Printing.{AnswersClaim, WritesTitled};
ghost use Rattle.aig_check_commands.specs.Simulating.{RunsObligation, RunsSimulated};
ghost use Rattle.aig_check_commands.specs.Sums.{IsSum, summed_text};

use crate::checks::printing::{after_writing, tell_circuit};
use crate::error::CheckError;
use crate::file_subjects::write_file;
use crate::lines::sums::text_sum;
use crate::lines::titles::{Summed, Title, Topic, write_title};
use aig_answers::{Goal, Window};
use aig_base::{MemoryError, Sink, Source, StreamFault};
use aig_circuit::CircuitLists;
use aig_command_line::Origin;
use aig_dimacs::write_circuit;
use aig_subjects::FileSubject;
use aig_witness_circuit_checks::{
    Claim, Condition, ConditionError, Obligation, SimulationError, check_simulated, obligation_of,
    read_simulation,
};
use std::alloc::Global;
use std::marker::Brand;

/// Checks that a witness circuit shows, by a proof for each condition of a certificate, that the circuit of a file that is asked about
/// reaches no bad state at any step, and prints what that says of the file.
pub fn print_simulated<R: Source, S: Source, P: Source, W: Sink>(
    alloc: Global,
    limit: usize,
    own: FileSubject,
    optimize: bool,
    file: &mut R,
    witness: &mut S,
    reset: &mut P,
    transition: &mut P,
    property: &mut P,
    base: &mut P,
    step: &mut P,
    w: &mut W,
) -> Result<(), CheckError>
    requires { IsLimit limit }
    ensures { let given = proofs_of reset.old transition.old property.old base.old step.old in
        let used = proofs_of reset.new transition.new property.new base.new step.new in
        RunsSimulated R.left R.failed S.left S.failed P.left P.failed W.held W.failed limit own
        optimize file.old witness.old given w.old result file.new witness.new used w.new }
{
    check_simulated(
        alloc, own, file, witness, limit, optimize, reset, transition, property, base, step,
    )?;
    after_writing(write_file(w, own, Goal::SafeBySteps(0, Window::Plain)))
}

/// Writes the clauses of a condition's question, behind their title. No list of them is made.
fn write_obligation<W: Sink>(
    w: &mut W,
    title: &Title,
    asked: &Obligation,
    optimize: bool,
) -> Result<(), StreamFault>
    requires { AreWrittenFrom asked.now.question.unrolled optimize asked.now.parts }
    ensures { WritesTitled W.held W.failed title.now asked.now.question.unrolled optimize
        asked.now.parts.extra w.old result w.new }
{
    let circuit = asked.question.unrolled();
    tell_circuit(&circuit, optimize, &asked.parts.needed, &asked.parts.extra);
    write_title(w, title)?;
    write_circuit(
        w,
        &circuit,
        optimize,
        &asked.parts.needed,
        &asked.parts.extra,
    )
}

/// The sum for the title: of the bytes that were read, or of the text of a circuit that was made of them.
fn model_sum<R: Source + Drop, A: Origin>(
    alloc: Global,
    own: FileSubject,
    model: &CircuitLists,
    source: Summed<R, A>,
) -> Result<[u8; 32], MemoryError>
    requires circuit { IsCircuit (lists_circuit model.now) }
    requires small { own ≢ Own → FitsFormat (lists_circuit model.now) }
    ensures { IfOk result (λ sum. ⟦<Summed<R, A> as Source>⟧.failed source ≡ false
        → IsAtEnd (⟦<Summed<R, A> as Source>⟧.left source)
        → IsSum (summed_text own A.bytes (lists_circuit model.now)) sum) }
{
    match own {
        FileSubject::Own => Ok(source.finish()),
        _ => text_sum(alloc, model),
    }
}

/// Prints the clauses for a condition of a claim behind their title, which has these sums.
fn print_claim<W: Sink>(
    alloc: Global,
    limit: usize,
    claim: &Claim,
    condition: Condition,
    optimize: bool,
    sum: [u8; 32],
    beside: [u8; 32],
    w: &mut W,
) -> Result<(), CheckError>
    requires limit { IsLimit limit }
    requires claim { IsClaim claim.now }
    ensures { Printed W.held W.failed (AnswersClaim limit condition optimize claim.now sum beside)
        w.old result w.new }
{
    match obligation_of(alloc, claim, limit, optimize, condition) {
        Ok(asked) => {
            let title = Title {
                topic: Topic::Obligation(condition),
                optimize,
                sum,
                beside: Some(beside),
            };
            after_writing(write_obligation(w, &title, &asked, optimize))
        }
        Err(error) => {
            let error = SimulationError::Condition(condition, ConditionError::Question(error));
            Err(CheckError::Simulation(error))
        }
    }
}

/// Prints the clauses for a condition of the files whose bytes are the origins.
fn print_obligation_of<R: Source + Drop, S: Source + Drop, A: Origin, B: Origin, W: Sink>(
    alloc: Global,
    limit: usize,
    own: FileSubject,
    condition: Condition,
    optimize: bool,
    file: R,
    witness: S,
    w: &mut W,
) -> Result<(), CheckError>
    requires origin { R.left file ≡ A.bytes }
    requires beside { S.left witness ≡ B.bytes }
    requires limit { IsLimit limit }
    ensures { (rest : R) × (other : S)
        × RunsObligation R.left R.failed S.left S.failed W.held W.failed limit own condition
        optimize file witness w.old result rest other w.new }
{
    let mut first = Summed::<R, A>::new(file);
    let mut second = Summed::<S, B>::new(witness);
    let claim = read_simulation(alloc, own, &mut first, &mut second, limit)?;
    match model_sum(alloc, own, &claim.model, first) {
        Ok(sum) => {
            let beside = second.finish();
            print_claim(alloc, limit, &claim, condition, optimize, sum, beside, w)
        }
        Err(error) => Err(CheckError::Simulation(SimulationError::from(error))),
    }
}

/// Prints the clauses that the proof of `print_simulated` for a condition is of, behind their title, with the sum of FILE's bytes, or of the
/// text of the circuit that is made of it, and that of the witness circuit's bytes.
pub fn print_obligation<R: Source + Drop, S: Source + Drop, W: Sink>(
    alloc: Global,
    limit: usize,
    own: FileSubject,
    condition: Condition,
    optimize: bool,
    file: R,
    witness: S,
    w: &mut W,
) -> Result<(), CheckError>
    requires { IsLimit limit }
    ensures { (rest : R) × (other : S)
        × RunsObligation R.left R.failed S.left S.failed W.held W.failed limit own condition
        optimize file witness w.old result rest other w.new }
{
    print_obligation_of::<R, S, Brand, Brand, W>(
        alloc, limit, own, condition, optimize, file, witness, w,
    )
}

//! Printing the clauses of a question of a circuit: of FILE's own, or of one that is made of it.

ghost use Rattle.std.specs.Prelude.{◌≡◌, ◌<◌, ◌≤◌, ◌^◌, ◌++◌, length, ℕ};
ghost use Rattle.aig_answers.specs.Answers.{AreWrittenFrom, IsUnrolledWindow, window_size};
ghost use Rattle.aig_answers.specs.Goals.{goal_of, last_step};
ghost use Rattle.aig_answers.specs.Plans.{CanBeAsked, HasRoom, asked_with};
ghost use Rattle.aig_answers.specs.declared.plans.asking.Ask.TheVariants as asks;
ghost use Rattle.aig_circuit.specs.Circuit.{Circuit, IsCircuit};
ghost use Rattle.aig_circuit.specs.View.{lists_circuit};
ghost use Rattle.aig_command_line.specs.Limits.{IsLimit};
ghost use Rattle.aig_runs.specs.declared.window.Window.{Window};
ghost use Rattle.aig_subjects.specs.Subjects.{IsReady};
ghost use Rattle.aig_unroll.specs.Places.{unrolled_size};
ghost use Rattle.aig_check_commands.specs.Comments.{comments_of};
ghost use Rattle.aig_check_commands.specs.Printed.{Printed};
ghost use Rattle.aig_check_commands.specs.Printing.{IsTextOf, IsTextOfQuestion, WritesBehind, WritesFree, clauses_error};
ghost use Rattle.aig_check_commands.specs.Questions.{AnswersQuestion, IsQuestionText, RunsQuestion, question_error};
ghost use Rattle.aig_check_commands.specs.Titles.{title_text};
ghost use Rattle.aig_check_commands.specs.Titling.{title_of};

use crate::checks::bounded::write_bounded;
use crate::checks::printing::{after_writing, tell_circuit, tell_circuit_with, tell_formula};
use crate::error::CheckError;
use crate::lines::comments::write_comments;
use crate::lines::sums::read_summed;
use crate::lines::titles::{Title, Topic, write_title};
use aig_answers::{
    Ask, ClauseParts, Goal, GoalError, GoalFault, PlanError, Question, Refused, UnrolledWindow,
    Why, Window, asked_with, check_room, first_question, plans_have_room, query_parts,
    unroll_window,
};
use aig_base::{Sink, Source, StreamFault};
use aig_bounded::BoundedError;
use aig_circuit::{CircuitLists, CircuitView};
use aig_dimacs::{write_circuit, write_circuit_with};
use aig_runs::Unrolled;
use aig_subjects::{FileSubject, Subject};
use aig_witness::Places;
use std::alloc::Global;

/// The title of a question of a circuit whose text has this sum.
fn title_of(question: Question, sum: [u8; 32]) -> Title
    ensures { result ≡ title_of question sum }
{
    Title {
        topic: Topic::Asked(question.ask),
        optimize: question.optimize,
        sum,
        beside: None,
    }
}

// ---- steps

/// Writes a query: its title, comments that say which literals stand for what, and then its clauses.
fn write_query<'a, W: Sink>(
    w: &mut W,
    title: &Title,
    asked: &'a Unrolled,
    places: &Places<'_, CircuitView<'a>>,
    optimize: bool,
    parts: &ClauseParts,
) -> Result<(), StreamFault>
    requires places { places.now ≡ asked.now.circuit }
    requires small { asked.now.steps < 2 ^ 32 }
    requires written { AreWrittenFrom asked.now.unrolled optimize parts.now }
    ensures { let front = title_text title.now
        ++ comments_of asked.now.circuit asked.now.unrolled asked.now.steps in
        WritesBehind W.held W.failed front asked.now.unrolled optimize parts.now.extra w.old result
        w.new }
{
    let unrolled = asked.unrolled();
    tell_circuit(&unrolled, optimize, &parts.needed, &parts.extra);
    write_title(w, title)?;
    write_comments(w, asked, places)?;
    write_circuit(w, &unrolled, optimize, &parts.needed, &parts.extra)
}

/// Prints the query of a circuit with its further steps. The clauses are written from the circuit, and no list of them is made.
fn print_query<W: Sink>(
    alloc: Global,
    asked: &Unrolled,
    optimize: bool,
    sum: [u8; 32],
    w: &mut W,
) -> Result<(), CheckError>
    requires few { length asked.now.unrolled.nodes ≤ 2 ^ 31 }
    requires small { asked.now.steps < 2 ^ 32 }
    ensures { let q = asked_with optimize (asks.Step asked.now.steps) in
        Printed W.held W.failed (IsTextOf (IsQuestionText q asked.now.circuit sum)) w.old result
        w.new }
{
    let circuit = asked.circuit();
    let places = Places::new(alloc, &circuit)?;
    let parts = query_parts(alloc, asked, optimize)?;
    let title = title_of(asked_with(optimize, Ask::Step(asked.steps())), sum);
    after_writing(write_query(w, &title, asked, &places, optimize, &parts))
}

/// Prints the clauses that ask for a bad state at step `k`.
fn print_step<W: Sink>(
    alloc: Global,
    circuit: CircuitLists,
    k: usize,
    optimize: bool,
    sum: [u8; 32],
    w: &mut W,
) -> Result<(), CheckError>
    requires circuit { IsCircuit (lists_circuit circuit) }
    requires room { unrolled_size (lists_circuit circuit) k ≤ 2 ^ 31 }
    requires small { k < 2 ^ 32 }
    ensures { let q = asked_with optimize (asks.Step k) in
        Printed W.held W.failed (IsTextOf (IsQuestionText q (lists_circuit circuit) sum)) w.old
        result w.new }
{
    let asked = Unrolled::new(circuit, k)?;
    print_query(alloc, &asked, optimize, sum, w)
}

// ---- the first steps

/// The error of a question of FILE's circuit.
fn question_error(subject: FileSubject, question: Question, error: PlanError) -> CheckError
    ensures { result ≡ question_error subject question error }
{
    CheckError::Goal(GoalError {
        subject: Subject::File(subject),
        goal: Goal::of(question.ask),
        fault: GoalFault::Plan(error),
    })
}

/// The error of a question that has no clauses.
fn clauses_error(subject: FileSubject, question: Question, error: BoundedError) -> CheckError
    ensures { result ≡ clauses_error subject question error }
{
    let why = Why::Clauses(error);
    question_error(
        subject,
        question,
        PlanError::Refused(Refused { index: 0, why }),
    )
}

/// Prints the clauses that ask for a bad state at the steps 0 to `k`.
fn print_first<W: Sink>(
    alloc: Global,
    limit: usize,
    subject: FileSubject,
    circuit: &CircuitView<'_>,
    k: usize,
    optimize: bool,
    sum: [u8; 32],
    w: &mut W,
) -> Result<(), CheckError>
    requires asked { CanBeAsked limit (asks.UpTo k) circuit.now }
    requires few { limit ≤ 2 ^ 31 }
    ensures { let q = asked_with optimize (asks.UpTo k) in
        Printed W.held W.failed (IsTextOfQuestion limit subject q circuit.now sum) w.old result
        w.new }
{
    let question = asked_with(optimize, Ask::UpTo(k));
    match first_question(alloc, circuit, limit, k, optimize) {
        Ok(made) => {
            tell_formula(&made.clauses, &made.extra);
            after_writing(write_bounded(w, &title_of(question, sum), &made))
        }
        Err(error) => Err(clauses_error(subject, question, error)),
    }
}

// ---- windows

/// Writes the clauses of a window behind their title. They are written from the circuit, and no list of those of gates is made.
fn write_window<W: Sink>(
    w: &mut W,
    title: &Title,
    window: &UnrolledWindow,
    optimize: bool,
) -> Result<(), StreamFault>
    requires { (form : Window) × (c : Circuit) × (k : ℕ)
        × IsUnrolledWindow form c k optimize window.now }
    ensures { WritesFree W.held W.failed title.now (lists_circuit window.now.unrolled)
        window.now.free optimize window.now.extra w.old result w.new }
{
    let unrolled = CircuitView::new(&window.unrolled);
    let (free, needed, extra) = (window.free, &window.needed, &window.extra);
    tell_circuit_with(&unrolled, free, optimize, needed, extra);
    write_title(w, title)?;
    write_circuit_with(w, &unrolled, free, optimize, needed, extra)
}

/// Prints the clauses that ask for a window of `k + 2` steps with a bad state first at its end.
fn print_window<W: Sink>(
    alloc: Global,
    circuit: CircuitLists,
    k: usize,
    form: Window,
    optimize: bool,
    sum: [u8; 32],
    w: &mut W,
) -> Result<(), CheckError>
    requires circuit { IsCircuit (lists_circuit circuit) }
    requires room { window_size form (lists_circuit circuit) k ≤ 2 ^ 31 }
    requires small { k < 2 ^ 32 }
    ensures { let q = asked_with optimize (asks.Window k form) in
        Printed W.held W.failed (IsTextOf (IsQuestionText q (lists_circuit circuit) sum)) w.old
        result w.new }
{
    let window = unroll_window(alloc, circuit, k, optimize, form)?;
    let title = title_of(asked_with(optimize, Ask::Window(k, form)), sum);
    after_writing(write_window(w, &title, &window, optimize))
}

// ---- questions

/// Prints the clauses of a question of a circuit that has room for it.
fn print_clauses<W: Sink>(
    alloc: Global,
    limit: usize,
    subject: FileSubject,
    circuit: CircuitLists,
    question: Question,
    sum: [u8; 32],
    w: &mut W,
) -> Result<(), CheckError>
    requires circuit { IsCircuit (lists_circuit circuit) }
    requires few { limit ≤ 2 ^ 31 }
    requires asked { CanBeAsked limit question.ask (lists_circuit circuit) }
    requires room { HasRoom limit question.ask (lists_circuit circuit) }
    requires small { last_step (goal_of question.ask) < 2 ^ 32 }
    ensures { Printed W.held W.failed
        (IsTextOfQuestion limit subject question (lists_circuit circuit) sum) w.old result w.new }
{
    let optimize = question.optimize;
    match question.ask {
        Ask::Step(k) => print_step(alloc, circuit, k, optimize, sum, w),
        Ask::UpTo(k) => {
            let view = CircuitView::new(&circuit);
            print_first(alloc, limit, subject, &view, k, optimize, sum, w)
        }
        Ask::Window(k, form) => print_window(alloc, circuit, k, form, optimize, sum, w),
    }
}

/// Prints the clauses of a question of a circuit, if there is room for it.
fn print_asked<W: Sink>(
    alloc: Global,
    limit: usize,
    subject: FileSubject,
    circuit: CircuitLists,
    question: Question,
    sum: [u8; 32],
    w: &mut W,
) -> Result<(), CheckError>
    requires limit { IsLimit limit }
    requires ready { IsReady (lists_circuit circuit) }
    requires small { last_step (goal_of question.ask) < 2 ^ 32 }
    ensures { Printed W.held W.failed
        (AnswersQuestion limit subject question (lists_circuit circuit) sum) w.old result w.new }
{
    plans_have_room();
    match check_room(&CircuitView::new(&circuit), limit, &[question]) {
        Ok(()) => print_clauses(alloc, limit, subject, circuit, question, sum, w),
        Err(error) => Err(question_error(subject, question, error)),
    }
}

/// Prints the clauses of a question of FILE's circuit, or of the one that is made of it, as `write_dimacs` does. No list of those of gates
/// is made, but of the first steps. Before them stand their title, with the sum of FILE's bytes, or of the made circuit's text, and
/// comments: of a step they say which literals stand for the inputs at each step, the latches at step 0, and the bad state properties at
/// the last one, and of the first steps which input or latch each input of the question is, at which step, and its variable. Requires that
/// a step is below 2^32.
///
/// # Errors
///
/// Only after `Write` something was written.
///
/// - `Unmade`: FILE is refused, or nothing is made of it.
/// - `Memory`: memory was refused.
/// - `Goal`: nothing is asked of the circuit, or there is no room for the question, as a check of a proof says.
/// - `Write`: the writer failed.
pub fn print_question<R: Source + Drop, W: Sink>(
    alloc: Global,
    limit: usize,
    subject: FileSubject,
    question: Question,
    r: R,
    w: &mut W,
) -> Result<(), CheckError>
    requires limit { IsLimit limit }
    requires small { last_step (goal_of question.ask) < 2 ^ 32 }
    ensures { (rest : R) × RunsQuestion R.left R.failed W.held W.failed limit subject question r
        w.old result rest w.new }
{
    let (circuit, sum) = read_summed(alloc, limit, subject, r)?;
    print_asked(alloc, limit, subject, circuit, question, sum, w)
}

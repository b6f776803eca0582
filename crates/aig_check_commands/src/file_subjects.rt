//! Which circuit of FILE a command asks about: the words that give it, what is asked of it, and the line about it.

ghost use Rattle.std.specs.Prelude.{◌≡◌, ◌↔◌, ◌<◌, ◌^◌, ◌++◌, ◌∷◌, [], true, ℕ, IfNone, IfSome, List, Option, codes, decimal, map, string_bytes};
ghost use Rattle.aig_answers.specs.Goals.{last_step};
ghost use Rattle.aig_format.specs.Text.{IsNumber};
ghost use Rattle.aig_output.specs.Sinks.{BuffersOrStops, WritesOrStops};
ghost use Rattle.aig_subjects.specs.Subjects.{file_count};
ghost use Rattle.aig_subjects.specs.declared.subject.FileSubject.{FileSubject};
ghost use Rattle.aig_check_commands.specs.FileSubjects.{GiveNumbers, GiveSubject, IsNumberFirst, IsNumbered, compares_files, fair_subject, file_line, is_asked, is_asked_of, is_fair, is_own, never_text, steps_text, subject_of, subject_word, unmet_line};

use crate::command::Command;
use crate::lines::living::{buffer_about, buffer_fair, buffer_line};
use aig_answers::Goal;
use aig_base::{Sink, StreamFault};
use aig_command_line::steps;
use aig_edits::Fairness;
use aig_output::OutputBuffer;
use aig_subjects::{FileSubject, Subject};

/// Whether a word is this one.
pub(crate) fn is_word(word: &String, text: &str) -> bool
    ensures { (result ≡ true) ↔ (string_bytes word.now ≡ text.now) }
{
    word.as_str() == text
}

/// The words after a word, where that is the first.
fn after<'a>(words: &'a [String], name: &str) -> Option<&'a [String]>
    ensures some { IfSome result
        (λ rest. map string_bytes words.now ≡ name.now ∷ map string_bytes rest.now) }
    ensures none { IfNone result ((rest : List (List ℕ))
        → ¬ (map string_bytes words.now ≡ name.now ∷ rest)) }
{
    match words {
        [word, rest @ ..] if is_word(word, name) => Some(rest),
        _ => None,
    }
}

/// The number that the first word gives, and the words after it.
fn first_number(words: &[String]) -> Option<(usize, &[String])>
    ensures some { IfSome result
        (λ p. IsNumberFirst p.0 (map string_bytes words.now) (map string_bytes p.1.now)) }
    ensures none { IfNone result ((k : ℕ) (word : List ℕ) (rest : List (List ℕ))
        → IsNumber k word → ¬ (map string_bytes words.now ≡ word ∷ rest)) }
{
    let (first, rest) = words.split_first()?;
    Some((steps(first.as_str())?, rest))
}

/// The number that comes after a word, if that is the first, and the words after these.
fn numbered<'a>(words: &'a [String], name: &str) -> Option<(Option<usize>, &'a [String])>
    ensures some { IfSome result
        (λ p. IsNumbered name.now p.0 (map string_bytes words.now) (map string_bytes p.1.now)) }
    ensures none { IfNone result ((number : Option ℕ) (rest : List (List ℕ))
        → ¬ IsNumbered name.now number (map string_bytes words.now) rest) }
{
    match after(words, name) {
        Some(words) => {
            let (number, rest) = first_number(words)?;
            Some((Some(number), rest))
        }
        None => Some((None, words)),
    }
}

/// The circuit of a bad literal, whose number comes first, and the words after it.
fn property_first(words: &[String]) -> Option<(FileSubject, &[String])>
    ensures word { IfSome result (λ p. subject_word p.0 ≡ codes "--property") }
    ensures some { IfSome result
        (λ p. GiveNumbers p.0 (map string_bytes words.now) (map string_bytes p.1.now)) }
    ensures none { IfNone result ((own : FileSubject) (rest : List (List ℕ))
        → subject_word own ≡ codes "--property"
        → ¬ GiveNumbers own (map string_bytes words.now) rest) }
{
    let (number, rest) = first_number(words)?;
    Some((FileSubject::Property { number }, rest))
}

/// The circuit of fair runs: the live one, or the one that counts so many rounds.
fn fair_subject(fairness: Fairness, rounds: Option<usize>) -> FileSubject
    ensures { result ≡ fair_subject fairness rounds }
{
    match rounds {
        None => FileSubject::Live { fairness },
        Some(rounds) => FileSubject::Rounds { fairness, rounds },
    }
}

/// The circuit of a justice property, whose number J comes first, and the words after it, and after N of `--rounds N`, if that comes next.
fn justice_first(words: &[String]) -> Option<(FileSubject, &[String])>
    ensures word { IfSome result (λ p. subject_word p.0 ≡ codes "--justice") }
    ensures some { IfSome result
        (λ p. GiveNumbers p.0 (map string_bytes words.now) (map string_bytes p.1.now)) }
    ensures none { IfNone result ((own : FileSubject) (rest : List (List ℕ))
        → subject_word own ≡ codes "--justice"
        → ¬ GiveNumbers own (map string_bytes words.now) rest) }
{
    let (property, rest) = first_number(words)?;
    let (rounds, rest) = numbered(rest, "--rounds")?;
    Some((fair_subject(Fairness::Justice(property), rounds), rest))
}

/// The circuit of runs without end, and the words after N of `--rounds N`, if that comes first, or all.
fn endless_first(words: &[String]) -> Option<(FileSubject, &[String])>
    ensures word { IfSome result (λ p. subject_word p.0 ≡ codes "--endless") }
    ensures some { IfSome result
        (λ p. GiveNumbers p.0 (map string_bytes words.now) (map string_bytes p.1.now)) }
    ensures none { IfNone result ((own : FileSubject) (rest : List (List ℕ))
        → subject_word own ≡ codes "--endless"
        → ¬ GiveNumbers own (map string_bytes words.now) rest) }
{
    let (rounds, rest) = numbered(words, "--rounds")?;
    Some((fair_subject(Fairness::Alone, rounds), rest))
}

/// Which circuit of FILE the first words ask about, and the words after these: FILE's own, if the first word asks for no other. None if no
/// number comes after one of these words that wants one. It takes no memory.
pub(crate) fn subject_first(words: &[String]) -> Option<(FileSubject, &[String])>
    ensures some { IfSome result
        (λ p. GiveSubject p.0 (map string_bytes words.now) (map string_bytes p.1.now)) }
    ensures none { IfNone result ((own : FileSubject) (rest : List (List ℕ))
        → ¬ GiveSubject own (map string_bytes words.now) rest) }
{
    let Some((word, rest)) = words.split_first() else {
        return Some((FileSubject::Own, words));
    };
    if is_word(word, "--property") {
        property_first(rest)
    } else if is_word(word, "--justice") {
        justice_first(rest)
    } else if is_word(word, "--endless") {
        endless_first(rest)
    } else if is_word(word, "--possible") {
        Some((FileSubject::Possible, rest))
    } else if is_word(word, "--outputs") {
        Some((FileSubject::Outputs, rest))
    } else {
        Some((FileSubject::Own, words))
    }
}

/// Whether it is FILE's own circuit.
fn is_own(own: FileSubject) -> bool
    ensures { result ≡ is_own own }
{
    matches!(own, FileSubject::Own)
}

/// Whether it is made for fair runs.
pub(crate) fn is_fair(own: FileSubject) -> bool
    ensures { result ≡ is_fair own }
{
    matches!(own, FileSubject::Live { .. } | FileSubject::Rounds { .. })
}

/// What is asked about, with this circuit of FILE.
pub(crate) fn subject_of(own: FileSubject, subject: Subject) -> Subject
    ensures is { result ≡ subject_of own subject }
    ensures files { file_count result ≡ file_count subject }
{
    match subject {
        Subject::File(_) => Subject::File(own),
        Subject::Certified(_) => Subject::Certified(own),
        _ => subject,
    }
}

/// Whether files are compared, which is asked of FILE's own circuit alone.
fn compares_files(subject: Subject) -> bool
    ensures { result ≡ compares_files subject }
{
    matches!(subject, Subject::Miter(_) | Subject::MiterCertified(_))
}

/// Whether a goal is asked of a subject.
fn is_asked_of(subject: Subject, goal: Goal) -> bool
    ensures { result ≡ is_asked_of subject goal }
{
    match (subject, goal) {
        (Subject::File(FileSubject::Live { .. }), Goal::SafeBySteps(..)) => false,
        (Subject::File(FileSubject::Rounds { .. }), _) => matches!(goal, Goal::Safe(..)),
        (Subject::File(_), _) => true,
        (Subject::Miter(_), Goal::Refuted(_) | Goal::Safe(..)) => true,
        (Subject::Certified(_) | Subject::MiterCertified(_), Goal::SafeBySteps(..)) => true,
        _ => false,
    }
}

/// Whether a command is asked of this circuit of FILE.
pub(crate) fn is_asked(own: FileSubject, command: Command) -> bool
    ensures { result ≡ is_asked own command }
{
    match command {
        Command::Check { subject, goal, .. } => {
            (is_own(own) || !compares_files(subject)) && is_asked_of(subject_of(own, subject), goal)
        }
        Command::File(_) => is_own(own),
        _ => true,
    }
}

/// Buffers what is so at no step.
fn buffer_never<W: Sink>(
    buffer: &mut OutputBuffer,
    w: &mut W,
    own: FileSubject,
) -> Result<(), StreamFault>
    ensures { let text = never_text own in
        BuffersOrStops W.held W.failed buffer.old w.old result text buffer.new w.new }
{
    match own {
        FileSubject::Property { number } => {
            buffer_about(buffer, w, b"b", number, b':', b" no bad state")
        }
        FileSubject::Outputs => buffer.write_bytes(w, b"no output is true"),
        _ => buffer.write_bytes(w, b"no bad state"),
    }
}

/// Buffers at which steps, as proofs of a goal show, and a line feed.
fn buffer_steps<W: Sink>(
    buffer: &mut OutputBuffer,
    w: &mut W,
    goal: Goal,
) -> Result<(), StreamFault>
    ensures { let text = steps_text goal in
        BuffersOrStops W.held W.failed buffer.old w.old result text buffer.new w.new }
{
    match goal {
        Goal::Refuted(k) => buffer_line(buffer, w, b" at step ", k),
        Goal::RefutedTo(k) => buffer_line(buffer, w, b" up to step ", k),
        Goal::Inductive(k, _) => { buffer_line(buffer, w, b" at any step, if none up to step ", k) }
        Goal::Safe(..) | Goal::SafeBySteps(..) => buffer.write_bytes(w, b" at any step\n"),
    }
}

/// Buffers the line about what is so at no step.
fn buffer_safety<W: Sink>(
    buffer: &mut OutputBuffer,
    w: &mut W,
    own: FileSubject,
    goal: Goal,
) -> Result<(), StreamFault>
    ensures { let line = never_text own ++ steps_text goal in
        BuffersOrStops W.held W.failed buffer.old w.old result line buffer.new w.new }
{
    buffer_never(buffer, w, own)?;
    buffer_steps(buffer, w, goal)
}

/// Buffers the line about runs that meet the constraints.
fn buffer_unmet<W: Sink>(
    buffer: &mut OutputBuffer,
    w: &mut W,
    goal: Goal,
) -> Result<(), StreamFault>
    requires { last_step goal < 2 ^ 32 }
    ensures { let line = unmet_line goal in
        BuffersOrStops W.held W.failed buffer.old w.old result line buffer.new w.new }
{
    match goal {
        Goal::Refuted(k) => buffer_about(
            buffer,
            w,
            b"no run of more than ",
            k,
            b' ',
            b"steps meets the constraints\n",
        ),
        Goal::Inductive(k, _) => buffer_about(
            buffer,
            w,
            b"no run meets the constraints, if none of at most ",
            k + 1,
            b' ',
            b"steps does\n",
        ),
        Goal::RefutedTo(_) | Goal::Safe(..) | Goal::SafeBySteps(..) => {
            buffer.write_bytes(w, b"no run meets the constraints\n")
        }
    }
}

/// Buffers what proofs of a goal show of FILE.
fn buffer_file<W: Sink>(
    buffer: &mut OutputBuffer,
    w: &mut W,
    own: FileSubject,
    goal: Goal,
) -> Result<(), StreamFault>
    requires { last_step goal < 2 ^ 32 }
    ensures { let line = file_line own goal in
        BuffersOrStops W.held W.failed buffer.old w.old result line buffer.new w.new }
{
    match own {
        FileSubject::Live { fairness } | FileSubject::Rounds { fairness, .. } => {
            buffer_fair(buffer, w, fairness, goal)
        }
        FileSubject::Possible => buffer_unmet(buffer, w, goal),
        _ => buffer_safety(buffer, w, own, goal),
    }
}

/// Writes what proofs of a goal show of FILE.
pub(crate) fn write_file<W: Sink>(
    w: &mut W,
    own: FileSubject,
    goal: Goal,
) -> Result<(), StreamFault>
    requires { last_step goal < 2 ^ 32 }
    ensures { WritesOrStops W.held W.failed w.old result (file_line own goal) w.new }
{
    let mut buffer = OutputBuffer::new();
    buffer_file(&mut buffer, w, own, goal)?;
    buffer.flush(w)
}

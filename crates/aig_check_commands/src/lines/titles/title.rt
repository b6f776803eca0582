//! Titles, and how they are written.

ghost use Rattle.std.specs.Prelude.{◌≡◌, ◌++◌, ◌∷◌, [], codes, decimal};
ghost use Rattle.hex.specs.Hex.{encode_lower};
ghost use Rattle.aig_output.specs.Sinks.{BuffersOrStops, WritesOrStops};
ghost use Rattle.aig_witness_circuits.specs.Names.{condition_name};
ghost use Rattle.aig_check_commands.specs.Titles.{asked_text, beside_text, form_text, raw_text, title_text, topic_text};

use aig_answers::{Ask, Window};
use aig_base::{Sink, StreamFault};
use aig_output::OutputBuffer;
use aig_witness_circuit_checks::Condition;

/// What clauses ask.
#[derive(Clone, Copy)]
pub enum Topic {
    /// A question of a circuit.
    Asked(Ask),
    /// For what the proofs of a certificate exclude.
    Obligations,
    /// For what breaks a condition of a witness circuit.
    Obligation(Condition),
}

/// The title of clauses.
#[derive(Clone, Copy)]
pub struct Title {
    /// What they ask.
    pub topic: Topic,
    /// Whether exclusive ors and choices have clauses of their own.
    pub optimize: bool,
    /// The SHA-256 sum of the file.
    pub sum: [u8; 32],
    /// That of the file beside it.
    pub beside: Option<[u8; 32]>,
}

/// A sum in hexadecimal.
fn hex_of(sum: &[u8; 32]) -> [u8; 64]
    ensures { result ≡ encode_lower sum.now }
{
    let mut text = [0; 64];
    let _ = hex::encode_to_slice(sum.as_slice(), &mut text);
    text
}

/// The word of windows on which no state comes twice.
fn form_word(form: Window) -> &'static [u8]
    ensures { result.now ≡ form_text form }
{
    match form {
        Window::Plain => b"",
        Window::Distinct => b"distinct ",
    }
}

/// The word of clauses without those of exclusive ors and choices.
fn raw_word(optimize: bool) -> &'static [u8]
    ensures { result.now ≡ raw_text optimize }
{
    if optimize { b"" } else { b"raw " }
}

/// Buffers a word, a number and the word of a form.
fn buffer_numbered<W: Sink>(
    buffer: &mut OutputBuffer,
    w: &mut W,
    name: &[u8],
    k: usize,
    form: Window,
) -> Result<(), StreamFault>
    ensures { let text = name.now ++ (decimal k ++ 32 ∷ []) ++ form_text form in
        BuffersOrStops W.held W.failed buffer.old w.old result text buffer.new w.new }
{
    buffer.write_bytes(w, name)?;
    buffer.write_number(w, k, b' ')?;
    buffer.write_bytes(w, form_word(form))
}

/// Buffers the words of a question for what breaks a condition.
fn buffer_condition<W: Sink>(
    buffer: &mut OutputBuffer,
    w: &mut W,
    condition: Condition,
) -> Result<(), StreamFault>
    ensures { let text = codes "obligations " ++ condition_name condition ++ 32 ∷ [] in
        BuffersOrStops W.held W.failed buffer.old w.old result text buffer.new w.new }
{
    buffer.write_bytes(w, b"obligations ")?;
    buffer.write_bytes(w, condition.name().as_bytes())?;
    buffer.write_bytes(w, b" ")
}

/// Buffers the words of a question of a circuit.
fn buffer_asked<W: Sink>(buffer: &mut OutputBuffer, w: &mut W, ask: Ask) -> Result<(), StreamFault>
    ensures { let text = asked_text ask in
        BuffersOrStops W.held W.failed buffer.old w.old result text buffer.new w.new }
{
    match ask {
        Ask::Step(k) => buffer_numbered(buffer, w, b"clauses ", k, Window::Plain),
        Ask::UpTo(k) => buffer_numbered(buffer, w, b"bounded ", k, Window::Plain),
        Ask::Window(k, form) => buffer_numbered(buffer, w, b"window ", k, form),
    }
}

/// Buffers the words that say what clauses ask.
fn buffer_topic<W: Sink>(
    buffer: &mut OutputBuffer,
    w: &mut W,
    topic: Topic,
) -> Result<(), StreamFault>
    ensures { let text = topic_text topic in
        BuffersOrStops W.held W.failed buffer.old w.old result text buffer.new w.new }
{
    match topic {
        Topic::Asked(ask) => buffer_asked(buffer, w, ask),
        Topic::Obligations => buffer.write_bytes(w, b"obligations "),
        Topic::Obligation(condition) => buffer_condition(buffer, w, condition),
    }
}

/// Buffers the sum of a file beside another.
fn buffer_beside<W: Sink>(
    buffer: &mut OutputBuffer,
    w: &mut W,
    beside: Option<[u8; 32]>,
) -> Result<(), StreamFault>
    ensures { let text = beside_text beside in
        BuffersOrStops W.held W.failed buffer.old w.old result text buffer.new w.new }
{
    match beside {
        Some(sum) => {
            buffer.write_bytes(w, b" ")?;
            buffer.write_bytes(w, &hex_of(&sum))
        }
        None => buffer.write_bytes(w, b""),
    }
}

/// Buffers a title.
fn buffer_title<W: Sink>(
    buffer: &mut OutputBuffer,
    w: &mut W,
    title: &Title,
) -> Result<(), StreamFault>
    ensures { let text = title_text title.now in
        BuffersOrStops W.held W.failed buffer.old w.old result text buffer.new w.new }
{
    buffer.write_bytes(w, b"c aigcheck ")?;
    buffer_topic(buffer, w, title.topic)?;
    buffer.write_bytes(w, raw_word(title.optimize))?;
    buffer.write_bytes(w, b"sha256 ")?;
    buffer.write_bytes(w, &hex_of(&title.sum))?;
    buffer_beside(buffer, w, title.beside)?;
    buffer.write_bytes(w, b"\n")
}

/// Writes the title of clauses: a comment line that says what they ask, in which setting, and the sums of the files that they are of, in
/// hexadecimal.
pub fn write_title<W: Sink>(w: &mut W, title: &Title) -> Result<(), StreamFault>
    ensures { let text = title_text title.now in
        WritesOrStops W.held W.failed w.old result text w.new }
{
    let mut buffer = OutputBuffer::new();
    buffer_title(&mut buffer, w, title)?;
    buffer.flush(w)
}

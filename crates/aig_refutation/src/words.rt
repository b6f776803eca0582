//! Words of a proof's text.
//!
//! A line has numbers and the letter `d`, with blanks around them: spaces, tabs and carriage
//! returns. It ends with a line feed, and the last one may end with the stream. Lines that are
//! blank, or begin with `c` or `p`, are passed over.

ghost use Rattle.std.specs.Prelude.{◌≡◌, ◌+◌, ◌<◌, ◌≤◌, ◌^◌, ◌++◌, ◌∷◌, [], ℕ, List, None, Some, IfOk, IfSome, IsErrOf, IsTrue, OnOk, drop, length, true};
ghost use Rattle.aig_lexer.specs.Takes.{feed};
ghost use Rattle.aig_refutation.specs.Skipping.{AreNext, EndsLine, IsNear, SkipsBlanks, TakesNumbers, end_line};
ghost use Rattle.aig_refutation.specs.Text.{fault, number_in, signed, word_in};
ghost use Rattle.aig_refutation.specs.Tokens.{IsReadBy, ClosesAt, GivesValue, GivesFirst, GivesWord, IsAfter, IsClosed, IsWord, end_after, fault_of, is_last, next_in, next_number, place, rest, said_number};

use crate::error::RefutationError;
use crate::list::push;
use aig_base::{MemoryError, Source};
use aig_lexer::{InputBuffer, LexError, Signed, digits_from, signed_in};
use std::marker::Model;

/// A number, which may have a minus in front.
#[derive(Clone, Copy)]
pub(crate) struct Number {
    /// Its value without the minus.
    pub(crate) value: u32,
    /// Whether it has none.
    pub(crate) positive: bool,
}

/// How a line ends.
#[derive(Clone, Copy)]
pub(crate) enum End {
    /// With a line feed.
    Line,
    /// With the stream.
    Stream,
}

/// What stands next in a line.
#[derive(Clone, Copy)]
pub(crate) enum Word {
    /// A number.
    Number(Number),
    /// The letter `d`.
    Deletes,
    /// Nothing more.
    End(End),
}

impl End {
    /// Why a line is no step that ends where a further word is needed.
    pub(crate) fn fault(self) -> RefutationError
        ensures { result ≡ fault_of self }
    {
        match self {
            End::Line => RefutationError::Line,
            End::Stream => RefutationError::Unfinished,
        }
    }
}

/// Why a byte is refused that stands where no step has it.
fn fault(byte: u8) -> RefutationError
    ensures { result ≡ fault byte }
{
    match byte {
        0..=8 | 14..=31 | 127..=255 => RefutationError::Binary,
        _ => RefutationError::Line,
    }
}

/// The next byte that isn't blank, if there is one.
#[inline(always)]
fn skip_blanks<R: Source>(
    buffer: &mut InputBuffer,
    r: &mut R,
) -> Result<Option<u8>, RefutationError>
    ensures stream { IsErrOf result RefutationError.Stream → R.failed r.new ≡ true }
    ensures fewer { IfOk result (λ byte. IfSome byte (λ _.
        (feed R.left R.failed R.pulls buffer.new r.new).most
        < (feed R.left R.failed R.pulls buffer.old r.old).most)) }
    ensures skipped { SkipsBlanks (feed R.left R.failed R.pulls buffer.old r.old)
        (feed R.left R.failed R.pulls buffer.new r.new) result }
{
    loop {
        match buffer.next(r)? {
            Some(b' ' | b'\t' | b'\r') => {}
            byte => return Ok(byte),
        }
    }
}

/// Goes past the line feed of a line, and says whether there is one.
fn skip_line<R: Source>(buffer: &mut InputBuffer, r: &mut R) -> Result<bool, RefutationError>
    ensures stream { IsErrOf result RefutationError.Stream → R.failed r.new ≡ true }
    ensures fewer { IfOk result (λ there. IsTrue there
        → (feed R.left R.failed R.pulls buffer.new r.new).most
        < (feed R.left R.failed R.pulls buffer.old r.old).most) }
    ensures skipped { EndsLine (feed R.left R.failed R.pulls buffer.old r.old)
        (feed R.left R.failed R.pulls buffer.new r.new) result }
{
    while let Some(byte) = buffer.next(r)? {
        if byte == b'\n' {
            return Ok(true);
        }
    }
    Ok(false)
}

/// Appends the numbers at the front of `bytes`, each of which has no minus, isn't 0 and ends with a space
/// that lies near, and returns how many bytes they take.
#[inline(never)]
fn push_numbers(bytes: &[u8], numbers: &mut Vec<u32>) -> Result<usize, MemoryError>
    ensures within { IfOk result (λ n. n ≤ length bytes.now) }
    ensures numbers { IfOk result (λ n. (taken : List ℕ)
        × (numbers.new.items ≡ numbers.old.items ++ taken)
        × AreNext bytes.now taken (drop n bytes.now)) }
{
    let mut at = 0;
    while let Some(found) = signed_in(&bytes[at..]) {
        if !found.positive || found.value == 0 || found.end != b' ' {
            break;
        }
        push(numbers, found.value)?;
        at += found.count;
    }
    Ok(at)
}

/// The text of a proof, from which words are taken.
pub(crate) struct Words {
    /// The bytes that are held.
    pub(crate) buffer: InputBuffer,
    /// How the line ended whose words were taken, if it did.
    end: Option<End>,
}

impl Drop for Words {
    fn drop(self) {
        let Words { buffer: _, end: _ } = self;
    }
}

impl Model for Words {
    ghost use Rattle.aig_refutation.specs.Tokens.{Text};

    ghost Value = { Text };

    ghost view = { λ w. record { held = w.buffer; end = w.end } };
}

impl Words {
    /// A text of which nothing is held, and none was taken.
    pub(crate) fn new() -> Words
        ensures { result ≡ record { held = []; end = None } }
    {
        Words {
            buffer: InputBuffer::new(),
            end: None,
        }
    }

    /// Ends a word at the byte after it, or at the end of the stream.
    #[inline(always)]
    fn end_word(&mut self, byte: Option<u8>) -> Result<(), RefutationError>
        ensures same { self.new.held ≡ self.old.held }
        ensures ended { IsReadBy (λ done. self.new.end) (end_after self.old.end byte) result }
        ensures no_stream { IsErrOf result RefutationError.Stream → ⊥ }
    {
        match byte {
            Some(b' ' | b'\t' | b'\r') => {}
            Some(b'\n') => self.end = Some(End::Line),
            Some(byte) => return Err(fault(byte)),
            None => self.end = Some(End::Stream),
        }
        Ok(())
    }

    /// The number that begins with this byte, or after it.
    #[inline(always)]
    fn read_number<R: Source>(
        &mut self,
        r: &mut R,
        digit: u8,
        positive: bool,
    ) -> Result<Word, RefutationError>
        ensures stream { IsErrOf result RefutationError.Stream → R.failed r.new ≡ true }
        ensures fewer { OnOk result (rest R.pulls self.new r.new
            ≤ (feed R.left R.failed R.pulls self.old.held r.old).most + 1) }
        ensures number { self.old.end ≡ None
            → GivesWord (λ bytes. signed positive (number_in (digit ∷ bytes)))
            (feed R.left R.failed R.pulls self.old.held r.old)
            (feed R.left R.failed R.pulls self.new.held r.new) self.new.end result }
        ensures some { IfOk result IsWord }
    {
        if !digit.is_ascii_digit() {
            return Err(fault(digit));
        }
        let (value, end) = match digits_from(&mut self.buffer, r, (digit - b'0') as u64) {
            Ok(number) => number,
            Err(LexError::Stream) => return Err(RefutationError::Stream),
            Err(LexError::Shape) => return Err(RefutationError::Line),
        };
        self.end_word(end)?;
        Ok(Word::Number(Number { value, positive }))
    }

    /// The word that begins with this byte.
    #[inline(always)]
    fn read_word<R: Source>(&mut self, r: &mut R, first: u8) -> Result<Word, RefutationError>
        ensures stream { IsErrOf result RefutationError.Stream → R.failed r.new ≡ true }
        ensures fewer { OnOk result (rest R.pulls self.new r.new
            ≤ (feed R.left R.failed R.pulls self.old.held r.old).most + 1) }
        ensures word { self.old.end ≡ None → GivesWord (λ bytes. word_in (first ∷ bytes))
            (feed R.left R.failed R.pulls self.old.held r.old)
            (feed R.left R.failed R.pulls self.new.held r.new) self.new.end result }
        ensures some { IfOk result IsWord }
    {
        if first == b'd' {
            let end = self.buffer.next(r)?;
            self.end_word(end)?;
            return Ok(Word::Deletes);
        }
        if first != b'-' {
            return self.read_number(r, first, true);
        }
        match self.buffer.next(r)? {
            Some(digit) => self.read_number(r, digit, false),
            None => Err(RefutationError::Unfinished),
        }
    }

    /// Ends the line.
    fn end_line(&mut self, end: End) -> Word
        ensures same { self.new.held ≡ self.old.held }
        ensures ended { self.new.end ≡ Some end }
        ensures word { result ≡ Word.End end }
    {
        self.end = Some(end);
        Word::End(end)
    }

    /// The next word of the line, byte by byte.
    #[inline(never)]
    fn next_by_bytes<R: Source>(&mut self, r: &mut R) -> Result<Word, RefutationError>
        ensures stream { IsErrOf result RefutationError.Stream → R.failed r.new ≡ true }
        ensures fewer { IfOk result (λ word.
            IsAfter (rest R.pulls self.old r.old) word (rest R.pulls self.new r.new)) }
        ensures word { GivesValue (λ word. word) next_in
            (place R.left R.failed R.pulls self.old r.old)
            (place R.left R.failed R.pulls self.new r.new) result }
        ensures closed { IfOk result (λ word. ClosesAt word self.new.end) }
    {
        if let Some(end) = self.end {
            return Ok(Word::End(end));
        }
        match skip_blanks(&mut self.buffer, r)? {
            Some(b'\n') => Ok(self.end_line(End::Line)),
            Some(byte) => self.read_word(r, byte),
            None => Ok(self.end_line(End::Stream)),
        }
    }

    /// The number that is next in a line that goes on, where it lies among the bytes that are held.
    #[inline(always)]
    fn near_number(&self) -> Option<Signed>
        ensures { IfSome result (IsNear self.now) }
    {
        match self.end {
            None => signed_in(self.buffer.window()),
            Some(_) => None,
        }
    }

    /// The next word of the line.
    #[inline(always)]
    pub(crate) fn next<R: Source>(&mut self, r: &mut R) -> Result<Word, RefutationError>
        ensures stream { IsErrOf result RefutationError.Stream → R.failed r.new ≡ true }
        ensures fewer { IfOk result (λ word.
            IsAfter (rest R.pulls self.old r.old) word (rest R.pulls self.new r.new)) }
        ensures word { GivesValue (λ word. word) next_in
            (place R.left R.failed R.pulls self.old r.old)
            (place R.left R.failed R.pulls self.new r.new) result }
        ensures closed { IfOk result (λ word. ClosesAt word self.new.end) }
    {
        let Some(found) = self.near_number() else {
            return self.next_by_bytes(r);
        };
        self.buffer.consume(found.count);
        self.end_word(Some(found.end))?;
        Ok(Word::Number(Number {
            value: found.value,
            positive: found.positive,
        }))
    }

    /// The next word of the line, which is a number, wherever it lies.
    fn far_number<R: Source>(&mut self, r: &mut R) -> Result<Number, RefutationError>
        ensures stream { IsErrOf result RefutationError.Stream → R.failed r.new ≡ true }
        ensures fewer { OnOk result (rest R.pulls self.new r.new < rest R.pulls self.old r.old) }
        ensures number { GivesValue said_number next_number
            (place R.left R.failed R.pulls self.old r.old)
            (place R.left R.failed R.pulls self.new r.new) result }
    {
        match self.next(r)? {
            Word::Number(number) => Ok(number),
            Word::Deletes => Err(RefutationError::Line),
            Word::End(end) => Err(end.fault()),
        }
    }

    /// The next word of the line, which is a number.
    #[inline(always)]
    pub(crate) fn number<R: Source>(&mut self, r: &mut R) -> Result<Number, RefutationError>
        ensures stream { IsErrOf result RefutationError.Stream → R.failed r.new ≡ true }
        ensures fewer { OnOk result (rest R.pulls self.new r.new < rest R.pulls self.old r.old) }
        ensures number { GivesValue said_number next_number
            (place R.left R.failed R.pulls self.old r.old)
            (place R.left R.failed R.pulls self.new r.new) result }
    {
        if let Some(found) = self.near_number()
            && found.end == b' '
        {
            self.buffer.consume(found.count);
            return Ok(Number {
                value: found.value,
                positive: found.positive,
            });
        }
        // Not its last call: a value that comes out of either of two ways would lie in memory.
        let number = self.far_number(r)?;
        Ok(number)
    }

    /// Appends the numbers that come next in the line, each of which has no minus, isn't 0 and lies, with
    /// a space behind it, among the bytes that are held. It stops before any other word.
    pub(crate) fn near_numbers(&mut self, numbers: &mut Vec<u32>) -> Result<(), MemoryError>
        ensures { OnOk result ((taken : List ℕ)
            × (numbers.new.items ≡ numbers.old.items ++ taken)
            × TakesNumbers self.old self.new taken) }
    {
        if self.end.is_none() {
            let count = push_numbers(self.buffer.window(), numbers)?;
            self.buffer.consume(count);
        }
        Ok(())
    }

    /// The end of the line.
    pub(crate) fn finish<R: Source>(&mut self, r: &mut R) -> Result<(), RefutationError>
        ensures stream { IsErrOf result RefutationError.Stream → R.failed r.new ≡ true }
        ensures fewer { OnOk result (rest R.pulls self.new r.new ≤ rest R.pulls self.old r.old) }
        ensures ended { GivesValue (λ end. end) end_line
            (place R.left R.failed R.pulls self.old r.old)
            (place R.left R.failed R.pulls self.new r.new) result }
        ensures closed { OnOk result (IsClosed self.new.end) }
    {
        match self.next(r)? {
            Word::End(_) => Ok(()),
            _ => Err(RefutationError::Line),
        }
    }

    /// The first word of the next line that isn't passed over, if there is one.
    pub(crate) fn first<R: Source>(&mut self, r: &mut R) -> Result<Option<Word>, RefutationError>
        ensures stream { IsErrOf result RefutationError.Stream → R.failed r.new ≡ true }
        ensures fewer { IfOk result (λ word. IfSome word (λ _.
            rest R.pulls self.new r.new < rest R.pulls self.old r.old)) }
        ensures first { GivesFirst (place R.left R.failed R.pulls self.old r.old)
            (place R.left R.failed R.pulls self.new r.new) result }
    {
        if let Some(End::Stream) = self.end {
            return Ok(None);
        }
        self.end = None;
        while let Some(byte) = skip_blanks(&mut self.buffer, r)? {
            match byte {
                b'\n' => {}
                b'c' | b'p' => {
                    if !skip_line(&mut self.buffer, r)? {
                        break;
                    }
                }
                b'a' => return Err(RefutationError::Binary),
                _ => return Ok(Some(self.read_word(r, byte)?)),
            }
        }
        Ok(None)
    }
}

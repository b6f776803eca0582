//! The variables of a file.

ghost use Rattle.std.specs.Prelude.{◌≡◌, ℕ, ◌+◌, ◌/◌, ◌^◌, ◌<◌, ◌≤◌, List, [], ◌∷◌, ◌++◌, IfOk, OnOk, true, vec_len};
ghost use Rattle.aig_format.specs.ParseTested.{defines, may_define};
ghost use Rattle.aig_lexer.specs.Faults.{Tested, line_cause, word_cause};
ghost use Rattle.aig_lexer.specs.Takes.{Gives, feed};
ghost use Rattle.aig_format.specs.declared.FileKind.{FileKind};
ghost use Rattle.aig_ordering.specs.Bits.{bit_is_set};
ghost use Rattle.aig_reader.specs.Variables.{AreDefined, AreMarks, HasNext, IsNext, TellsDefined, is_marked};
ghost use Rattle.aig_format.specs.Parse.{parse_own};

use aig_base::Source;
use aig_lexer::{FileKind, InputBuffer, LexError, LineError, ended};
use aig_ordering::{has_bit, set_bit};
use std::alloc::{AllocError, Global};

/// Which variables of a text file are defined so far. A variable that has no bit is not.
#[derive(Drop)]
pub struct Marks {
    /// The greatest variable of the file.
    pub greatest: u32,
    /// For each variable up to some one a bit, whether it is defined: bit v % 64 of word v / 64.
    pub marked: Vec<u64>,
}

/// The variables of a file that are defined so far.
#[derive(Drop)]
pub enum DefinedVariables {
    /// Those of a text file, where any up to the greatest may be next. There are marks up to the greatest that was defined.
    Text(Marks),
    /// Those of a binary file, where they are defined in order of number from 1 on: how many are.
    Binary(u32),
}

/// Makes room for the bit of this variable.
fn cover(marked: &mut Vec<u64>, variable: usize) -> Result<(), AllocError>
    ensures same { (v : ℕ) → bit_is_set marked.new.items v ≡ bit_is_set marked.old.items v }
    ensures len { OnOk result (variable / 64 < vec_len marked.new) }
    // No word after it is made.
    ensures within { (most : ℕ) → variable / 64 < most → vec_len marked.old ≤ most
        → vec_len marked.new ≤ most }
{
    let word = variable / 64;
    if word >= marked.len() {
        marked.resize(word + 1, 0)?;
    }
    Ok(())
}

impl Marks {
    /// Marks the variable of a literal, which is even, is that of a variable from 1 to the greatest, and is not marked yet.
    fn mark(&mut self, literal: u32) -> Result<usize, LineError>
        ensures exact { (greatest : ℕ) (before : List ℕ) → AreMarks greatest self.old before
            → Tested line_cause (defines greatest before literal)
            (λ id. (id ≡ literal / 2) × AreMarks greatest self.new (before ++ literal ∷ []))
            result }
        // A literal of no variable takes no room: there are words up to that of the greatest one.
        ensures within { vec_len self.old.marked ≤ self.old.greatest / 64 + 1
            → vec_len self.new.marked ≤ self.old.greatest / 64 + 1 }
    {
        let variable = literal as usize / 2;
        if literal % 2 != 0 || variable == 0 || variable > self.greatest as usize {
            return Err(LineError::Literal);
        }
        cover(&mut self.marked, variable)?;
        if has_bit(&self.marked, variable) {
            return Err(LineError::Literal);
        }
        set_bit(&mut self.marked, variable);
        Ok(variable)
    }
}

impl DefinedVariables {
    /// The variables up to a greatest one in a file of this kind. None is defined.
    pub fn new(alloc: Global, kind: FileKind, greatest: u32) -> Self
        ensures { AreDefined kind greatest result [] }
    {
        match kind {
            FileKind::Text => DefinedVariables::Text(Marks {
                greatest,
                marked: Vec::new(alloc),
            }),
            FileKind::Binary => DefinedVariables::Binary(0),
        }
    }

    /// The literal that the next entry defines. In a text file it is read, with this byte after it.
    #[inline(always)]
    pub fn own_literal<R: Source>(
        &self,
        buffer: &mut InputBuffer,
        r: &mut R,
        end: u8,
    ) -> Result<u32, LexError>
        requires { HasNext self.now }
        ensures exact { (kind : FileKind) (greatest : ℕ) (before : List ℕ)
            → AreDefined kind greatest self.now before
            → Gives word_cause (λ e. e)
            (feed R.left R.failed R.pulls buffer.old r.old)
            (feed R.left R.failed R.pulls buffer.new r.new) result (parse_own kind end before) }
        ensures next { IfOk result (λ e. IsNext self.now e) }
    {
        match self {
            DefinedVariables::Text(_) => ended(buffer, r, end),
            DefinedVariables::Binary(count) => Ok(2 * (count + 1)),
        }
    }

    /// Defines the variable of a literal, that of the next entry: it is even, is not that of variable 0, and is not defined yet.
    #[inline(always)]
    pub fn define(&mut self, literal: u32) -> Result<usize, LineError>
        requires { IsNext self.old literal }
        ensures { (kind : FileKind) (greatest : ℕ) (before : List ℕ)
            → AreDefined kind greatest self.old before
            → Tested line_cause (may_define kind greatest before literal)
            (λ id. (id ≡ literal / 2) × AreDefined kind greatest self.new (before ++ literal ∷ []))
            result }
    {
        match self {
            DefinedVariables::Text(marks) => marks.mark(literal),
            DefinedVariables::Binary(count) => {
                *count += 1;
                Ok(literal as usize / 2)
            }
        }
    }

    /// Whether a variable, which is not 0, is defined.
    fn is_defined(&self, variable: usize) -> bool
        ensures { result ≡ is_marked self.now variable }
    {
        match self {
            DefinedVariables::Text(marks) => has_bit(&marks.marked, variable),
            DefinedVariables::Binary(count) => variable <= *count as usize,
        }
    }

    /// Whether each of the variables from one to below another is defined. None of them is 0.
    pub fn are_defined(&self, from: usize, to: usize) -> bool
        ensures { TellsDefined self.now from to result }
    {
        for variable in from..to {
            if !self.is_defined(variable) {
                return false;
            }
        }
        true
    }
}

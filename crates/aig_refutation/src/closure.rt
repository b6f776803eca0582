//! Unit propagation along all clauses.

ghost use Rattle.std.specs.Prelude.{◌≡◌, ◌<◌, ℕ, IsTrue, List, All, false, length};
ghost use Rattle.aig_base.specs.declared.logic.literal.Lit.{Lit};
ghost use Rattle.aig_refutation.specs.Closure.{AreAmong, Entails, Finds, IfNothing, IsClosed, IsImplied, IsSettled, Narrows};
ghost use Rattle.aig_refutation.specs.Propagation.{FitsMarks, is_tautology, marked, reading_if};
ghost use Rattle.aig_refutation.specs.Tables.{clause_in};

use crate::marks::Marks;
use crate::numbered::Numbered;
use crate::propagation::{Reading, assume_false, is_tautology, read_clause};
use aig_base::Lit;

/// What is found along clauses.
#[derive(Clone, Copy)]
pub(crate) enum Found {
    /// All literals of a clause are false.
    Conflict,
    /// Further literals are true.
    More,
    /// Nothing.
    Nothing,
}

/// Makes the literal true that follows along the clause of a number, if there is such a clause and
/// one follows that isn't true.
fn follow(numbered: &Numbered, marks: &mut Marks, number: u32) -> Found
    requires { All (FitsMarks marks.old) numbered.now.clauses }
    ensures length { length marks.new ≡ length marks.old }
    ensures kept { AreAmong (marked marks.old) (marked marks.new) }
    ensures finds { (clause : List Lit) → Entails numbered.now clause (marked marks.old)
        → Finds numbered.now clause (marked marks.new) result }
    ensures narrows { Narrows marks.old marks.new result }
    ensures settled { IfNothing result (IsSettled (marked marks.old)
        (reading_if (marked marks.old) (clause_in numbered.now number))) }
{
    let Some(place) = numbered.place(number) else {
        return Found::Nothing;
    };
    match read_clause(marks, numbered.clauses().clause(place)) {
        Reading::Conflict => Found::Conflict,
        Reading::Implied(lit) if !marks.holds(lit) => {
            marks.add(lit);
            Found::More
        }
        _ => Found::Nothing,
    }
}

/// Makes the literals true that follow along the clauses of these numbers, one after another, and
/// says whether all literals of one of them are false.
fn follow_all(numbered: &Numbered, marks: &mut Marks, numbers: &[u32]) -> bool
    requires { All (FitsMarks marks.old) numbered.now.clauses }
    ensures length { length marks.new ≡ length marks.old }
    ensures kept { AreAmong (marked marks.old) (marked marks.new) }
    ensures conflict { IsTrue result → (clause : List Lit)
        → Entails numbered.now clause (marked marks.old)
        → IsImplied numbered.now clause }
    ensures entails { result ≡ false → (clause : List Lit)
        → Entails numbered.now clause (marked marks.old)
        → Entails numbered.now clause (marked marks.new) }
{
    for number in numbers {
        if let Found::Conflict = follow(numbered, marks, *number) {
            return true;
        }
    }
    false
}

/// The same along the clauses of all numbers below `end`, each once.
fn pass(numbered: &Numbered, marks: &mut Marks, end: u32) -> Found
    requires { All (FitsMarks marks.old) numbered.now.clauses }
    ensures length { length marks.new ≡ length marks.old }
    ensures kept { AreAmong (marked marks.old) (marked marks.new) }
    ensures finds { (clause : List Lit) → Entails numbered.now clause (marked marks.old)
        → Finds numbered.now clause (marked marks.new) result }
    ensures narrows { Narrows marks.old marks.new result }
    ensures settled { IfNothing result ((n : ℕ) → n < end → IsSettled (marked marks.old)
        (reading_if (marked marks.old) (clause_in numbered.now n))) }
{
    let mut found = Found::Nothing;
    for number in 0..end {
        match follow(numbered, marks, number) {
            Found::Conflict => return Found::Conflict,
            Found::More => found = Found::More,
            Found::Nothing => {}
        }
    }
    found
}

/// Whether unit propagation from the inverses of a clause's literals along the clauses of the
/// numbers below `end` ends in a conflict. The clauses of `first` come first. The marks are used,
/// whatever they are.
///
/// It goes over all clauses till nothing more follows. So the cost is that of one pass where the
/// literals that follow do so along `first`.
fn refutes_inverses(
    numbered: &Numbered,
    marks: &mut Marks,
    clause: &[Lit],
    first: &[u32],
    end: u32,
) -> bool
    requires clauses { All (FitsMarks marks.old) numbered.now.clauses }
    requires clause { FitsMarks marks.old clause.now }
    ensures length { length marks.new ≡ length marks.old }
    ensures implied { IsTrue result → IsImplied numbered.now clause.now }
    ensures closed { result ≡ false → IsClosed numbered.now end clause.now }
{
    assume_false(marks, clause);
    if follow_all(numbered, marks, first) {
        return true;
    }
    loop {
        match pass(numbered, marks, end) {
            Found::Conflict => return true,
            Found::More => {}
            Found::Nothing => return false,
        }
    }
}

/// Whether a clause follows: by unit propagation along the clauses of the numbers below `end`, those
/// of `first` first, or from nothing. The marks are used, whatever they are.
pub(crate) fn is_entailed(
    numbered: &Numbered,
    marks: &mut Marks,
    clause: &[Lit],
    first: &[u32],
    end: u32,
) -> bool
    requires clauses { All (FitsMarks marks.old) numbered.now.clauses }
    requires clause { FitsMarks marks.old clause.now }
    ensures length { length marks.new ≡ length marks.old }
    ensures implied { IsTrue result → IsImplied numbered.now clause.now }
    ensures closed { result ≡ false → IsClosed numbered.now end clause.now }
    ensures open { result ≡ false → is_tautology clause.now ≡ false }
{
    refutes_inverses(numbered, marks, clause, first, end) || is_tautology(marks, clause)
}

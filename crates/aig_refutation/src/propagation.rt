//! Unit propagation along hints.

ghost use Rattle.std.specs.Prelude.{◌≡◌, All, length, slice_get};
ghost use Rattle.aig_refutation.specs.Propagation.{FitsMarks, is_rup, is_tautology, marked, reading_of, when_false};

use crate::marks::Marks;
use aig_base::{Lit, LitVvec};

/// What a clause says where some literals are true.
#[derive(Clone, Copy, Debug)]
pub enum Reading {
    /// All its literals are false.
    Conflict,
    /// All its literals but this one are false.
    Implied(Lit),
    /// It has several literals that aren't false.
    Open,
}

/// What a clause says where the marked literals are true, whatever it is.
#[cold]
fn read_any(marks: &Marks, clause: &[Lit]) -> Reading
    requires { FitsMarks marks.now clause.now }
    ensures { result ≡ reading_of (marked marks.now) clause.now }
{
    let mut found = None;
    for lit in clause {
        if !marks.holds(!*lit) {
            match found {
                None => found = Some(*lit),
                Some(other) => {
                    if other != *lit {
                        return Reading::Open;
                    }
                }
            }
        }
    }
    match found {
        None => Reading::Conflict,
        Some(lit) => Reading::Implied(lit),
    }
}

/// What a clause says where the marked literals are true.
// Which literal isn't false can't be foreseen: so none of them has a branch of its own.
#[inline(always)]
pub(crate) fn read_clause(marks: &Marks, clause: &[Lit]) -> Reading
    requires { FitsMarks marks.now clause.now }
    ensures { result ≡ reading_of (marked marks.now) clause.now }
{
    let mut found = Lit::from(0);
    let mut count = 0usize;
    for lit in clause {
        if !marks.holds(!*lit) {
            found = *lit;
            count += 1;
        }
    }
    match count {
        0 => Reading::Conflict,
        1 => Reading::Implied(found),
        _ => read_any(marks, clause),
    }
}

/// Makes the inverses of literals true, and no others.
pub(crate) fn assume_false(marks: &mut Marks, clause: &[Lit])
    requires { FitsMarks marks.old clause.now }
    ensures length { length marks.new ≡ length marks.old }
    ensures assumed { marked marks.new ≡ when_false clause.now }
{
    marks.clear();
    for lit in clause {
        marks.add(!*lit);
    }
}

/// Whether unit propagation along the hinted clauses, from the inverses of a clause's literals,
/// ends in a conflict. A hint is a place among the clauses. The marks are used, whatever they are.
pub fn is_rup(clauses: &LitVvec, marks: &mut Marks, clause: &[Lit], hints: &[usize]) -> bool
    requires clauses { All (FitsMarks marks.old) clauses.now }
    requires clause { FitsMarks marks.old clause.now }
    ensures length { length marks.new ≡ length marks.old }
    ensures rup { result ≡ is_rup (slice_get clauses.now) clause.now hints.now }
{
    assume_false(marks, clause);
    for hint in hints {
        if *hint >= clauses.len() {
            return false;
        }
        match read_clause(marks, clauses.clause(*hint)) {
            Reading::Conflict => return true,
            Reading::Implied(lit) => marks.add(lit),
            Reading::Open => return false,
        }
    }
    false
}

/// Whether a clause has a literal and its inverse, and so holds always. The marks are used,
/// whatever they are.
pub(crate) fn is_tautology(marks: &mut Marks, clause: &[Lit]) -> bool
    requires { FitsMarks marks.old clause.now }
    ensures length { length marks.new ≡ length marks.old }
    ensures always { result ≡ is_tautology clause.now }
{
    assume_false(marks, clause);
    for lit in clause {
        if marks.holds(*lit) {
            return true;
        }
    }
    false
}

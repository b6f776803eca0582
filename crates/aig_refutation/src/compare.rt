//! Clauses of the same literals.

ghost use Rattle.std.specs.Prelude.{◌≡◌, length};
ghost use Rattle.std.specs.List.{list_all};
ghost use Rattle.aig_refutation.specs.Propagation.{FitsMarks, has, is_lit, marked};
ghost use Rattle.aig_refutation.specs.Steps.{are_same, is_unit};

use crate::marks::Marks;
use aig_base::Lit;

/// Makes the literals of a clause true, and no others.
fn assume_true(marks: &mut Marks, clause: &[Lit])
    requires { FitsMarks marks.old clause.now }
    ensures length { length marks.new ≡ length marks.old }
    ensures assumed { marked marks.new ≡ has clause.now }
{
    marks.clear();
    for lit in clause {
        marks.add(*lit);
    }
}

/// Whether all literals of a clause are true.
fn are_marked(marks: &Marks, clause: &[Lit]) -> bool
    requires { FitsMarks marks.now clause.now }
    ensures { result ≡ list_all (marked marks.now) clause.now }
{
    for lit in clause {
        if !marks.holds(*lit) {
            return false;
        }
    }
    true
}

/// Whether two clauses have the same literals, in whatever order and however often. The marks are
/// used, whatever they are.
pub(crate) fn are_same(marks: &mut Marks, clause: &[Lit], other: &[Lit]) -> bool
    requires clause { FitsMarks marks.old clause.now }
    requires other { FitsMarks marks.old other.now }
    ensures length { length marks.new ≡ length marks.old }
    ensures same { result ≡ are_same clause.now other.now }
{
    assume_true(marks, other);
    if !are_marked(marks, clause) {
        return false;
    }
    assume_true(marks, clause);
    are_marked(marks, other)
}

/// Whether all literals of a clause are this one.
fn are_all(clause: &[Lit], lit: Lit) -> bool
    ensures { result ≡ list_all (is_lit lit) clause.now }
{
    for other in clause {
        if lit != *other {
            return false;
        }
    }
    true
}

/// Whether a clause has one literal alone, however often.
pub(crate) fn is_unit(clause: &[Lit]) -> bool
    ensures { result ≡ is_unit clause.now }
{
    match clause {
        [first, rest @ ..] => are_all(rest, *first),
        [] => false,
    }
}

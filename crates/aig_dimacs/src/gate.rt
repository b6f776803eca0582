//! The lines of a gate's clauses, put into a text from its end on.

ghost use Rattle.std.specs.Prelude.{◌≡◌, ◌+◌, ◌<◌, ◌≤◌, ◌^◌, ◌++◌, ◌∷◌, [], All, decimal, length};
ghost use Rattle.std.specs.List.{flat_map};
ghost use Rattle.aig_base.specs.Clauses.{and_clauses, ite_clauses, xor_clauses};
ghost use Rattle.aig_cnf.specs.Cnf.{clauses_of, edges_of_form};
ghost use Rattle.aig_dimacs.specs.Circuit.{Puts};
ghost use Rattle.aig_dimacs.specs.Text.{clause_line, literal_text, sign_of};
ghost use Rattle.aig_dimacs.specs.declared.gate.TheConstants.{ROOM};

use aig_base::Lit;
use aig_circuit::AigEdge;
use aig_cnf::Form;
use itoa::write_digits;

/// Room for the lines of a gate: four clauses of three literals, each with up to 20 digits, a sign and a space.
pub(crate) const ROOM: usize = 272;

/// Puts a number and a space before `end`, and returns where it starts.
#[inline]
fn put_number(text: &mut [u8], end: usize, n: usize) -> usize
    requires room { 21 ≤ end }
    requires within { end ≤ length text.old }
    ensures puts { Puts text.old end text.new result (decimal n ++ 32 ∷ []) }
    ensures short { end ≤ result + 21 }
    ensures before { result ≤ end }
{
    text[end - 1] = b' ';
    write_digits(n as u64, text, end - 1)
}

/// Puts the minus of a literal that is inverted before `end`, and returns where it starts.
#[inline]
fn put_sign(text: &mut [u8], end: usize, lit: Lit) -> usize
    requires room { 1 ≤ end }
    requires within { end ≤ length text.old }
    ensures puts { Puts text.old end text.new result (sign_of lit) }
    ensures short { end ≤ result + 1 }
    ensures before { result ≤ end }
{
    if lit.polarity() {
        return end;
    }
    text[end - 1] = b'-';
    end - 1
}

/// Puts a literal and a space before `end`, and returns where it starts.
#[inline]
fn put_literal(text: &mut [u8], end: usize, lit: Lit) -> usize
    requires room { 22 ≤ end }
    requires within { end ≤ length text.old }
    ensures puts { Puts text.old end text.new result (literal_text lit) }
    ensures short { end ≤ result + 22 }
    ensures before { result ≤ end }
{
    let digits = put_number(text, end, usize::from(lit.var()) + 1);
    put_sign(text, digits, lit)
}

/// Puts the end of a line before `end`, and returns where it starts.
#[inline]
fn put_end(text: &mut [u8], end: usize) -> usize
    requires room { 2 ≤ end }
    requires within { end ≤ length text.old }
    ensures puts { Puts text.old end text.new result (48 ∷ 10 ∷ []) }
    ensures start { result + 2 ≡ end }
{
    text[end - 1] = b'\n';
    text[end - 2] = b'0';
    end - 2
}

/// Puts the line of a clause of two literals before `end`, and returns where it starts.
#[inline]
fn put_pair(text: &mut [u8], end: usize, a: Lit, b: Lit) -> usize
    requires room { 46 ≤ end }
    requires within { end ≤ length text.old }
    ensures puts { Puts text.old end text.new result (clause_line (a ∷ b ∷ [])) }
    ensures short { end ≤ result + 46 }
    ensures before { result ≤ end }
{
    let last = put_end(text, end);
    let second = put_literal(text, last, b);
    put_literal(text, second, a)
}

/// Puts the line of a clause of three literals before `end`, and returns where it starts.
#[inline]
fn put_triple(text: &mut [u8], end: usize, a: Lit, b: Lit, c: Lit) -> usize
    requires room { 68 ≤ end }
    requires within { end ≤ length text.old }
    ensures puts { Puts text.old end text.new result (clause_line (a ∷ b ∷ c ∷ [])) }
    ensures short { end ≤ result + 68 }
    ensures before { result ≤ end }
{
    let last = put_end(text, end);
    let third = put_literal(text, last, c);
    let second = put_literal(text, third, b);
    put_literal(text, second, a)
}

/// Puts the lines of the clauses that `n` is the and of `a` and `b`, and returns where they start.
fn put_and(text: &mut [u8], n: Lit, a: Lit, b: Lit) -> usize
    requires { length text.old ≡ ROOM }
    ensures puts { Puts text.old ROOM text.new result
        (flat_map clause_line (and_clauses n (a ∷ b ∷ []))) }
    ensures within { result ≤ ROOM }
{
    let third = put_triple(text, ROOM, n, !a, !b);
    let second = put_pair(text, third, !n, b);
    put_pair(text, second, !n, a)
}

/// Puts the lines of the clauses that `n` is `x` or `y` and not both, and returns where they start.
fn put_xor(text: &mut [u8], n: Lit, x: Lit, y: Lit) -> usize
    requires { length text.old ≡ ROOM }
    ensures puts { Puts text.old ROOM text.new result (flat_map clause_line (xor_clauses n x y)) }
    ensures within { result ≤ ROOM }
{
    let fourth = put_triple(text, ROOM, n, x, !y);
    let third = put_triple(text, fourth, n, !x, y);
    let second = put_triple(text, third, !n, !x, !y);
    put_triple(text, second, !n, x, y)
}

/// Puts the lines of the clauses that `n` is `t` if `c` is true, and else `e`, and returns where they start.
fn put_ite(text: &mut [u8], n: Lit, c: Lit, t: Lit, e: Lit) -> usize
    requires { length text.old ≡ ROOM }
    ensures puts { Puts text.old ROOM text.new result (flat_map clause_line (ite_clauses n c t e)) }
    ensures within { result ≤ ROOM }
{
    let fourth = put_triple(text, ROOM, c, e, !n);
    let third = put_triple(text, fourth, c, !e, n);
    let second = put_triple(text, third, !c, t, !n);
    put_triple(text, second, !c, !t, n)
}

/// Puts the lines of the clauses of gate `id` at the end of the text, and returns where they start.
pub(crate) fn put_gate(text: &mut [u8], id: usize, form: Form) -> usize
    requires room { length text.old ≡ ROOM }
    requires few { id < 2 ^ 31 }
    requires below { All (λ e. e.node_id < id) (edges_of_form form) }
    ensures puts { Puts text.old ROOM text.new result (flat_map clause_line (clauses_of id form)) }
    ensures within { result ≤ ROOM }
{
    let n = AigEdge::from(id).to_lit();
    match form {
        Form::AndOf(a, b) => put_and(text, n, a.to_lit(), b.to_lit()),
        Form::XorOf(x, y) => put_xor(text, n, x.to_lit(), y.to_lit()),
        Form::IteOf(c, t, e) => put_ite(text, n, c.to_lit(), t.to_lit(), e.to_lit()),
    }
}

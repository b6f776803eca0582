//! Clauses that tell states apart.

ghost use Rattle.std.specs.Prelude.{◌≡◌, ◌+◌, ◌*◌, ◌<◌, ◌≤◌, ◌^◌, ◌++◌, ◌∷◌, [], All, OnOk, false, length};
ghost use Rattle.aig_base.specs.Clauses.{lit_to, var_number};
ghost use Rattle.aig_circuit.specs.Edge.{inverse, lit_of};
ghost use Rattle.aig_runs.specs.WindowClauses.{apart_clauses, count_pairs, distinct_clauses, pair_clauses, state_at};

use aig::AigEdge;
use aig_base::{Lit, LitVvec, MemoryError, Var};

/// How many pairs there are among so many steps.
pub(crate) fn pairs_of(steps: usize) -> usize
    requires some { 1 ≤ steps }
    requires few { steps ≤ 2 ^ 32 + 1 }
    ensures { result ≡ count_pairs steps }
{
    if steps % 2 == 0 {
        steps / 2 * (steps - 1)
    } else {
        steps * ((steps - 1) / 2)
    }
}

/// Appends the clauses that two edges differ where the variable is true.
fn push_difference(extra: &mut LitVvec, var: Var, x: AigEdge, y: AigEdge) -> Result<(), MemoryError>
    requires x { x.node_id < 2 ^ 31 }
    requires y { y.node_id < 2 ^ 31 }
    ensures { OnOk result (extra.new ≡ extra.old
        ++ (lit_to (var_number var) false ∷ lit_of x ∷ lit_of y ∷ [])
        ∷ (lit_to (var_number var) false ∷ lit_of (inverse x) ∷ lit_of (inverse y) ∷ []) ∷ []) }
{
    let other_x = !x;
    let other_y = !y;
    extra.push(&[!var.lit(), x.to_lit(), y.to_lit()])?;
    extra.push(&[!var.lit(), other_x.to_lit(), other_y.to_lit()])
}

/// Appends the clauses that each pair of edges of two states differs where its variable is true, and that some is. The variables
/// come one after the other from `first` on. `some` is used, whatever it has.
fn push_pair(
    extra: &mut LitVvec,
    some: &mut Vec<Lit>,
    first: usize,
    xs: &[AigEdge],
    ys: &[AigEdge],
) -> Result<(), MemoryError>
    requires room { first + length xs.now ≤ 2 ^ 31 }
    requires long { length ys.now ≡ length xs.now }
    requires xs { All (λ e. e.node_id < 2 ^ 31) xs.now }
    requires ys { All (λ e. e.node_id < 2 ^ 31) ys.now }
    ensures { OnOk result (extra.new ≡ extra.old ++ pair_clauses first xs.now ys.now) }
{
    some.clear();
    for i in 0..xs.len() {
        let var = Var::new(first + i);
        push_difference(extra, var, xs[i], ys[i])?;
        some.push(var.lit())?;
    }
    extra.push(some)
}

/// The edges of the state at step `t`.
fn state_of(edges: &[AigEdge], latchs: usize, t: usize) -> &[AigEdge]
    requires { (t + 1) * latchs ≤ length edges.now }
    ensures state { result.now ≡ state_at latchs edges.now t }
    ensures count { length result.now ≡ latchs }
{
    &edges[t * latchs..][..latchs]
}

/// Appends the clauses that the state at step `t` differs from each before it, over free variables from `first` on. A state has
/// `latchs` edges, and stands after those before it.
fn push_apart(
    extra: &mut LitVvec,
    some: &mut Vec<Lit>,
    first: usize,
    edges: &[AigEdge],
    latchs: usize,
    t: usize,
) -> Result<(), MemoryError>
    requires room { first + t * latchs ≤ 2 ^ 31 }
    requires there { (t + 1) * latchs ≤ length edges.now }
    requires edges { All (λ e. e.node_id < 2 ^ 31) edges.now }
    ensures { OnOk result (extra.new ≡ extra.old ++ apart_clauses first latchs edges.now t t) }
{
    let state = state_of(edges, latchs, t);
    for s in 0..t {
        let before = state_of(edges, latchs, s);
        push_pair(extra, some, first + s * latchs, before, state)?;
    }
    Ok(())
}

/// Appends the clauses that the states at the first `steps` steps differ, over free variables from `first` on. A state has `latchs`
/// edges, and stands after those before it. Without latches no two states differ, and one empty clause says so of all pairs.
pub(crate) fn push_distinct(
    extra: &mut LitVvec,
    some: &mut Vec<Lit>,
    first: usize,
    edges: &[AigEdge],
    latchs: usize,
    steps: usize,
) -> Result<(), MemoryError>
    requires room { first + count_pairs steps * latchs ≤ 2 ^ 31 }
    requires there { length edges.now ≡ steps * latchs }
    requires edges { All (λ e. e.node_id < 2 ^ 31) edges.now }
    ensures { OnOk result
        (extra.new ≡ extra.old ++ distinct_clauses first latchs edges.now steps) }
{
    if latchs == 0 {
        return extra.push(&[]);
    }
    let mut next = first;
    for t in 0..steps {
        push_apart(extra, some, next, edges, latchs, t)?;
        next += t * latchs;
    }
    Ok(())
}

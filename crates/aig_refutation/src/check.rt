//! Checking a proof, step by step.

ghost use Rattle.std.specs.Prelude.{◌≡◌, ◌≤◌, ◌^◌, ◌++◌, [], List, None, Ok, Some, IfOk, IsErrOf, IsSome, IsTrue, OnOk, false, length, true};
ghost use Rattle.aig_base.specs.declared.logic.literal.Lit.{Lit};
ghost use Rattle.aig_base.specs.Formula.{clauses_in, IsSatisfiable};
ghost use Rattle.aig_lexer.specs.Takes.{feed};
ghost use Rattle.aig_refutation.specs.Ahead.{AddsAhead, IsAhead, LearnsAhead, StaysAhead, TakesPlain};
ghost use Rattle.aig_refutation.specs.Binary.{binary_steps_in};
ghost use Rattle.aig_refutation.specs.BinaryNumbered.{numbered_steps_in};
ghost use Rattle.aig_refutation.specs.Checking.{IsInConflict, Live, Shows, is_last_step, taken};
ghost use Rattle.aig_refutation.specs.Concluding.{Concludes, ConcludesConflict, ConcludesPlain, IsFormula, MovesStep, RefusesFormula, ShowsPlain, ShowsText, TakesLine, TakesStep, left_outcome, plain_left, shown_of, text_outcome};
ghost use Rattle.aig_refutation.specs.Kept.{Keeps, KeepsMore, KeepsOrEnds};
ghost use Rattle.aig_refutation.specs.Proofs.{Numbered};
ghost use Rattle.aig_refutation.specs.Reading.{plain_by, said_by};
ghost use Rattle.aig_refutation.specs.Steps as steps;
ghost use Rattle.aig_refutation.specs.Steps.{Follows};
ghost use Rattle.aig_refutation.specs.Tables.{Holds, HoldsFormula};
ghost use Rattle.aig_refutation.specs.Taken.{CanHold};
ghost use Rattle.aig_refutation.specs.Tokens.{place};

use crate::binary::read_step;
use crate::binary_numbered::read_numbered_step;
use crate::bound::{allowed, widened};
use crate::checker::Checker;
use crate::compare::is_unit;
use crate::error::RefutationError;
use crate::form::{TELLING, WORD, has_word, is_binary, is_numbered};
use crate::hints::Search;
use crate::step::Step;
use crate::units::find_conflict;
use crate::words::{Number, Words};
use aig_base::{DagCnf, Lit, LitVvec, Source, Var};
use aig_lexer::InputBuffer;
use std::alloc::Global;

/// Appends clauses of the formula, under the next numbers.
fn assume_all(checker: &mut Checker, clauses: &LitVvec) -> Result<(), RefutationError>
    ensures assumed { OnOk result (checker.new.table.clauses
        ≡ checker.old.table.clauses ++ clauses.now) }
    ensures variables { checker.new.variables ≡ checker.old.variables }
    ensures holds { IsFormula checker.old → OnOk result (IsFormula checker.new) }
    ensures refused { IsFormula checker.old
        → RefusesFormula checker.old.variables clauses.now result }
    ensures no_stream { IsErrOf result RefutationError.Stream → ⊥ }
{
    for i in 0..clauses.len() {
        checker.assume(clauses.clause(i))?;
    }
    Ok(())
}

/// Appends the clauses of all variables, and further ones, numbered from 1 on.
fn number_clauses(
    checker: &mut Checker,
    cnf: &DagCnf,
    extra: &LitVvec,
) -> Result<(), RefutationError>
    requires { checker.old.table.clauses ≡ [] }
    ensures formula { OnOk result (checker.new.table.clauses
        ≡ clauses_in cnf.now ++ extra.now) }
    ensures variables { checker.new.variables ≡ checker.old.variables }
    ensures holds { IsFormula checker.old → OnOk result (IsFormula checker.new) }
    ensures refused { IsFormula checker.old
        → RefusesFormula checker.old.variables (clauses_in cnf.now ++ extra.now) result }
    ensures no_stream { IsErrOf result RefutationError.Stream → ⊥ }
{
    for i in 0..cnf.num_vars() {
        let var = Var::new(i);
        assume_all(checker, cnf.clauses_of(var))?;
    }
    assume_all(checker, extra)
}

/// Whether the clauses of the formula have the empty one, or two of one literal each that are in
/// conflict.
fn refutes_at_once(alloc: Global, checker: &Checker) -> Result<bool, RefutationError>
    ensures conflict { IsFormula checker.now
        → ConcludesConflict checker.now.table.clauses result }
    ensures no_stream { IsErrOf result RefutationError.Stream → ⊥ }
{
    let hints = find_conflict(alloc, checker.clauses(), checker.variables())?;
    Ok(!hints.is_empty())
}

/// Takes a step that has numbers, and says whether it adds the empty clause.
fn take_numbered(checker: &mut Checker, step: &Step) -> Result<bool, RefutationError>
    ensures moves { (live : Live) (said : steps.Step) → said_by step.now ≡ Numbered said
        → Holds checker.old.table live → MovesStep checker.new.table result
        (taken live said) (is_last_step said) }
    ensures no_stream { IsErrOf result RefutationError.Stream → ⊥ }
{
    if step.deletes {
        checker.delete(&step.numbers)?;
        return Ok(false);
    }
    checker.add(step.number, &step.clause, &step.numbers, &step.groups)?;
    Ok(step.clause.is_empty())
}

/// Adds for each literal that the search found to follow the clause that has it alone. `hints` is
/// used, whatever it has.
fn add_units(
    checker: &mut Checker,
    search: &mut Search,
    hints: &mut Vec<u32>,
) -> Result<(), RefutationError>
    ensures keeps { (live : Live) → Holds checker.old.table live
        → Keeps live checker.new.table result }
    ensures ahead { (clauses : List (List Lit)) → IsAhead clauses checker.old.table
        → StaysAhead clauses checker.new.table result }
    ensures no_stream { IsErrOf result RefutationError.Stream → ⊥ }
{
    for _ in 0..checker.variables() {
        let Some(lit) = search.next_unit(hints)? else {
            break;
        };
        let Some(number) = checker.add_next(&[lit], hints)? else {
            break;
        };
        search.name_unit(number);
    }
    Ok(())
}

/// Takes the clauses, which are numbered from 1 on, into a search that has none, up to a conflict
/// of unit propagation.
fn start_search(
    alloc: Global,
    checker: &mut Checker,
    search: &mut Search,
) -> Result<(), RefutationError>
    ensures keeps { (live : Live) → Holds checker.old.table live
        → Keeps live checker.new.table result }
    ensures ahead { (clauses : List (List Lit)) → IsAhead clauses checker.old.table
        → StaysAhead clauses checker.new.table result }
    ensures no_stream { IsErrOf result RefutationError.Stream → ⊥ }
{
    let clauses = checker.clauses();
    let mut number = 0u32;
    for i in 0..clauses.len() {
        number = number.saturating_add(1);
        search.add(number, clauses.clause(i))?;
        if search.is_in_conflict() {
            break;
        }
    }
    add_units(checker, search, &mut Vec::new(alloc))
}

/// Adds the empty clause where unit propagation is in conflict, and says whether it is.
fn add_empty(
    checker: &mut Checker,
    search: &mut Search,
    hints: &mut Vec<u32>,
) -> Result<bool, RefutationError>
    ensures keeps { (live : Live) → Holds checker.old.table live
        → KeepsOrEnds live checker.new.table result }
    ensures ahead { (clauses : List (List Lit)) → IsAhead clauses checker.old.table
        → StaysAhead clauses checker.new.table result }
    ensures no_stream { IsErrOf result RefutationError.Stream → ⊥ }
{
    if !search.is_in_conflict() {
        return Ok(false);
    }
    search.find(&[], hints)?;
    Ok(checker.add_next(&[], hints)?.is_some())
}

/// Where a clause has the literal that a proof has first.
#[derive(Clone, Copy)]
enum Pivot {
    /// At its beginning.
    First,
    /// At its end: in a text the first number of a line may be that of a clause, and so is read last.
    Last,
}

impl Pivot {
    /// That literal, unless the clause is empty.
    fn of(self, clause: &[Lit]) -> Option<Lit> {
        match self {
            Pivot::First => clause.first().copied(),
            Pivot::Last => clause.last().copied(),
        }
    }
}

/// Adds a clause under the next number, and returns that, if hints are found along which it follows
/// by unit propagation, or has the RAT property on its pivot. `hints` and `groups` are used, whatever
/// they have.
fn add_hinted(
    checker: &mut Checker,
    search: &mut Search,
    pivot: Pivot,
    clause: &[Lit],
    hints: &mut Vec<u32>,
    groups: &mut Vec<Number>,
) -> Result<Option<u32>, RefutationError>
    ensures keeps { (live : Live) → Holds checker.old.table live
        → KeepsMore live clause.now checker.new.table result }
    ensures ahead { (clauses : List (List Lit)) → IsAhead clauses checker.old.table
        → AddsAhead clauses clause.now checker.new.table result }
    ensures no_stream { IsErrOf result RefutationError.Stream → ⊥ }
{
    search.find(clause, hints)?;
    let number = checker.add_next(clause, hints)?;
    if number.is_some() {
        return Ok(number);
    }
    let Some(lit) = pivot.of(clause) else {
        return Ok(None);
    };
    checker.add_rat(search, lit, clause, groups)
}

/// Adds a clause under the next number, and returns that, if it follows by unit propagation, or is
/// found to have the RAT property on its pivot. `hints` and `groups` are used, whatever they have.
fn add_found(
    checker: &mut Checker,
    search: &mut Search,
    pivot: Pivot,
    clause: &[Lit],
    hints: &mut Vec<u32>,
    groups: &mut Vec<Number>,
) -> Result<Option<u32>, RefutationError>
    ensures keeps { (live : Live) → Holds checker.old.table live
        → KeepsMore live clause.now checker.new.table result }
    ensures ahead { (clauses : List (List Lit)) → IsAhead clauses checker.old.table
        → AddsAhead clauses clause.now checker.new.table result }
    ensures refused { (clauses : List (List Lit)) → IsAhead clauses checker.old.table
        → result ≡ Ok None → Follows clauses clause.now → ⊥ }
    ensures no_stream { IsErrOf result RefutationError.Stream → ⊥ }
{
    let number = add_hinted(checker, search, pivot, clause, hints, groups)?;
    if number.is_some() {
        return Ok(number);
    }
    search.find_all(clause, hints)?;
    checker.add_by_all(clause, hints)
}

/// Adds the clause of a step under the next number, along hints that are searched for, and says
/// whether unit propagation is in conflict then.
fn add_searched(
    checker: &mut Checker,
    search: &mut Search,
    pivot: Pivot,
    step: &mut Step,
) -> Result<bool, RefutationError>
    ensures keeps { (live : Live) → Holds checker.old.table live
        → KeepsOrEnds live checker.new.table result }
    ensures same { step.new.is_numbered ≡ step.old.is_numbered }
    ensures ahead { (clauses : List (List Lit)) → IsAhead clauses checker.old.table
        → LearnsAhead clauses step.old.clause.items checker.new.table result }
    ensures no_stream { IsErrOf result RefutationError.Stream → ⊥ }
{
    let found = add_found(
        checker,
        search,
        pivot,
        &step.clause,
        &mut step.numbers,
        &mut step.groups,
    )?;
    let Some(number) = found else {
        return Err(RefutationError::Step);
    };
    if step.clause.is_empty() {
        return Ok(true);
    }
    search.add(number, &step.clause)?;
    add_units(checker, search, &mut step.numbers)?;
    add_empty(checker, search, &mut step.numbers)
}

/// Takes a step that has no numbers, and says whether the empty clause was added. To delete a clause
/// that isn't there, or has one literal alone, does nothing.
fn take_searched(
    checker: &mut Checker,
    search: &mut Search,
    pivot: Pivot,
    step: &mut Step,
) -> Result<bool, RefutationError>
    ensures keeps { (live : Live) → Holds checker.old.table live
        → KeepsOrEnds live checker.new.table result }
    ensures same { step.new.is_numbered ≡ step.old.is_numbered }
    ensures ahead { (clauses : List (List Lit)) → IsAhead clauses checker.old.table
        → TakesPlain clauses (plain_by step.old) checker.new.table result }
    ensures no_stream { IsErrOf result RefutationError.Stream → ⊥ }
{
    if !step.deletes {
        return add_searched(checker, search, pivot, step);
    }
    if is_unit(&step.clause) {
        return Ok(false);
    }
    if let Some(number) = search.remove(&step.clause)? {
        checker.delete_same(number, &step.clause)?;
    }
    Ok(false)
}

/// Takes a step of the form of the first one: with a search, one that has no numbers. It says
/// whether the empty clause was added.
fn take_step(
    checker: &mut Checker,
    search: &mut Option<Search>,
    step: &mut Step,
) -> Result<bool, RefutationError>
    ensures numbered { search.old ≡ None → OnOk result ((search.new ≡ None)
        × (step.new.is_numbered ≡ true)) }
    ensures takes { (live : Live) → search.old ≡ None → Holds checker.old.table live
        → TakesStep live checker.new.table result (said_by step.old) }
    ensures same { step.new.is_numbered ≡ step.old.is_numbered }
    ensures searches { IsSome search.old → IsSome search.new }
    ensures plain { (clauses : List (List Lit)) → IsSome search.old
        → IsAhead clauses checker.old.table
        → TakesLine clauses (said_by step.old) checker.new.table result }
    ensures keeps { (live : Live) → IsSome search.old → Holds checker.old.table live
        → KeepsOrEnds live checker.new.table result }
    ensures no_stream { IsErrOf result RefutationError.Stream → ⊥ }
{
    match search {
        None if step.is_numbered => take_numbered(checker, step),
        Some(search) if !step.is_numbered => take_searched(checker, search, Pivot::Last, step),
        _ => Err(RefutationError::Line),
    }
}

/// The search that steps of the form of the first one need, if they have no numbers, or there is
/// none.
fn search_for(
    alloc: Global,
    checker: &mut Checker,
    step: &Step,
) -> Result<Option<Search>, RefutationError>
    ensures numbered { step.now.is_numbered ≡ true
        → (checker.new ≡ checker.old) × (result ≡ Ok None) }
    ensures keeps { (live : Live) → Holds checker.old.table live
        → Keeps live checker.new.table result }
    ensures ahead { (clauses : List (List Lit)) → IsAhead clauses checker.old.table
        → StaysAhead clauses checker.new.table result }
    ensures searches { step.now.is_numbered ≡ false → IfOk result (λ search. IsSome search) }
    ensures no_stream { IsErrOf result RefutationError.Stream → ⊥ }
{
    if step.is_numbered {
        return Ok(None);
    }
    let mut search = Search::new(alloc, checker.variables())?;
    start_search(alloc, checker, &mut search)?;
    Ok(Some(search))
}

/// Adds the empty clause where unit propagation is in conflict before the first step, and says
/// whether it is.
fn refutes_at_first(
    checker: &mut Checker,
    search: &mut Option<Search>,
    step: &mut Step,
) -> Result<bool, RefutationError>
    ensures numbered { search.old ≡ None → (checker.new ≡ checker.old) × (search.new ≡ None)
        × (step.new ≡ step.old) × (result ≡ Ok false) }
    ensures keeps { (live : Live) → Holds checker.old.table live
        → KeepsOrEnds live checker.new.table result }
    ensures ahead { (clauses : List (List Lit)) → IsAhead clauses checker.old.table
        → StaysAhead clauses checker.new.table result }
    ensures same { (step.new.is_numbered ≡ step.old.is_numbered)
        × (step.new.deletes ≡ step.old.deletes) × (step.new.clause ≡ step.old.clause)
        × (IsSome search.old → IsSome search.new) }
    ensures no_stream { IsErrOf result RefutationError.Stream → ⊥ }
{
    match search {
        Some(search) => add_empty(checker, search, &mut step.numbers),
        None => Ok(false),
    }
}

/// Takes the step, and those that are read after it, up to the first with the empty clause.
fn take_steps<R: Source>(
    words: &mut Words,
    r: &mut R,
    checker: &mut Checker,
    search: &mut Option<Search>,
    step: &mut Step,
    variables: usize,
) -> Result<(), RefutationError>
    requires { variables ≤ 2 ^ 31 }
    ensures searched { (live : Live) → IsSome search.old → Holds checker.old.table live
        → OnOk result (¬ CanHold live) }
    ensures fails { (live : Live) → search.old ≡ None → Holds checker.old.table live
        → OnOk result (¬ CanHold live) }
    ensures stream { IsErrOf result RefutationError.Stream → R.failed r.new ≡ true }
    ensures shown { (live : Live) → search.old ≡ None → Holds checker.old.table live
        → Concludes (feed R.left R.failed R.pulls words.old.held r.old)
        (left_outcome variables live (said_by step.old)
        (place R.left R.failed R.pulls words.old r.old)) result }
    ensures plain { (clauses : List (List Lit)) → IsSome search.old
        → IsAhead clauses checker.old.table
        → ConcludesPlain (feed R.left R.failed R.pulls words.old.held r.old) clauses
        (plain_left variables (said_by step.old) (place R.left R.failed R.pulls words.old r.old))
        result }
{
    let mut bound = variables;
    'steps: while !take_step(checker, search, step)? {
        bound = widened(bound);
        if !step.read(words, r, bound)? {
            return Err(RefutationError::Unfinished);
        }
    }
    Ok(())
}

/// Checks the steps of a text up to the first with the empty clause, against the clauses. `step` is
/// used, whatever it has.
fn check_steps<R: Source>(
    alloc: Global,
    words: &mut Words,
    r: &mut R,
    checker: &mut Checker,
    step: &mut Step,
    variables: usize,
) -> Result<(), RefutationError>
    requires { variables ≤ 2 ^ 31 }
    ensures refuted { HoldsFormula checker.old.table
        → OnOk result (¬ IsSatisfiable checker.old.table.clauses) }
    ensures stream { IsErrOf result RefutationError.Stream → R.failed r.new ≡ true }
    ensures shown { (live : Live) → words.old.end ≡ None → step.old.is_numbered ≡ false
        → Holds checker.old.table live
        → ShowsText (feed R.left R.failed R.pulls words.old.held r.old)
        (text_outcome variables live) result }
    ensures plain { (clauses : List (List Lit)) → words.old.end ≡ None
        → step.old.is_numbered ≡ false
        → IsAhead clauses checker.old.table
        → ShowsPlain (feed R.left R.failed R.pulls words.old.held r.old) variables clauses
        result }
{
    let there = step.read(words, r, variables)?;
    let mut search = search_for(alloc, checker, step)?;
    if refutes_at_first(checker, &mut search, step)? {
        return Ok(());
    }
    if !there {
        return Err(RefutationError::Unfinished);
    }
    take_steps(words, r, checker, &mut search, step, variables)
}

/// Takes the steps that are read of a binary proof, up to the first with the empty clause.
fn take_binary<R: Source>(
    buffer: &mut InputBuffer,
    r: &mut R,
    checker: &mut Checker,
    search: &mut Search,
    step: &mut Step,
    variables: usize,
) -> Result<(), RefutationError>
    requires { variables ≤ 2 ^ 31 }
    ensures fails { (live : Live) → Holds checker.old.table live → OnOk result (¬ CanHold live) }
    ensures stream { IsErrOf result RefutationError.Stream → R.failed r.new ≡ true }
    ensures plain { (clauses : List (List Lit)) → IsAhead clauses checker.old.table
        → ConcludesPlain (feed R.left R.failed R.pulls buffer.old r.old) clauses
        (binary_steps_in variables) result }
{
    let mut bound = variables;
    'steps: while read_step(buffer, r, step, bound)? {
        if take_searched(checker, search, Pivot::First, step)? {
            return Ok(());
        }
        bound = widened(bound);
    }
    Err(RefutationError::Unfinished)
}

/// Checks the steps of a binary proof up to the first with the empty clause, against the clauses.
/// `step` is used, whatever it has.
fn check_binary<R: Source>(
    alloc: Global,
    buffer: &mut InputBuffer,
    r: &mut R,
    checker: &mut Checker,
    step: &mut Step,
    variables: usize,
) -> Result<(), RefutationError>
    requires { variables ≤ 2 ^ 31 }
    ensures fails { (live : Live) → Holds checker.old.table live → OnOk result (¬ CanHold live) }
    ensures stream { IsErrOf result RefutationError.Stream → R.failed r.new ≡ true }
    ensures plain { (clauses : List (List Lit)) → IsAhead clauses checker.old.table
        → ConcludesPlain (feed R.left R.failed R.pulls buffer.old r.old) clauses
        (binary_steps_in variables) result }
{
    let mut search = Search::new(alloc, checker.variables())?;
    start_search(alloc, checker, &mut search)?;
    if add_empty(checker, &mut search, &mut step.numbers)? {
        return Ok(());
    }
    take_binary(buffer, r, checker, &mut search, step, variables)
}

/// Takes the steps that are read of a binary proof whose steps have numbers, up to the first with the
/// empty clause.
fn take_binary_numbered<R: Source>(
    buffer: &mut InputBuffer,
    r: &mut R,
    checker: &mut Checker,
    step: &mut Step,
    variables: usize,
) -> Result<(), RefutationError>
    requires { variables ≤ 2 ^ 31 }
    ensures fails { (live : Live) → Holds checker.old.table live → OnOk result (¬ CanHold live) }
    ensures stream { IsErrOf result RefutationError.Stream → R.failed r.new ≡ true }
    ensures shown { (live : Live) → Holds checker.old.table live
        → Concludes (feed R.left R.failed R.pulls buffer.old r.old)
        (λ bytes. shown_of live (numbered_steps_in variables bytes)) result }
{
    let mut bound = variables;
    'steps: while read_numbered_step(buffer, r, step, bound)? {
        if take_numbered(checker, step)? {
            return Ok(());
        }
        bound = widened(bound);
    }
    Err(RefutationError::Unfinished)
}

/// Checks the steps of a proof, whatever its form, up to the first with the empty clause, against
/// clauses that aren't in conflict by themselves. `step` is used, whatever it has.
fn check_proof<R: Source>(
    alloc: Global,
    r: &mut R,
    checker: &mut Checker,
    step: &mut Step,
    variables: usize,
) -> Result<(), RefutationError>
    requires { variables ≤ 2 ^ 31 }
    ensures refuted { HoldsFormula checker.old.table
        → OnOk result (¬ IsSatisfiable checker.old.table.clauses) }
    ensures stream { IsErrOf result RefutationError.Stream → R.failed r.new ≡ true }
    ensures shown { (clauses : List (List Lit)) → step.old.is_numbered ≡ false
        → IsFormula checker.old → checker.old.table.clauses ≡ clauses
        → checker.old.variables ≡ variables → (IsInConflict clauses → ⊥)
        → Shows variables clauses (R.left r.old) result }
{
    let mut words = Words::new();
    words.buffer.hold(r, TELLING)?;
    let bound = allowed(variables);
    if has_word(words.buffer.window()) {
        words.buffer.consume(WORD.len());
        return take_binary_numbered(&mut words.buffer, r, checker, step, bound);
    }
    if !is_binary(words.buffer.window()) {
        return check_steps(alloc, &mut words, r, checker, step, bound);
    }
    if is_numbered(words.buffer.window()) {
        return take_binary_numbered(&mut words.buffer, r, checker, step, bound);
    }
    check_binary(alloc, &mut words.buffer, r, checker, step, bound)
}

/// Checks steps against a formula's clauses, where these aren't in conflict by themselves. There are
/// no clauses yet, and `step` is used, whatever it has.
fn check_clauses<R: Source>(
    alloc: Global,
    cnf: &DagCnf,
    extra: &LitVvec,
    r: &mut R,
    checker: &mut Checker,
    step: &mut Step,
) -> Result<(), RefutationError>
    requires { checker.old.table.clauses ≡ [] }
    ensures refuted { IsFormula checker.old
        → OnOk result (¬ IsSatisfiable (clauses_in cnf.now ++ extra.now)) }
    ensures stream { IsErrOf result RefutationError.Stream → R.failed r.new ≡ true }
    ensures shown { IsFormula checker.old → checker.old.variables ≡ length cnf.now
        → step.old.is_numbered ≡ false
        → Shows (length cnf.now) (clauses_in cnf.now ++ extra.now) (R.left r.old) result }
{
    number_clauses(checker, cnf, extra)?;
    if refutes_at_once(alloc, checker)? {
        return Ok(());
    }
    check_proof(alloc, r, checker, step, cnf.num_vars())
}

/// Checks a proof that clauses can't be satisfied: an LRAT or a DRAT file, text or binary, whose
/// steps follow by reverse unit propagation or have the RAT property. The clauses of `cnf`, variable
/// by variable, and those of `extra` after them are numbered from 1 on, and variable v is written
/// as v + 1.
///
/// Clauses of which a literal has no variable are refused as `Variable`. Others in conflict at once
/// need no proof, and nothing is read: one is empty, or one has a literal alone and another its
/// inverse alone.
///
/// The lines of an LRAT file are `N L.. 0 H.. 0`, which adds the clause of the literals `L` under
/// the number `N`, along the hints `H`, and `N d M.. 0`, which deletes the clauses of the numbers
/// `M`. A number names one clause alone: one that was used before is refused as `Twice`, whether
/// its clause is still there or not.
///
/// A clause of such a line may also have the RAT property on its first literal `L`: what follows of
/// it and each clause that is there and has the inverse of `L` does so along the hints. Behind them
/// stand, before the last 0, `-M` and further hints for the clause of the number `M`, for each that
/// needs some. The cost of such a step is that of a pass over all clauses.
///
/// A step may name new variables, which the clauses don't have: the first step 65,536 more than
/// theirs, each step one more than the one before it, and none 2^31 or more. A literal past that is
/// refused as `Literal`. Such a variable gets its meaning by RAT steps (extended resolution).
///
/// The lines of a DRAT file are `L.. 0` and `d L.. 0`. Hints are searched for, also those for the
/// RAT property on the first literal as it is written; a clause of one literal is never deleted, nor
/// is a literal given up that followed once, and to delete a clause that isn't there does nothing.
///
/// A binary DRAT file has the letter `a` or `d` for each step, then each literal as twice its number,
/// one more where it is inverted, in groups of seven bits, the lowest first, and then a 0. A binary LRAT
/// file has the number of a clause behind the letter `a`, as it is, and its hints and a 0 behind the
/// literals; a hint is twice its number, one more where it has a minus, and so are the numbers behind
/// the letter `d`.
///
/// A proof is binary where it begins with `a`, or with `d` and a byte 0 is among the first 1,024. It
/// is an LRAT file where those bytes can't be DRAT steps, and can be LRAT steps, and in any case
/// behind the word `lrat`. The first line of a text says which form all have. A clause that can't be
/// added is refused as `Step`, and as `Asymmetry` where it has hints for other clauses.
///
/// The proof is read through a buffer of 16,384 bytes, up to the empty clause, and nothing is
/// trusted of it. The memory is that of the clauses that are not deleted, a few times over, and
/// four bytes for each number. For each variable up to the largest that occurs there are eight
/// bytes, and some 200 of a DRAT proof.
pub fn check_refutation<R: Source>(
    alloc: Global,
    cnf: &DagCnf,
    extra: &LitVvec,
    r: &mut R,
) -> Result<(), RefutationError>
    // No assignment makes all clauses true.
    ensures refuted { OnOk result (¬ IsSatisfiable (clauses_in cnf.now ++ extra.now)) }
    // Stream only where a read failed in this call.
    ensures stream { IsErrOf result RefutationError.Stream → R.failed r.new ≡ true }
    // Memory and the stream aside: Variable where a literal has no variable, else Ok where the
    // clauses are in conflict at once. Of another LRAT proof whose bytes are known Ok exactly where
    // its steps refute the clauses, and else the error that its text has. Such a DRAT proof, text or
    // binary, is refused only as Step, where not all its steps follow even from clauses of one literal
    // that were deleted, or as what is wrong with its bytes after steps none of which adds the empty
    // clause. Of one with RAT steps no more is said.
    ensures shown { Shows (length cnf.now) (clauses_in cnf.now ++ extra.now) (R.left r.old)
        result }
{
    let mut checker = Checker::new(alloc, cnf.num_vars())?;
    let mut step = Step::new(alloc);
    check_clauses(alloc, cnf, extra, r, &mut checker, &mut step)
}

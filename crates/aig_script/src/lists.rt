//! Steps on clauses and maps.

ghost use Rattle.std.specs.Prelude.{◌≡◌, ◌∷◌, [], IfOk};

use crate::script::{Fault, Refusal};
use crate::show::{call, print, print_answer, print_clauses, print_dag, print_map};
use crate::words::{Line, find};
use aig_base::{DagCnf, Lit, LitVvec, MemoryError, Var, VarVMap};
use std::alloc::Global;
use std::io::Print;

/// What these steps work on: a list of clauses, clauses by variable, and a map of variables.
pub(crate) struct Lists {
    alloc: Global,
    clauses: LitVvec,
    relations: DagCnf,
    map: VarVMap,
}

impl Drop for Lists {
    fn drop(self) {
        let Lists {
            alloc: _,
            clauses: _,
            relations: _,
            map: _,
        } = self;
    }
}

impl Lists {
    /// No clauses but that of variable 0, and nothing mapped.
    pub(crate) fn new(alloc: Global) -> Result<Lists, Fault> {
        let relations = DagCnf::new(alloc)?;
        Ok(Lists {
            alloc,
            clauses: LitVvec::new(alloc),
            relations,
            map: VarVMap::new(alloc),
        })
    }
}

/// What is done with the lists.
enum ListStep {
    Clauses,
    Relations,
    Mapped,
    NewRelations,
    NewVar,
    AddRel,
    Insert,
}

/// What is done with the list of clauses.
enum Relation {
    Clause,
    And,
    Xor,
    Ite,
}

const STEPS: [(&str, ListStep); 7] = [
    ("clauses", ListStep::Clauses),
    ("relations", ListStep::Relations),
    ("mapped", ListStep::Mapped),
    ("new_relations", ListStep::NewRelations),
    ("new_var", ListStep::NewVar),
    ("add_rel", ListStep::AddRel),
    ("insert", ListStep::Insert),
];

const RELATIONS: [(&str, Relation); 4] = [
    ("clause", Relation::Clause),
    ("cnf_and", Relation::And),
    ("cnf_xor", Relation::Xor),
    ("cnf_ite", Relation::Ite),
];

/// The variable of a number.
fn variable(number: usize) -> Result<Var, Refusal> {
    if number >= 1 << 31 {
        return Err(Refusal::NotAllowed);
    }
    Ok(Var::new(number))
}

/// Appends a literal.
fn append(lits: &mut Vec<Lit>, lit: Lit) -> Result<(), MemoryError> {
    Ok(lits.push(lit)?)
}

/// The literals of numbers.
fn lits(alloc: Global, numbers: &[usize]) -> Result<Vec<Lit>, Refusal> {
    let mut lits = Vec::new(alloc);
    for number in numbers {
        match u32::try_from(*number) {
            Ok(number) => append(&mut lits, Lit::from(number))?,
            Err(_) => return Err(Refusal::NotAllowed),
        }
    }
    Ok(lits)
}

/// The clauses that say of a literal what it is.
fn related(alloc: Global, relation: &Relation, lits: &[Lit]) -> Result<LitVvec, Refusal> {
    let made = match (relation, lits) {
        (Relation::And, [n, of @ ..]) => LitVvec::cnf_and(alloc, *n, of),
        (Relation::Xor, [n, x, y]) => LitVvec::cnf_xor(alloc, *n, *x, *y),
        (Relation::Ite, [n, c, t, e]) => LitVvec::cnf_ite(alloc, *n, *c, *t, *e),
        _ => return Err(Refusal::NotAllowed),
    };
    Ok(made?)
}

/// Makes clauses in place of those before.
fn relate<R: Print>(rt: &R, lists: &mut Lists, relation: &Relation, lits: &[Lit]) {
    match call!(rt, related(lists.alloc, relation, lits)) {
        Ok(clauses) => lists.clauses = clauses,
        Err(refusal) => print(rt, &refusal),
    }
}

/// Appends a clause, or makes those of a relation.
fn take_clauses<R: Print>(rt: &R, lists: &mut Lists, relation: &Relation, numbers: &[usize]) {
    let lits = match lits(lists.alloc, numbers) {
        Ok(lits) => lits,
        Err(refusal) => return print(rt, &refusal),
    };
    match relation {
        Relation::Clause => print_answer(rt, &call!(rt, lists.clauses.push(&lits))),
        _ => relate(rt, lists, relation, &lits),
    }
}

/// Adds a variable.
fn new_var(relations: &mut DagCnf) -> Result<Var, Refusal> {
    if relations.num_vars() >= 1 << 31 {
        return Err(Refusal::NotAllowed);
    }
    Ok(relations.new_var()?)
}

/// A clause of two literals, alone.
fn pair(alloc: Global, one: Lit, other: Lit) -> Result<LitVvec, Refusal>
    ensures { IfOk result (λ clauses. clauses ≡ (one ∷ other ∷ []) ∷ []) }
{
    let mut clauses = LitVvec::new(alloc);
    clauses.push(&[one, other])?;
    Ok(clauses)
}

/// Adds a clause of two literals to a variable.
fn add_rel(alloc: Global, relations: &mut DagCnf, numbers: &[usize]) -> Result<(), Refusal> {
    let [var, literals @ ..] = numbers else {
        return Err(Refusal::NotAllowed);
    };
    let lits = lits(alloc, literals)?;
    let [one, other] = lits.as_slice() else {
        return Err(Refusal::NotAllowed);
    };
    let (var, one, other) = (variable(*var)?, *one, *other);
    let count = relations.num_vars();
    if usize::from(var) >= count
        || usize::from(one.var()) >= count
        || usize::from(other.var()) >= count
    {
        return Err(Refusal::NotAllowed);
    }
    let rel = pair(alloc, one, other)?;
    Ok(relations.add_rel(var, &rel)?)
}

/// Maps a variable to another, and gives which it was mapped to before.
fn insert(map: &mut VarVMap, numbers: &[usize]) -> Result<Option<Var>, Refusal> {
    let [from, to] = numbers else {
        return Err(Refusal::NotAllowed);
    };
    Ok(map.insert(variable(*from)?, variable(*to)?)?)
}

/// Begins the clauses by variable anew.
fn begin(lists: &mut Lists) -> Result<(), Refusal> {
    lists.relations = DagCnf::new(lists.alloc)?;
    Ok(())
}

/// Takes a step of the table.
fn change<R: Print>(rt: &R, lists: &mut Lists, step: &ListStep, numbers: &[usize]) {
    let (alloc, relations) = (lists.alloc, &mut lists.relations);
    match step {
        ListStep::Clauses => print_clauses(rt, &lists.clauses),
        ListStep::Relations => print_dag(rt, relations),
        ListStep::Mapped => print_map(rt, &lists.map),
        ListStep::NewRelations => print_answer(rt, &call!(rt, begin(lists))),
        ListStep::NewVar => print_answer(rt, &call!(rt, new_var(relations))),
        ListStep::AddRel => print_answer(rt, &call!(rt, add_rel(alloc, relations, numbers))),
        ListStep::Insert => print_answer(rt, &call!(rt, insert(&mut lists.map, numbers))),
    }
}

/// Takes a step of this file, if it is one.
pub(crate) fn take<R: Print>(rt: &R, lists: &mut Lists, line: Line<'_>) -> bool {
    if let Some(step) = find(&STEPS, line.name) {
        change(rt, lists, step, line.numbers);
        return true;
    }
    if let Some(relation) = find(&RELATIONS, line.name) {
        take_clauses(rt, lists, relation, line.numbers);
        return true;
    }
    false
}

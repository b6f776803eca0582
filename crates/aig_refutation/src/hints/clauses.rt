//! Clauses in one piece of memory.

ghost use Rattle.std.specs.Prelude.{◌<◌, ◌≤◌, ◌^◌, IfSome, length};

use crate::hints::trail::Trail;
use aig_base::{Lit, MemoryError};
use std::alloc::Global;

/// How many words a clause has before its literals.
const HEADER: usize = 5;

/// The word that says how many literals a clause has.
const LENGTH: usize = 0;

/// The word of a clause's number, which is 0 once it is removed.
const NUMBER: usize = 1;

/// The word of the next clause with the same hash, by its place; 0 is the place of none.
const NEXT: usize = 2;

/// The word that says where the look for a literal to watch goes on, after the two that are
/// watched. Of a short clause it says where its first watch stands.
const TURN: usize = 3;

/// The bit of that word that is 1 while the clause is claimed.
const CLAIMED: u32 = 1 << 31;

/// The word that says when a clause was used last: 0 where it isn't recent, and `REMOVED` once it is
/// removed. Of a short clause it says where its second watch stands.
const USED: usize = 4;

/// The word `USED` of a removed clause.
const REMOVED: u32 = u32::MAX;

/// How many literals a short clause has at most. All of them are watched.
pub(crate) const MOST_OF_SHORT: u32 = 3;

/// How many words a clause of so many literals has. Where there are three, the last word says where
/// the third watch stands.
fn size_of(len: u32) -> usize
    ensures { result < 2 ^ 33 }
{
    let third = if len == MOST_OF_SHORT { 1 } else { 0 };
    HEADER + len as usize + third
}

/// The word that says where the watch of this literal of a short clause stands.
fn watch_word(i: u32) -> usize
    ensures { result < 9 }
{
    match i {
        0 => TURN,
        1 => USED,
        _ => HEADER + MOST_OF_SHORT as usize,
    }
}

/// A kind of clauses, which have lists of their own: those whose word `USED` lies between two.
#[derive(Clone, Copy)]
pub(crate) struct Kind {
    first: u32,
    last: u32,
}

/// Clauses that are recent.
pub(crate) const RECENT: Kind = Kind {
    first: 1,
    last: REMOVED - 1,
};

/// Clauses that aren't.
pub(crate) const REST: Kind = Kind { first: 0, last: 0 };

impl Kind {
    /// Whether a clause with this word `USED` is of this kind.
    #[inline(always)]
    fn has(self, used: u32) -> bool {
        self.first <= used && used <= self.last
    }
}

/// What a look at a clause finds, one of whose watched literals is false now.
pub(crate) enum Look {
    /// The clause is of another kind, or doesn't watch the literal.
    Stale,
    /// This other watched literal is true.
    True(Lit),
    /// The clause watches the literal `next` from now on, beside this other one.
    Moved { other: Lit, next: Lit },
    /// All literals but this other watched one are false.
    Last(Lit),
}

/// The place of the first literal from `from` on that isn't false, if there is one.
#[inline(always)]
fn open_from(lits: &[u32], from: usize, trail: &Trail) -> Option<usize>
    ensures { IfSome result (λ i. i < length lits.now) }
{
    for i in from..lits.len() {
        if !trail.is_false(Lit::from(lits[i])) {
            return Some(i);
        }
    }
    None
}

/// The place of a literal that isn't false, if there is one: of the first from `turn` on, and else
/// of the first.
#[inline(always)]
fn next_open(lits: &[u32], turn: usize, trail: &Trail) -> Option<usize>
    ensures { IfSome result (λ i. i < length lits.now) }
{
    let found = open_from(lits, turn, trail);
    if found.is_some() {
        return found;
    }
    open_from(&lits[..turn.min(lits.len())], 0, trail)
}

/// The other watched literal of the clause whose words come first here, if the clause is of this
/// kind and watches this one.
#[inline(always)]
fn other_watched(words: &[u32], lit: Lit, kind: Kind) -> Option<Lit>
    ensures { IfSome result (λ other. 7 ≤ length words.now) }
{
    if words.len() < HEADER + 2 || !kind.has(words[USED]) {
        return None;
    }
    let word = u32::from(lit);
    if words[HEADER] != word && words[HEADER + 1] != word {
        return None;
    }
    Some(Lit::from(words[HEADER] ^ words[HEADER + 1] ^ word))
}

/// Looks at the clause whose words come first here, as `Clauses::look` does.
#[inline(always)]
fn look_at(words: &mut [u32], lit: Lit, kind: Kind, trail: &Trail) -> Look {
    let Some(other) = other_watched(words, lit, kind) else {
        return Look::Stale;
    };
    if trail.is_true(other) {
        return Look::True(other);
    }
    let end = HEADER + words[LENGTH] as usize;
    if end < HEADER + 2 || end > words.len() {
        return Look::Stale;
    }
    let turn = words[TURN] as usize;
    let Some(i) = next_open(&words[HEADER + 2..end], turn, trail) else {
        return Look::Last(other);
    };
    let next = words[HEADER + 2 + i];
    words[TURN] = i as u32;
    words[HEADER] = u32::from(other);
    words[HEADER + 1] = next;
    words[HEADER + 2 + i] = u32::from(lit);
    Look::Moved {
        other,
        next: Lit::from(next),
    }
}

/// Clauses, each a header and its literals, by the places of their first words. The first two
/// literals of a clause are watched.
pub(crate) struct Clauses {
    words: Vec<u32>,
    /// How many clauses are there.
    count: usize,
    /// How many words are of removed clauses.
    removed: usize,
}

impl Drop for Clauses {
    fn drop(self) {
        let Clauses {
            words: _,
            count: _,
            removed: _,
        } = self;
    }
}

impl Clauses {
    /// No clauses.
    pub(crate) fn new(alloc: Global) -> Result<Clauses, MemoryError> {
        let mut words = Vec::new(alloc);
        words.push(0)?;
        Ok(Clauses {
            words,
            count: 0,
            removed: 0,
        })
    }

    /// A word, or 0 past the end.
    fn word(&self, i: usize) -> u32 {
        if i < self.words.len() {
            self.words[i]
        } else {
            0
        }
    }

    /// Writes a word that is there.
    fn put(&mut self, i: usize, word: u32) {
        if i < self.words.len() {
            self.words[i] = word;
        }
    }

    /// How many clauses there are.
    pub(crate) fn count(&self) -> usize {
        self.count
    }

    /// Whether most of the memory is of removed clauses, and more of it than so many words.
    pub(crate) fn is_sparse(&self, least: usize) -> bool {
        self.removed > self.words.len() / 2 && self.removed > least
    }

    /// The number of a clause, or 0 where it was removed.
    pub(crate) fn number(&self, place: u32) -> u32 {
        self.word(place as usize + NUMBER)
    }

    /// How many literals a clause has.
    pub(crate) fn len(&self, place: u32) -> u32 {
        self.word(place as usize + LENGTH)
    }

    /// The literal of this place in a clause.
    pub(crate) fn lit(&self, place: u32, i: u32) -> Lit {
        Lit::from(self.word(place as usize + HEADER + i as usize))
    }

    /// The words of a clause's literals.
    pub(crate) fn lits(&self, place: u32) -> &[u32] {
        let start = place as usize + HEADER;
        let end = start + self.len(place) as usize;
        if end > self.words.len() {
            return &self.words[..0];
        }
        &self.words[start..end]
    }

    /// Writes the literal of this place in a clause.
    fn put_lit(&mut self, place: u32, i: u32, lit: Lit) {
        self.put(place as usize + HEADER + i as usize, u32::from(lit));
    }

    /// The place of the next clause with the same hash, or 0.
    pub(crate) fn next(&self, place: u32) -> u32 {
        self.word(place as usize + NEXT)
    }

    /// Says which the next clause with the same hash is.
    pub(crate) fn set_next(&mut self, place: u32, next: u32) {
        self.put(place as usize + NEXT, next);
    }

    /// When a clause was used last, or 0 where it isn't recent.
    pub(crate) fn used(&self, place: u32) -> u32 {
        self.word(place as usize + USED)
    }

    /// Says when a clause was used last.
    pub(crate) fn set_used(&mut self, place: u32, time: u32) {
        self.put(place as usize + USED, time.min(REMOVED - 1));
    }

    /// Where the watch of this literal of a short clause stands.
    pub(crate) fn watch(&self, place: u32, i: u32) -> usize {
        self.word(place as usize + watch_word(i)) as usize
    }

    /// Says where the watch of this literal of a short clause stands.
    pub(crate) fn set_watch(&mut self, place: u32, i: u32, at: usize) {
        let word = u32::try_from(at).unwrap_or(u32::MAX);
        self.put(place as usize + watch_word(i), word);
    }

    /// Says where the watch of a literal of a short clause stands now.
    pub(crate) fn move_watch(&mut self, place: u32, lit: Lit, at: usize) {
        for i in 0..self.len(place) {
            if self.lit(place, i) == lit {
                self.set_watch(place, i, at);
            }
        }
    }

    /// Whether a clause of more literals watches this one.
    fn is_watched(&self, place: u32, lit: Lit) -> bool {
        self.lit(place, 0) == lit || self.lit(place, 1) == lit
    }

    /// Claims a clause, and says whether it is of this kind, watches this one of its literals, and
    /// wasn't claimed before.
    pub(crate) fn claim(&mut self, place: u32, lit: Lit, kind: Kind) -> bool {
        let turn = self.word(place as usize + TURN);
        if turn & CLAIMED != 0 || !kind.has(self.used(place)) || !self.is_watched(place, lit) {
            return false;
        }
        self.put(place as usize + TURN, turn | CLAIMED);
        true
    }

    /// Lets a clause be claimed again.
    pub(crate) fn release(&mut self, place: u32) {
        let turn = self.word(place as usize + TURN);
        self.put(place as usize + TURN, turn & !CLAIMED);
    }

    /// The place of the first clause, whether removed or not, if there is one.
    pub(crate) fn first(&self) -> Option<u32> {
        self.place_at(1)
    }

    /// The place of the clause after a clause, whether removed or not, if there is one.
    pub(crate) fn following(&self, place: u32) -> Option<u32> {
        self.place_at(place as usize + size_of(self.len(place)))
    }

    /// This word as a place, if a clause begins there.
    fn place_at(&self, i: usize) -> Option<u32> {
        if i < self.words.len() {
            u32::try_from(i).ok()
        } else {
            None
        }
    }

    /// How many words there are, and so more than there are clauses.
    pub(crate) fn size(&self) -> usize {
        self.words.len()
    }

    /// Appends a clause, and returns its place. More than 2^32 words count as too much memory.
    pub(crate) fn push(&mut self, number: u32, lits: &[Lit]) -> Result<u32, MemoryError> {
        let (Ok(place), Ok(len)) = (u32::try_from(self.words.len()), u32::try_from(lits.len()))
        else {
            return Err(MemoryError::Memory);
        };
        self.words.extend_from_slice(&[len, number, 0, 0, 0])?;
        for lit in lits {
            self.words.push(u32::from(*lit))?;
        }
        if len == MOST_OF_SHORT {
            self.words.push(0)?;
        }
        self.count = self.count.saturating_add(1);
        Ok(place)
    }

    /// Removes a clause. Its memory is free after the next `compact`.
    pub(crate) fn remove(&mut self, place: u32) {
        let size = size_of(self.len(place));
        self.put(place as usize + NUMBER, 0);
        self.put(place as usize + USED, REMOVED);
        self.count = self.count.saturating_sub(1);
        self.removed = self.removed.saturating_add(size);
    }

    /// Moves words down.
    fn move_words(&mut self, from: usize, to: usize, count: usize) {
        for i in 0..count {
            let word = self.word(from.saturating_add(i));
            self.put(to.saturating_add(i), word);
        }
    }

    /// Moves the clauses that are there together. Places change.
    pub(crate) fn compact(&mut self) {
        let mut end = 1;
        let mut next = self.first();
        for _ in 0..self.words.len() {
            let Some(place) = next else {
                break;
            };
            next = self.following(place);
            if self.number(place) != 0 {
                let size = size_of(self.len(place));
                self.move_words(place as usize, end, size);
                end = size.saturating_add(end);
            }
        }
        self.words.truncate(end);
        self.removed = 0;
    }

    /// Exchanges two literals of a clause.
    fn swap(&mut self, place: u32, i: u32, j: u32) {
        let first = self.lit(place, i);
        let second = self.lit(place, j);
        self.put_lit(place, i, second);
        self.put_lit(place, j, first);
    }

    /// Puts up to two literals that aren't false first, and says how many there are.
    pub(crate) fn bring_open(&mut self, place: u32, trail: &Trail) -> u32 {
        let mut found = 0;
        for i in 0..self.len(place) {
            if !trail.is_false(self.lit(place, i)) {
                self.swap(place, found, i);
                found += 1;
                if found == 2 {
                    break;
                }
            }
        }
        found
    }

    /// Looks at a clause of this kind one of whose watched literals is this one, which is false now.
    /// Where the other isn't true, it watches a further literal that isn't false in its place, if
    /// there is one. The look for that goes on where the last one ended.
    #[inline(always)]
    pub(crate) fn look(&mut self, place: u32, lit: Lit, kind: Kind, trail: &Trail) -> Look {
        let start = (place as usize).min(self.words.len());
        look_at(&mut self.words[start..], lit, kind, trail)
    }
}

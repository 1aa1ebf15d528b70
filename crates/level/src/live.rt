//! A table of the live records of one kind: asking, adding and dropping them.
ghost use Rattle.std.specs.Prelude.{◌≡◌, ◌<◌, ◌≤◌, false, not, [], ◌∷◌, ◌++◌, List, length, take, filter, position};

use crate::records::{About, Linked};
use std::marker::Model;

// The most live records.
const CAPACITY: usize = 64;

// The first `len` records are the live ones.
// stays: a rule of the project: favours and forbidden pairs are fixed arrays of 64 records in plain structs, and a live favour's record is changed in its place
#[derive(Drop)]
pub(crate) struct Live<T> {
    len: usize,
    records: [T; CAPACITY],
}

// Clauses see the list of the live records.
impl<T> Model for Live<T> {
    ghost Value = { List T };

    ghost view = { λ t. take t.len t.records };

    ghost invariant = { λ t. (t.len ≤ 64) × (length t.records ≡ 64) };
}

impl<T: Linked> Live<T> {
    ghost use Rattle.level.specs.Tables.{among, full, noted, added};

    // No live records; `filler` stands in the free places.
    pub(crate) fn empty(filler: T) -> Live<T>
        ensures { result ≡ [] }
    {
        Live {
            len: 0,
            records: [filler; CAPACITY],
        }
    }

    // The live records.
    pub(crate) fn all(&self) -> &[T]
        ensures { result.now ≡ self.now }
    {
        &self.records[..self.len]
    }

    // Is one of them meant?
    fn has(&self, about: About) -> bool
        ensures { result ≡ among (T.Linked.is_meant about) self.now }
    {
        self.all().iter().any(|record| record.is_about(about))
    }

    // The place of the first record that is meant.
    fn position(&self, about: About) -> Option<usize>
        ensures { result ≡ position (T.Linked.is_meant about) self.now }
    {
        self.all().iter().position(|record| record.is_about(about))
    }

    // Is there no place for a new record? A record that is meant needs none.
    pub(crate) fn is_full(&self, about: About) -> bool
        ensures { result ≡ full (T.Linked.is_meant about) self.now }
    {
        self.len == CAPACITY && !self.has(about)
    }

    // Puts a record into the place of the one that is meant, or behind the last one.
    #[tactic(auto, using(crate::proofs::Entries::noted_at, crate::proofs::Entries::noted_behind, crate::proofs::Entries::none_meant))]
    pub(crate) fn note(&mut self, about: About, item: T)
        requires { full (T.Linked.is_meant about) self.old ≡ false }
        ensures { self.new ≡ noted (T.Linked.is_meant about) item self.old }
    {
        match self.position(about) {
            Some(at) => self.records[at] = item,
            None => self.push(item),
        }
    }

    // Puts a record behind the last one, unless one that is meant is there.
    pub(crate) fn add(&mut self, about: About, item: T)
        requires { full (T.Linked.is_meant about) self.old ≡ false }
        ensures { self.new ≡ added (T.Linked.is_meant about) item self.old }
    {
        if !self.has(about) {
            self.push(item);
        }
    }

    // Puts a record behind the last one.
    fn push(&mut self, item: T)
        requires { length self.old < 64 }
        ensures { self.new ≡ self.old ++ (item ∷ []) }
    {
        self.records[self.len] = item;
        self.len += 1;
    }

    // Drops the records that are meant; the others keep their order.
    pub(crate) fn end(&mut self, about: About)
        ensures { self.new ≡ filter (λ t. not (T.Linked.is_meant about t)) self.old }
    {
        // stays: the records move within their own array, which has no `retain`, and an iterator over it would forbid writing it
        let mut stay = 0;
        for i in 0..self.len {
            let record = self.records[i];
            if record.is_about(about) {
                continue;
            }
            self.records[stay] = record;
            stay += 1;
        }
        self.len = stay;
    }
}

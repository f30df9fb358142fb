//! The entries of a directory page in fixed memory.
ghost use Rattle.std.specs.Prelude.{◌≡◌, ◌+◌, ◌<◌, ◌≤◌, ◌⊎◌, [], ◌∷◌, ◌++◌, length, take, insert, remove, slice_get, slice_set, MatchOption, MatchResult, IsSome, OnSome, IfNone, ◌↔◌};
ghost use Rattle.layout.specs.Entries.{most_held};
ghost use Rattle.layout.specs.Places.{no_entry, in_places};

use crate::codec::PageFull;
use crate::entry::Entry;
use crate::page::MOST_HELD;
use numbers::name::{NAME_SIZE, Name};
use numbers::sector::Sector;
use std::marker::Model;
use std::ops::DerefSlice;

/// What stands in a place of a page that holds no entry.
fn no_entry() -> Entry
    ensures { result ≡ no_entry }
{
    Entry {
        name: Name {
            bytes: [0; NAME_SIZE],
        },
        file: Sector(0),
        below: None,
    }
}

/// The places of a page without entries.
fn no_entries() -> [Entry; MOST_HELD]
    ensures { result ≡ in_places [] }
{
    let none = no_entry();
    [none; MOST_HELD]
}

/// The entries of a page in their order, 25 at most. They lie in the value itself, and are copied with it.
// not an `ArrayVec` of the library: that one is no `Copy`
#[derive(Clone, Copy, Debug, PartialEq, Eq)]
pub struct Entries {
    places: [Entry; MOST_HELD],
    count: usize,
}

/// A contract sees the list of the entries. A place behind them holds none, so that two pages with the same entries are one value.
impl Model for Entries {
    ghost use Rattle.std.specs.Prelude.{◌≡◌, ◌-◌, ◌≤◌, ◌++◌, List, length, take, drop, replicate};
    ghost use Rattle.std.proofs.Common.{arith, sym, ap, ◌∙◌, take-append-drop, length-take-le};
    ghost use Rattle.layout.specs.declared.entry.Entry.{Entry};
    ghost use Rattle.layout.specs.Places.{no_entry, in_places};

    ghost Value = { List Entry };

    ghost view = { λ e. take e.count e.places };

    ghost invariant = { λ e. (e.count ≤ 25) × (length e.places ≡ 25) × (drop e.count e.places ≡ replicate (25 - e.count) no_entry) };

    ghost inverse = { λ es. record { places = in_places es; count = length es } };

    ghost inverse_ok = { λ e h i.
        let l = length-take-le e.count e.places (omega (arith, h.0, h.1)) in record {
          places = (ap (λ k. take e.count e.places ++ replicate (25 - k) no_entry) l
              ∙ ap (λ r. take e.count e.places ++ r) (sym h.2) ∙ take-append-drop e.count e.places) i;
          count = l i;
        } };
}

impl Entries {
    /// No entries.
    pub fn new() -> Entries
        ensures { result ≡ [] }
    {
        Entries {
            places: no_entries(),
            count: 0,
        }
    }

    /// The number of entries, 25 at most.
    pub fn len(&self) -> usize
        ensures value { result ≡ length self.now }
        ensures fits { length self.now ≤ most_held }
    {
        self.as_slice().len()
    }

    /// How many more entries fit.
    pub fn remaining_capacity(&self) -> usize
        ensures { result + length self.now ≡ most_held }
    {
        MOST_HELD - self.count
    }

    /// The entries.
    pub fn as_slice(&self) -> &[Entry]
        ensures value { result.now ≡ self.now }
        ensures fits { length result.now ≤ most_held }
    {
        &self.places[..self.count]
    }

    /// One entry more, behind the others. There must be room.
    pub(crate) fn push(&mut self, entry: Entry)
        requires { length self.old < most_held }
        ensures { self.new ≡ self.old ++ entry ∷ [] }
    {
        self.places[self.count] = entry;
        self.count += 1;
    }

    /// One entry more, behind the others. A refusal changes nothing.
    pub fn try_push(&mut self, entry: Entry) -> Result<(), PageFull>
        ensures value { MatchResult result
            (λ _. self.new ≡ self.old ++ entry ∷ [])
            (λ _. (self.new ≡ self.old) × (length self.old ≡ most_held)) }
        ensures fits { length self.new ≤ most_held }
    {
        if self.count == MOST_HELD {
            return Err(PageFull);
        }
        self.push(entry);
        Ok(())
    }

    /// All of `more` behind the others, or nothing where they do not fit.
    pub fn try_extend_from_slice(&mut self, more: &[Entry]) -> Result<(), PageFull>
        ensures value { MatchResult result
            (λ _. self.new ≡ self.old ++ more.now)
            (λ _. (self.new ≡ self.old) × (most_held < length self.old + length more.now)) }
        ensures fits { length self.new ≤ most_held }
    {
        if more.len() > self.remaining_capacity() {
            return Err(PageFull);
        }
        let start = self.count;
        let end = start + more.len();
        self.places[start..end].copy_from_slice(more);
        self.count = end;
        Ok(())
    }

    /// Keeps the first `count` entries.
    pub fn truncate(&mut self, count: usize)
        ensures value { self.new ≡ take count self.old }
        ensures fits { length self.new ≤ most_held }
    {
        if count < self.count {
            let mut places = no_entries();
            places[..count].copy_from_slice(&self.places[..count]);
            self.places = places;
            self.count = count;
        }
    }

    /// An entry put in as entry `i`, before the one that stood there, or behind the last. Where there is no room or no such place it comes back, and nothing changes.
    pub fn try_insert(&mut self, i: usize, entry: Entry) -> Result<(), Entry>
        ensures value { MatchResult result
            (λ _. (length self.old < most_held) × (i ≤ length self.old) × (self.new ≡ insert self.old i entry))
            (λ e. (e ≡ entry) × (self.new ≡ self.old) × ((length self.old ≡ most_held) ⊎ (length self.old < i))) }
        ensures fits { length self.new ≤ most_held }
    {
        if self.count == MOST_HELD || i > self.count {
            return Err(entry);
        }
        self.places.copy_within(i..self.count, i + 1);
        self.places[i] = entry;
        self.count += 1;
        Ok(())
    }

    /// Takes the last entry out, if there is one.
    pub fn pop(&mut self) -> Option<Entry>
        ensures value { MatchOption result
            ((self.new ≡ self.old) × (self.old ≡ []))
            (λ e. self.old ≡ self.new ++ e ∷ []) }
        ensures fits { length self.new ≤ most_held }
    {
        let none = no_entry();
        let last = self.count.checked_sub(1)?;
        let entry = self.places[last];
        self.places[last] = none;
        self.count = last;
        Some(entry)
    }

    /// Takes entry `i` out, if there is one.
    pub fn pop_at(&mut self, i: usize) -> Option<Entry>
        ensures value { result ≡ slice_get self.old i }
        ensures variant { IsSome result ↔ (i < length self.old) }
        ensures rest { OnSome result (self.new ≡ remove self.old i) }
        ensures absent { IfNone result (self.new ≡ self.old) }
        ensures fits { length self.new ≤ most_held }
    {
        if i >= self.count {
            return None;
        }
        let none = no_entry();
        let entry = self.places[i];
        self.places.copy_within(i + 1..self.count, i);
        self.count -= 1;
        self.places[self.count] = none;
        Some(entry)
    }

    /// Another entry in the place of entry `i`, if there is one. The answer is the one that stood there.
    pub fn replace(&mut self, i: usize, entry: Entry) -> Option<Entry>
        ensures value { result ≡ slice_get self.old i }
        ensures after { self.new ≡ slice_set self.old i entry }
        ensures fits { length self.new ≤ most_held }
    {
        if i >= self.count {
            return None;
        }
        let replaced = self.places[i];
        self.places[i] = entry;
        Some(replaced)
    }
}

impl TryFrom<&[Entry]> for Entries {
    type Error = PageFull;

    ghost try_from_gives = { λ s r. MatchResult r (λ e. (e ≡ s.now) × (length s.now ≤ most_held)) (λ _. most_held < length s.now) };

    fn try_from(entries: &[Entry]) -> Result<Entries, PageFull> {
        if entries.len() > MOST_HELD {
            return Err(PageFull);
        }
        let mut places = no_entries();
        places[..entries.len()].copy_from_slice(entries);
        Ok(Entries {
            places,
            count: entries.len(),
        })
    }
}

impl DerefSlice for Entries {
    type Elem = Entry;

    ghost deref_gives = { λ e xs. (xs ≡ e) × (length xs ≤ 25) };

    fn deref(&self) -> &[Entry] {
        Entries::as_slice(self)
    }
}

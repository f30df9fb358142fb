//! Directory pages: made, written to sectors and read from them.
ghost use Rattle.std.specs.Prelude.{◌≡◌, ◌<◌, ◌≤◌, [], ◌∷◌, ◌++◌, length, codes, Some, Ok, Err, MatchOption, MatchResult, IfOk, slice_index_or};
ghost use Rattle.layout.specs.Entries.{most_entries, most_held, entries_at, all_entry_bytes};
ghost use Rattle.layout.specs.Words.{written};
ghost use Rattle.layout.specs.Pages.{page_bytes, rows_in, page_in};

use crate::entries::Entries;
use crate::entry::{
    COUNT_AT, ENTRIES_AT, ENTRY_SIZE, Entry, FIRST_AT, MARK_AT, MOST_ENTRIES, PAGE_MARK, PageFault,
    PageHead, PageKind, StoredEntry,
};
use crate::page::Page;
use crate::word::{SectorBytes, Stored};
use numbers::sector::{Address, Sector};
use std::error::Error;
use std::fmt;

/// The page has 25 entries and takes no more.
#[derive(Clone, Copy, Debug, PartialEq, Eq)]
pub struct PageFull;

impl fmt::Display for PageFull {
    ghost output = { λ _. Some (codes "the page has 25 entries") };

    fn fmt<W: fmt::Write>(&self, f: &mut fmt::Formatter<W>) -> fmt::Result {
        f.write_str("the page has 25 entries")
    }
}

impl Error for PageFull {}

impl Page {
    /// A page without entries.
    pub fn new(first: Option<Sector>) -> Page
        ensures { (result.first ≡ first) × (result.rows ≡ []) }
    {
        Page {
            first,
            entries: Entries::new(),
        }
    }

    /// The same page once more.
    pub fn copied(&self) -> Page
        ensures { result ≡ self.now }
    {
        *self
    }

    /// The number of entries, 25 at most.
    pub fn count(&self) -> usize
        ensures value { result ≡ length self.now.rows }
        ensures fits { length self.now.rows ≤ most_held }
    {
        self.entries.len()
    }

    /// Entry `i`.
    pub fn entry(&self, i: usize) -> Option<Entry>
        ensures { MatchOption result (length self.now.rows ≤ i) (λ e. (i < length self.now.rows) × (e ≡ slice_index_or self.now.rows i e)) }
    {
        self.entries.get(i).copied()
    }

    /// One entry more, behind the others. A refusal changes nothing.
    pub fn push(&mut self, entry: Entry) -> Result<(), PageFull>
        ensures value { MatchResult result
            (λ _. (self.new.rows ≡ self.old.rows ++ entry ∷ []) × (self.new.first ≡ self.old.first))
            (λ _. (self.new ≡ self.old) × (length self.old.rows ≡ most_held)) }
        ensures fits { length self.new.rows ≤ most_held }
    {
        self.entries.try_push(entry)
    }

    /// Writes the entries to their places.
    fn put_entries(&self, sector: &mut SectorBytes)
        requires { length self.now.rows ≤ most_entries }
        ensures { sector.new ≡ written sector.old entries_at (all_entry_bytes self.now.rows) }
    {
        for (i, entry) in self.entries.iter().enumerate() {
            StoredEntry::from(*entry).store(sector, ENTRIES_AT + ENTRY_SIZE * i);
        }
    }

    /// The sector that holds the page; none while the page has 25 entries.
    pub fn encode(&self) -> Option<SectorBytes>
        ensures { MatchOption result (most_entries < length self.now.rows)
            (λ s. (length self.now.rows ≤ most_entries) × (s ≡ page_bytes self.now)) }
    {
        if self.entries.len() > MOST_ENTRIES {
            return None;
        }
        let mut sector = [0u8; 1024];
        PAGE_MARK.store(&mut sector, MARK_AT);
        (self.entries.len() as u32).store(&mut sector, COUNT_AT);
        Address::from(self.first).store(&mut sector, FIRST_AT);
        self.put_entries(&mut sector);
        Some(sector)
    }

    /// The page in a sector of a disk of `size` sectors. Asked are the mark and the zeros, the count, the address of the first page, then the entries.
    pub fn decode(sector: &SectorBytes, kind: PageKind, size: u16) -> Result<Page, PageFault>
        ensures value { result ≡ page_in kind size sector.now }
        ensures fits { IfOk result (λ p. length p.rows ≤ most_held) }
    {
        let head = PageHead::read(sector)?;
        head.check_count(kind)?;
        let leaf = head.is_leaf();
        // asked as due first: where none is due and none is there, `sector` answers none as well
        if !head.first.is_as_due(!leaf, size) {
            return Err(PageFault::BadLink);
        }
        let entries = read_entries(sector, head.count, leaf, size)?;
        Ok(Page {
            first: head.first.sector(size),
            entries,
        })
    }
}

/// The entries of a sector, each asked in turn.
fn read_entries(
    sector: &SectorBytes,
    count: u32,
    leaf: bool,
    size: u16,
) -> Result<Entries, PageFault>
    requires { count ≤ most_entries }
    ensures { MatchResult result
        (λ v. rows_in size leaf sector.now 0 count ≡ Ok v)
        (λ f. rows_in size leaf sector.now 0 count ≡ Err f) }
{
    let mut entries = Entries::new();
    // entry i is read from its place in the sector: there is no list to go over yet
    for i in 0..count as usize {
        let entry = StoredEntry::load(sector, ENTRIES_AT + ENTRY_SIZE * i).check(leaf, size)?;
        entries.push(entry);
    }
    Ok(entries)
}

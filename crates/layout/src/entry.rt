//! A directory page by its parts: what stands before the entries, and each entry.
ghost use Rattle.std.specs.Prelude.{◌≡◌, ℕ, ◌+◌, ◌*◌, ◌<◌, ◌≤◌, true, false, length, MatchOption, MatchResult, Some, nat_eq};
ghost use Rattle.numbers.specs.Names.{every};
ghost use Rattle.layout.specs.Words.{Contents};
ghost use Rattle.layout.specs.Entries.{head_in, is_leaf, count_fits, count_fault, most_entries, entry_size, stored_form, stored_entry_bytes, stored_at, stored_in, check_entry};
ghost use Rattle.layout.specs.Texts.{page_fault_text};

use crate::word::{SectorBytes, Stored, WORD_SIZE};
use numbers::name::{NAME_SIZE, Name};
use numbers::sector::{Address, Sector};
use std::error::Error;
use std::fmt;

/// The mark of a directory page.
pub(crate) const PAGE_MARK: u32 = 0x9B1EA38D;

/// Where its fields stand: between the first address and the entries the bytes are 0.
pub(crate) const MARK_AT: usize = 0;

pub(crate) const COUNT_AT: usize = 4;

pub(crate) const FIRST_AT: usize = 8;

const ZEROS_AT: usize = 12;

pub(crate) const ENTRIES_AT: usize = 64;

/// The most entries that a page stores, and the fewest of one that is not the root.
pub const MOST_ENTRIES: usize = 24;

pub const LEAST_ENTRIES: usize = 12;

/// An entry's bytes, and where its addresses stand behind the name.
pub(crate) const ENTRY_SIZE: usize = 40;

const FILE_AT: usize = NAME_SIZE;

const BELOW_AT: usize = FILE_AT + WORD_SIZE;

/// An entry of a directory page: a name, the first sector of its file, and the page of the names above it and below the next entry; a leaf has none.
#[derive(Clone, Copy, Debug, Default, PartialEq, Eq)]
pub struct Entry {
    pub name: Name,
    pub file: Sector,
    pub below: Option<Sector>,
}

/// An entry as it is stored, not asked yet.
#[derive(Clone, Copy, Debug, Default, PartialEq, Eq)]
pub struct StoredEntry {
    pub name: Name,
    pub file: Address,
    pub below: Address,
}

/// The fields of a directory page before its entries: their number, and the address of the page of the names below them all.
#[derive(Clone, Copy, Debug, PartialEq, Eq)]
pub struct PageHead {
    pub count: u32,
    pub first: Address,
}

/// Where a page stands in the directory: only the root may be less than half full.
#[derive(Clone, Copy, Debug, PartialEq, Eq)]
pub enum PageKind {
    Root,
    Other,
}

/// Why a sector is not a page of the directory.
#[derive(Clone, Copy, Debug, PartialEq, Eq)]
pub enum PageFault {
    /// the mark is not that of a page, or bytes 12 to 63 are not zero
    Mark,
    /// the count is out of range for a root
    RootCount,
    /// the count is out of range for a root with children
    ParentCount,
    /// the count is out of range for another page
    OtherCount,
    /// an entry's name is not a good one
    BadName,
    /// an address is not as due
    BadLink,
}

impl fmt::Display for PageFault {
    ghost output = { λ f. Some (page_fault_text f) };

    fn fmt<W: fmt::Write>(&self, f: &mut fmt::Formatter<W>) -> fmt::Result {
        f.write_str(match self {
            PageFault::Mark => "not the mark and the zeros of a directory page",
            PageFault::RootCount => "a root holds 0 to 24 entries",
            PageFault::ParentCount => "a root with children holds 1 to 24 entries",
            PageFault::OtherCount => "a page that is not the root holds 12 to 24 entries",
            PageFault::BadName => "an entry's name is not a good one",
            PageFault::BadLink => "an address is not as due",
        })
    }
}

impl Error for PageFault {}

/// Is every byte 0?
fn is_zero(bytes: &[u8]) -> bool
    ensures { result ≡ every (λ b. nat_eq b 0) bytes.now }
{
    bytes.iter().all(|b| *b == 0)
}

impl PageHead {
    /// The fields before the entries, asked for the mark and for the zeros behind them.
    // no `TryFrom`: `Page::decode` reads a sector too, and asks more
    pub fn read(sector: &SectorBytes) -> Result<PageHead, PageFault>
        ensures { result ≡ head_in sector.now }
    {
        if u32::load(sector, MARK_AT) != PAGE_MARK || !is_zero(&sector[ZEROS_AT..ENTRIES_AT]) {
            return Err(PageFault::Mark);
        }
        Ok(PageHead {
            count: u32::load(sector, COUNT_AT),
            first: Address::load(sector, FIRST_AT),
        })
    }

    /// Is the page a leaf?
    pub fn is_leaf(&self) -> bool
        ensures { result ≡ is_leaf self.now }
    {
        self.first.is_none()
    }

    /// Is the number of entries in range for a page of this kind?
    pub fn check_count(&self, kind: PageKind) -> Result<(), PageFault>
        ensures { MatchResult result
            (λ _. count_fits kind (is_leaf self.now) self.now.count ≡ true)
            (λ f. (count_fits kind (is_leaf self.now) self.now.count ≡ false) × (f ≡ count_fault kind (is_leaf self.now))) }
    {
        let leaf = self.is_leaf();
        let (least, fault) = match kind {
            PageKind::Root if leaf => (0, PageFault::RootCount),
            PageKind::Root => (1, PageFault::ParentCount),
            PageKind::Other => (LEAST_ENTRIES, PageFault::OtherCount),
        };
        let count = self.count as usize;
        if count < least || count > MOST_ENTRIES {
            return Err(fault);
        }
        Ok(())
    }
}

/// The entry as it is stored.
impl From<Entry> for StoredEntry {
    ghost from_gives = { λ e s. s ≡ stored_form e };

    fn from(entry: Entry) -> StoredEntry {
        StoredEntry {
            name: entry.name,
            file: Address::from(entry.file),
            below: Address::from(entry.below),
        }
    }
}

impl Stored for StoredEntry {
    ghost size = { entry_size };

    ghost bytes = { stored_entry_bytes };

    ghost standing = { stored_at };

    fn store(&self, sector: &mut SectorBytes, at: usize) {
        self.name.store(sector, at);
        self.file.store(sector, at + FILE_AT);
        self.below.store(sector, at + BELOW_AT);
    }

    fn load(sector: &SectorBytes, at: usize) -> StoredEntry {
        StoredEntry {
            name: Name::load(sector, at),
            file: Address::load(sector, at + FILE_AT),
            below: Address::load(sector, at + BELOW_AT),
        }
    }
}

impl StoredEntry {
    /// Entry `i` of a page as it is stored, of the 24 that a page has room for.
    pub fn read(sector: &SectorBytes, i: usize) -> Option<StoredEntry>
        ensures { MatchOption result (most_entries ≤ i) (λ e. (i < most_entries) × (e ≡ stored_in sector.now i)) }
    {
        (i < MOST_ENTRIES).then(|| StoredEntry::load(sector, ENTRIES_AT + ENTRY_SIZE * i))
    }

    /// The entry, asked for its name, then for its addresses.
    pub fn check(&self, leaf: bool, size: u16) -> Result<Entry, PageFault>
        ensures { result ≡ check_entry size leaf self.now }
    {
        let name = Name::from_field(self.name.bytes).ok_or(PageFault::BadName)?;
        let file = self.file.sector(size).ok_or(PageFault::BadLink)?;
        // asked as due first: where none is due and none is there, `sector` answers none as well
        if !self.below.is_as_due(!leaf, size) {
            return Err(PageFault::BadLink);
        }
        let below = self.below.sector(size);
        Ok(Entry { name, file, below })
    }
}

//! A file's first sector.
ghost use Rattle.std.specs.Prelude.{◌≡◌, ℕ, ◌+◌, ◌<◌, ◌≤◌, true, false, MatchOption, Some, slice_index};
ghost use Rattle.numbers.specs.Lengths.{near_sectors, most_tables};
ghost use Rattle.numbers.specs.Sectors.{due_from};
ghost use Rattle.layout.specs.Words.{written, numbers};
ghost use Rattle.layout.specs.Headers.{empty_header, header_bytes, read_header, links_due, header_in};
ghost use Rattle.layout.specs.Texts.{header_fault_text};

use crate::word::{SectorBytes, Stored};
use numbers::length::{Length, NEAR_SECTORS, tables as tables_of};
use numbers::name::Name;
use numbers::sector::{Address, Sector};
use std::error::Error;
use std::fmt;

/// The mark of a file's first sector.
const FILE_MARK: u32 = 0x9BA71D86;

/// Where its fields stand.
const MARK_AT: usize = 0;

const NAME_AT: usize = 4;

const LAST_AT: usize = 36;

const USED_AT: usize = 40;

const DATE_AT: usize = 44;

const TABLES_AT: usize = 48;

const SECTORS_AT: usize = 96;

/// The addresses there of extension tables, and of file sectors.
pub const MOST_TABLES: usize = 12;

pub const NEAR_ADDRESSES: usize = NEAR_SECTORS as usize;

/// The part of a file's first sector that stands before the data.
#[derive(Clone, Copy, Debug, Default, PartialEq, Eq)]
pub struct Header {
    pub name: Name,
    pub length: Length,
    pub date: u32,
    /// The addresses of the extension tables, and of file sectors 0 to 63; past the end they are 0.
    pub tables: [Address; MOST_TABLES],
    pub sectors: [Address; NEAR_ADDRESSES],
}

/// Why a sector is not the first one of a file.
#[derive(Clone, Copy, Debug, PartialEq, Eq)]
pub enum HeaderFault {
    /// the mark is not that of a first sector
    Mark,
    /// the last file sector and the bytes used there are not the end of a file
    End,
    /// an address is not as due
    Link,
}

/// Do the first `due` addresses lead to sectors, and are the others 0?
fn are_as_due(list: &[Address], due: u32, size: u16) -> bool
    ensures { (from : ℕ) → result ≡ due_from size (due + from) from (numbers list.now) }
{
    list.iter()
        .enumerate()
        .all(|(i, address)| address.is_as_due(i < due as usize, size))
}

impl fmt::Display for HeaderFault {
    ghost output = { λ f. Some (header_fault_text f) };

    fn fmt<W: fmt::Write>(&self, f: &mut fmt::Formatter<W>) -> fmt::Result {
        f.write_str(match self {
            HeaderFault::Mark => "not the mark of a file's first sector",
            HeaderFault::End => "the last sector and the bytes used there are no end of a file",
            HeaderFault::Link => "an address is not as due",
        })
    }
}

impl Error for HeaderFault {}

impl Header {
    /// The header of an empty file: its date is 0, and its first sector is all that it has.
    pub fn new(name: Name, own: Sector) -> Header
        ensures { result ≡ empty_header name own.0 }
    {
        let mut sectors = [Address::default(); NEAR_ADDRESSES];
        sectors[0] = Address::from(own);
        Header {
            name,
            length: Length(0),
            date: 0,
            tables: [Address::default(); MOST_TABLES],
            sectors,
        }
    }

    /// The header of a sector, asked only for its mark and its end.
    // no `TryFrom`: `decode` reads a sector too, and asks more
    pub fn read(sector: &SectorBytes) -> Result<Header, HeaderFault>
        ensures { result ≡ read_header sector.now }
    {
        if u32::load(sector, MARK_AT) != FILE_MARK {
            return Err(HeaderFault::Mark);
        }
        let length = Length::from_end(u32::load(sector, LAST_AT), u32::load(sector, USED_AT)).ok_or(
            HeaderFault::End,
        )?;
        Ok(Header {
            name: Name::load(sector, NAME_AT),
            length,
            date: u32::load(sector, DATE_AT),
            tables: Stored::load(sector, TABLES_AT),
            sectors: Stored::load(sector, SECTORS_AT),
        })
    }

    /// Are the addresses as due: sector address 0 the file's own, those up to the end to sectors of the disk, the others 0?
    pub fn has_due_links(&self, own: Sector, size: u16) -> bool
        ensures { result ≡ links_due own.0 size self.now }
    {
        let last = self.length.last_sector();
        self.sectors[0] == Address::from(own)
            && are_as_due(&self.sectors[1..], last, size)
            && are_as_due(&self.tables, tables_of(last), size)
    }

    /// The header of the file whose first sector is `own`, on a disk of `size` sectors.
    pub fn decode(sector: &SectorBytes, own: Sector, size: u16) -> Result<Header, HeaderFault>
        ensures { result ≡ header_in own.0 size sector.now }
    {
        let header = Header::read(sector)?;
        if !header.has_due_links(own, size) {
            return Err(HeaderFault::Link);
        }
        Ok(header)
    }

    /// Writes the header before the data of a first sector.
    pub fn encode(&self, sector: &mut SectorBytes)
        ensures { sector.new ≡ written sector.old 0 (header_bytes self.now) }
    {
        FILE_MARK.store(sector, MARK_AT);
        self.name.store(sector, NAME_AT);
        self.length.last_sector().store(sector, LAST_AT);
        self.length.last_bytes().store(sector, USED_AT);
        self.date.store(sector, DATE_AT);
        self.tables.store(sector, TABLES_AT);
        self.sectors.store(sector, SECTORS_AT);
    }

    /// The address of file sector `i`, where the first sector has it.
    pub fn sector(&self, i: usize) -> Option<Address>
        ensures { MatchOption result (near_sectors ≤ i) (λ a. (i < near_sectors) × (a.0 ≡ slice_index (numbers self.now.sectors) i)) }
    {
        self.sectors.get(i).copied()
    }

    /// The address of extension table `k`, of which there are at most twelve.
    pub fn table(&self, k: usize) -> Option<Address>
        ensures { MatchOption result (most_tables ≤ k) (λ a. (k < most_tables) × (a.0 ≡ slice_index (numbers self.now.tables) k)) }
    {
        self.tables.get(k).copied()
    }
}

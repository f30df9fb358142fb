//! Extension tables.
ghost use Rattle.std.specs.Prelude.{◌≡◌, ℕ, ◌+◌, ◌<◌, ◌≤◌, true, false, length, MatchOption, slice_index};
ghost use Rattle.layout.specs.Words.{numbers};
ghost use Rattle.numbers.specs.Lengths.{table_sectors};
ghost use Rattle.layout.specs.Tables.{table_bytes, table_in, table_place, in_table};

use crate::word::{SECTOR_SIZE, SectorBytes, Stored};
use numbers::length::{LAST_OF_LONGEST, NEAR_SECTORS, TABLE_SECTORS};
use numbers::sector::Address;

/// The addresses in a table.
pub const TABLE_ADDRESSES: usize = TABLE_SECTORS as usize;

/// An extension table: the addresses of 256 file sectors. Past the end of the file they are left free.
#[derive(Clone, Copy, Debug, PartialEq, Eq)]
pub struct Table {
    pub sectors: [Address; TABLE_ADDRESSES],
}

impl Table {
    /// The sector that holds the table.
    // no `From`, here and below: `encode` and `decode` are the words for all that fills a sector, and others take a size too
    pub fn encode(&self) -> SectorBytes
        ensures { result ≡ table_bytes self.now }
    {
        let mut sector = [0u8; SECTOR_SIZE];
        self.sectors.store(&mut sector, 0);
        sector
    }

    /// The table in a sector: every sector has the form of one.
    pub fn decode(sector: &SectorBytes) -> Table
        ensures { result ≡ table_in sector.now }
    {
        Table {
            sectors: Stored::load(sector, 0),
        }
    }

    /// Entry `j` of the table.
    pub fn sector(&self, j: usize) -> Option<Address>
        ensures { MatchOption result (table_sectors ≤ j) (λ a. (j < table_sectors) × (a.0 ≡ slice_index (numbers self.now.sectors) j)) }
    {
        self.sectors.get(j).copied()
    }
}

/// The extension table that has the address of file sector `i`, and its entry there; none has those that stand in the first sector.
pub fn table_place(i: u32) -> Option<(usize, usize)>
    ensures { MatchOption result (in_table i ≡ false) (λ p. (in_table i ≡ true) × (p.0 ≡ (table_place i).0) × (p.1 ≡ (table_place i).1)) }
{
    if i < NEAR_SECTORS || i > LAST_OF_LONGEST {
        return None;
    }
    let past = i - NEAR_SECTORS;
    Some((
        (past / TABLE_SECTORS) as usize,
        (past % TABLE_SECTORS) as usize,
    ))
}

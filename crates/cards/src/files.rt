//! Files of an example.
ghost use Rattle.std.specs.Prelude.{◌<◌};
ghost use Rattle.layout.specs.Words.{sector_size};

use crate::card::Card;
use crate::fault::CardFault;
use layout::header::Header;
use layout::table::Table;
use layout::word::{SECTOR_SIZE, SectorBytes};
use numbers::length::{HEADER_SIZE, Length, NEAR_SECTORS, TABLE_SECTORS, tables};
use numbers::name::Name;
use numbers::sector::{Address, Sector};
use std::array;

/// A sector of a run, by the first one's number.
pub(crate) fn nth(first: Sector, i: usize) -> Sector {
    let i = u16::try_from(i).unwrap_or(u16::MAX);
    Sector(first.0.saturating_add(i))
}

/// The name of these bytes.
pub(crate) fn name_of(text: &[u8]) -> Result<Name, CardFault> {
    Name::new(text).ok_or(CardFault::Name)
}

/// A file of an example: its file sectors follow one another from `first` on, and its extension tables from `table` on. Byte p of it is p mod 251.
#[derive(Clone, Copy)]
pub(crate) struct Plan {
    pub name: Name,
    pub length: Length,
    pub first: Sector,
    pub table: Sector,
}

impl Plan {
    /// The address of file sector `i`; none past the end.
    fn address(&self, i: usize) -> Address {
        if i <= self.length.last_sector() as usize {
            Address::from(nth(self.first, i))
        } else {
            Address(0)
        }
    }

    /// The address of extension table `k`; none past the last.
    fn table_address(&self, k: usize) -> Address {
        if k < tables(self.length.last_sector()) as usize {
            Address::from(nth(self.table, k))
        } else {
            Address(0)
        }
    }

    /// What stands before the data.
    fn header(&self) -> Header {
        Header {
            name: self.name,
            length: self.length,
            date: 0,
            tables: array::from_fn(|k| self.table_address(k)),
            sectors: array::from_fn(|i| self.address(i)),
        }
    }

    /// Extension table `k`.
    fn table(&self, k: u32) -> Table {
        let first = NEAR_SECTORS as usize + TABLE_SECTORS as usize * k as usize;
        Table {
            sectors: array::from_fn(|j| self.address(first + j)),
        }
    }

    /// The byte `at` of file sector `i`, zero where no byte of the file lies.
    fn byte(&self, i: u32, at: usize) -> u8
        requires { at < sector_size }
    {
        let place = SECTOR_SIZE * i as usize + at;
        match place.checked_sub(HEADER_SIZE as usize) {
            Some(p) if p < self.length.0 as usize => (p % 251) as u8,
            _ => 0,
        }
    }

    /// Puts the file's sectors to a card.
    pub fn put(&self, card: &mut Card<'_>) -> Result<(), CardFault> {
        let last = self.length.last_sector();
        for i in 0..=last {
            let bytes: SectorBytes = array::from_fn(|at| self.byte(i, at));
            card.put_bytes(nth(self.first, i as usize), 0, &bytes)?;
        }
        for k in 0..tables(last) {
            card.put_table(nth(self.table, k as usize), &self.table(k))?;
        }
        card.put_header(self.first, &self.header())
    }
}

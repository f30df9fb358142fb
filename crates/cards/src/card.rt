//! An image of a card, and how its sectors are filled.
ghost use Rattle.std.specs.Prelude.{◌≡◌, ◌<◌, ◌⊎◌, length, MatchResult};
ghost use Rattle.disk.specs.Sectors.{count};
ghost use Rattle.layout.specs.Words.{stored, word_size, written as overwritten};
ghost use Rattle.layout.specs.Headers.{header_bytes};
ghost use Rattle.layout.specs.Pages.{page_bytes};
ghost use Rattle.layout.specs.Tables.{table_bytes};
ghost use Rattle.cards.specs.Fills.{bytes_of, held, Unchanged, Filled, Lacking, TooFull, NoRoom};

use crate::fault::CardFault;
use disk::image::Image;
use disk::{Disk, SECTOR_SIZE, SectorBytes};
use layout::header::Header;
use layout::page::Page;
use layout::table::Table;
use layout::word::blank_sector;
use numbers::sector::Sector;

/// An image of a card in lent bytes. What no call fills stays as it was lent.
#[derive(Drop)]
pub struct Card<'a> {
    image: Image<'a>,
}

impl Card<'_> {
    /// The card in these bytes.
    pub fn new(bytes: &mut [u8]) -> Card<'_>
        ensures { bytes_of result ≡ bytes.old }
    {
        Card {
            image: Image::new(bytes),
        }
    }

    /// What a sector holds.
    fn get(&mut self, at: Sector) -> Result<SectorBytes, CardFault>
        ensures { MatchResult result
            (λ s. (at.0 < count (bytes_of self.old)) × (s ≡ held self.old at.0) × Unchanged self.old self.new)
            (λ f. Lacking self.old at.0 f self.new) }
    {
        let mut bytes = blank_sector();
        self.image.get(usize::from(at.0), &mut bytes)?;
        Ok(bytes)
    }

    /// Fills a sector.
    fn put(&mut self, at: Sector, bytes: &SectorBytes) -> Result<(), CardFault>
        ensures { MatchResult result (λ _. Filled self.old at.0 bytes.now self.new) (λ f. Lacking self.old at.0 f self.new) }
    {
        self.image.put(usize::from(at.0), bytes)?;
        Ok(())
    }

    /// Fills a sector with a page of the directory.
    pub fn put_page(&mut self, at: Sector, page: &Page) -> Result<(), CardFault>
        ensures { MatchResult result
            (λ _. Filled self.old at.0 (page_bytes page.now) self.new)
            (λ f. TooFull (length page.now.rows) self.old f self.new ⊎ Lacking self.old at.0 f self.new) }
    {
        let bytes = page.encode().ok_or(CardFault::Full)?;
        self.put(at, &bytes)
    }

    /// Writes a file's header before the data of its first sector, which stay as they are.
    pub fn put_header(&mut self, at: Sector, header: &Header) -> Result<(), CardFault>
        ensures { MatchResult result
            (λ _. Filled self.old at.0 (overwritten (held self.old at.0) 0 (header_bytes header.now)) self.new)
            (λ f. Lacking self.old at.0 f self.new) }
    {
        let mut bytes = self.get(at)?;
        header.encode(&mut bytes);
        self.put(at, &bytes)
    }

    /// Fills a sector with an extension table.
    pub fn put_table(&mut self, at: Sector, table: &Table) -> Result<(), CardFault>
        ensures { MatchResult result (λ _. Filled self.old at.0 (table_bytes table.now) self.new) (λ f. Lacking self.old at.0 f self.new) }
    {
        self.put(at, &table.encode())
    }

    /// Writes bytes into a sector from an offset on; its others stay as they are.
    pub fn put_bytes(&mut self, at: Sector, offset: usize, bytes: &[u8]) -> Result<(), CardFault>
        ensures { MatchResult result
            (λ _. Filled self.old at.0 (overwritten (held self.old at.0) offset bytes.now) self.new)
            (λ f. NoRoom offset (length bytes.now) self.old f self.new ⊎ Lacking self.old at.0 f self.new) }
    {
        if offset > SECTOR_SIZE || bytes.len() > SECTOR_SIZE - offset {
            return Err(CardFault::Room);
        }
        let mut sector = self.get(at)?;
        sector[offset..offset + bytes.len()].copy_from_slice(bytes);
        self.put(at, &sector)
    }

    /// Writes a number into a sector from an offset on.
    pub fn put_word(&mut self, at: Sector, offset: usize, value: u32) -> Result<(), CardFault>
        ensures { MatchResult result
            (λ _. Filled self.old at.0 (overwritten (held self.old at.0) offset (stored value)) self.new)
            (λ f. NoRoom offset word_size self.old f self.new ⊎ Lacking self.old at.0 f self.new) }
    {
        self.put_bytes(at, offset, &value.to_le_bytes())
    }
}

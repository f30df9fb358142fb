//! The bytes of a file whose questions were answered with yes.
ghost use Rattle.std.specs.Prelude.{◌≡◌, ◌+◌, ◌<◌, ◌≤◌, Some, None, length, MatchResult};
ghost use Rattle.numbers.specs.Sectors.{sector_at};
ghost use Rattle.numbers.specs.Lengths.{last_of_longest, longest};
ghost use Rattle.layout.specs.Words.{written};
ghost use Rattle.survey.specs.Fetches.{FindsPart, Fills};

use catalog::fault::{LayoutFault, VolumeFault};
use disk::Disk;
use layout::header::Header;
use layout::table::{Table, table_place};
use layout::word::{SECTOR_SIZE, blank_sector};
use numbers::length::place;
use numbers::sector::{Address, Sector};

/// The sector that an address leads to, which stands in sector `holder`.
// all were asked before: that one leads nowhere does not come about
fn lead(address: Address, size: u16, holder: Sector) -> Result<Sector, LayoutFault>
    ensures { MatchResult result (λ s. sector_at size address.0 ≡ Some s) (λ e. sector_at size address.0 ≡ None) }
{
    match address.sector(size) {
        Some(sector) => Ok(sector),
        None => Err(LayoutFault::BadAddress(holder)),
    }
}

/// The sector that holds file sector `i` of a file.
fn find_part<D: Disk>(
    disk: &mut D,
    size: u16,
    header: &Header,
    first: Sector,
    i: u32,
) -> Result<Sector, VolumeFault>
    requires { i ≤ last_of_longest }
    ensures { FindsPart D.Disk.meaning D.Disk.does disk.old size header.now first.0 i result disk.new }
{
    if i == 0 {
        return Ok(first); // its own address is not asked to lead anywhere
    }
    let Some((k, j)) = table_place(i) else {
        let part = lead(header.sectors[i as usize], size, first)?;
        return Ok(part);
    };
    let table = lead(header.tables[k], size, first)?;
    let mut bytes = blank_sector();
    disk.get(usize::from(table.0), &mut bytes)?;
    let part = lead(Table::decode(&bytes).sectors[j], size, table)?;
    Ok(part)
}

/// Copies bytes to their place.
fn copy_part(into: &mut [u8], at: usize, part: &[u8])
    requires { at + length part.now ≤ length into.old }
    ensures { into.new ≡ written into.old at part.now }
{
    into[at..at + part.len()].copy_from_slice(part);
}

/// Reads the bytes of a file, as many as `into` takes.
pub(crate) fn read_bytes<D: Disk>(
    disk: &mut D,
    size: u16,
    header: &Header,
    first: Sector,
    into: &mut [u8],
) -> Result<(), VolumeFault>
    requires { header.now.length.0 ≤ longest }
    ensures { Fills D.Disk.meaning D.Disk.does disk.old size header.now first.0 into.old result disk.new into.new }
{
    let end = into.len().min(header.length.0 as usize);
    let mut done = 0;
    while done < end {
        let (i, offset) = place(done as u32);
        let part = find_part(disk, size, header, first, i)?;
        let mut bytes = blank_sector();
        disk.get(usize::from(part.0), &mut bytes)?;
        let count = (SECTOR_SIZE - offset).min(end - done);
        copy_part(into, done, &bytes[offset..offset + count]);
        done += count;
    }
    Ok(())
}

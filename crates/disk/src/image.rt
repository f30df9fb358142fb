ghost use Rattle.std.specs.Prelude.{◌≡◌, ℕ, ◌+◌, ◌*◌, ◌/◌, ◌<◌, ◌≤◌, length};
ghost use Rattle.disk.specs.Meaning.{Whole};
ghost use Rattle.disk.specs.Sectors.{count, over, sector, written, ImageDoes};

use crate::fault::{DiskFault, Layer};
use crate::{Disk, SECTOR_SIZE, SectorBytes};

/// A disk over lent bytes: sector `n` is the part that starts at byte 1024 × n.
/// It is live from its making and never gone. Bytes after the last whole sector are no sector's and stay as they are.
#[derive(Drop)]
pub struct Image<'a> {
    bytes: &'a mut [u8],
}

/// Fills `part` with `bytes`.
fn copy_in(part: &mut [u8], bytes: &SectorBytes)
    requires { length part.old ≡ 1024 }
    ensures { part.new ≡ bytes.now }
{
    part.copy_from_slice(bytes);
}

/// Reads sector `n` of `all`.
fn read_sector(all: &[u8], n: usize, into: &mut SectorBytes)
    requires { n < count all.now }
    ensures { into.new ≡ sector all.now n }
{
    let start = SECTOR_SIZE * n;
    into.copy_from_slice(&all[start..start + SECTOR_SIZE]);
}

/// Writes sector `n` of `all`.
// `as_chunks_mut` would lend sector `n` too, but says nothing of what the slice ends as.
fn write_sector(all: &mut [u8], n: usize, bytes: &SectorBytes)
    requires { n < count all.old }
    ensures after { all.new ≡ written all.old n bytes.now }
    ensures whole { Whole bytes.now }
{
    let start = SECTOR_SIZE * n;
    copy_in(&mut all[start..start + SECTOR_SIZE], bytes);
}

impl Image<'_> {
    /// A disk over these bytes, with as many sectors as lie whole in them.
    pub fn new(bytes: &mut [u8]) -> Image<'_>
        ensures { result.bytes.now ≡ bytes.old }
    {
        Image { bytes }
    }

    /// Reads sector `n`. Through `&self`, so that a `get`, which has a `&mut self`, knows that the bytes stay.
    fn read(&self, n: usize, into: &mut SectorBytes)
        requires { n < count self.now.bytes.now }
        ensures { into.new ≡ sector self.now.bytes.now n }
    {
        read_sector(self.bytes, n, into);
    }
}

impl Disk for Image<'_> {
    ghost meaning = { λ d. over d.bytes.now };

    ghost does = { λ d q r e. ImageDoes d.bytes.now q r e.bytes.now };

    fn size(&self) -> usize {
        self.bytes.len() / SECTOR_SIZE
    }

    fn live(&self) -> bool {
        true
    }

    fn get(&mut self, n: usize, into: &mut SectorBytes) -> Result<(), DiskFault> {
        if n >= self.size() {
            return Err(DiskFault::outside(Layer::Image, n));
        }
        self.read(n, into);
        Ok(())
    }

    fn put(&mut self, n: usize, bytes: &SectorBytes) -> Result<(), DiskFault> {
        if n >= self.size() {
            return Err(DiskFault::outside(Layer::Image, n));
        }
        write_sector(self.bytes, n, bytes);
        Ok(())
    }

    fn settle(&mut self) -> Result<(), DiskFault> {
        Ok(()) // what is written is settled
    }

    fn restart(&mut self) -> Result<(), DiskFault> {
        Ok(()) // what is shown is what a power stop leaves
    }
}

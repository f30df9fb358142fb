//! A disk of sectors: what it means, the rules that every disk keeps, and an end over lent bytes.
#![tactic(auto)]

ghost use Rattle.disk.specs.Meaning.{Meaning};
ghost use Rattle.disk.specs.Rules.{Answer, Request, Sizes, Lives, Gets, Puts, Settles, Restarts};
ghost use Rattle.disk.specs.Rules.Request.{getting, putting, settling, restarting};

pub mod fault;
pub mod image;
pub mod laws;

use fault::DiskFault;

/// How many bytes a sector has.
// `layout` has a size of its own: the format and the disk know nothing of each other
pub const SECTOR_SIZE: usize = 1024;

/// The bytes of a sector.
pub type SectorBytes = [u8; SECTOR_SIZE];

/// A disk of sectors of 1,024 bytes, numbered from 0.
///
/// `meaning` is what the disk is to whoever uses it, and the rule of each call speaks of it alone.
/// `does` is what this very kind of disk does: from one state, asked so, it gives that answer and is left in that state.
/// A layer states what it does over what the disk below it does, so that what it hands on is pinned, and not only allowed.
pub trait Disk {
    ghost meaning: { Self → Meaning };

    ghost does: { Self → Request → Answer → Self → Type 0 };

    /// The number of sectors.
    fn size(&self) -> usize
        ensures { Sizes (meaning self.now) result (meaning self.now) };

    /// Whether the disk is live.
    fn live(&self) -> bool
        ensures { Lives (meaning self.now) result (meaning self.now) };

    /// Fills `into` with what sector `n` shows.
    fn get(&mut self, n: usize, into: &mut SectorBytes) -> Result<(), DiskFault>
        ensures rule { Gets (meaning self.old) n into.old result (meaning self.new) into.new }
        ensures done { does self.old (getting n) result self.new };

    /// Makes `bytes` what sector `n` shows.
    fn put(&mut self, n: usize, bytes: &SectorBytes) -> Result<(), DiskFault>
        ensures rule { Puts (meaning self.old) n bytes.now result (meaning self.new) }
        ensures done { does self.old (putting n bytes.now) result self.new };

    /// Leaves nothing but what is shown for a power stop to leave.
    fn settle(&mut self) -> Result<(), DiskFault>
        ensures rule { Settles (meaning self.old) result (meaning self.new) }
        ensures done { does self.old settling result self.new };

    /// Brings the disk back after a power stop, with one of the contents that it may have left in each sector.
    fn restart(&mut self) -> Result<(), DiskFault>
        ensures rule { Restarts (meaning self.old) result (meaning self.new) }
        ensures done { does self.old restarting result self.new };
}

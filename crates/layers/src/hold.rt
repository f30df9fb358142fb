ghost use Rattle.std.specs.Prelude.{◌≡◌, ◌<◌, true, [], length};
ghost use Rattle.disk.specs.Meaning.{Sound};
ghost use Rattle.layers.specs.Rows.{at};
ghost use Rattle.layers.specs.Holding.{held, HoldDoes, Down, Spills, Shrinks, AllDown};

use crate::table::{Full, Table};
use disk::fault::{Cause, DiskFault, Layer};
use disk::{Disk, SectorBytes};

/// A write cache: keeps up to 16 put sectors in memory and shows them. A settle puts them all down and settles the disk
/// below; a restart loses them. When full, it puts one of them down before it keeps another sector.
#[derive(Drop)]
pub struct Hold<D> {
    below: D,
    table: Table,
}

impl<D: Disk> Hold<D> {
    /// A hold that keeps nothing yet.
    pub fn new(below: D) -> Hold<D>
        ensures below { result.below ≡ below }
        ensures empty { result.table.rows.items ≡ [] }
    {
        Hold {
            below,
            table: Table::new(),
        }
    }

    /// Puts the sector kept last down. Where that is gone, it stays kept.
    fn put_down(&mut self) -> Result<(), DiskFault>
        requires some { 0 < length self.old.table.rows.items }
        requires live { (D.Disk.meaning self.old.below).live ≡ true }
        ensures rule { Spills (held (at self.old.table.rows.items) (D.Disk.meaning self.old.below)) result (held (at self.new.table.rows.items) (D.Disk.meaning self.new.below)) }
        ensures sound { Sound (D.Disk.meaning self.new.below) }
        ensures fewer { Shrinks (length self.old.table.rows.items) result (length self.new.table.rows.items) }
        ensures done { Down D.Disk.does self.old.table.rows.items self.old.below result self.new.table.rows.items self.new.below }
    {
        let Some(row) = self.table.last() else {
            return Ok(());
        };
        match self.below.put(row.sector, &row.bytes) {
            Err(fault) if fault.cause == Cause::Gone => Err(fault),
            _ => {
                self.table.pop();
                Ok(())
            }
        }
    }

    /// Puts all kept sectors down.
    fn put_all_down(&mut self) -> Result<(), DiskFault>
        requires live { (D.Disk.meaning self.old.below).live ≡ true }
        requires sound { Sound (D.Disk.meaning self.old.below) }
        ensures rule { Spills (held (at self.old.table.rows.items) (D.Disk.meaning self.old.below)) result (held (at self.new.table.rows.items) (D.Disk.meaning self.new.below)) }
        ensures done { AllDown D.Disk.does self.old.table.rows.items self.old.below result self.new.table.rows.items self.new.below }
    {
        while !self.table.is_empty() {
            self.put_down()?;
        }
        Ok(())
    }
}

impl<D: Disk> Disk for Hold<D> {
    ghost meaning = { λ d. held (at d.table.rows.items) (D.Disk.meaning d.below) };

    ghost does = { λ d q r e. HoldDoes D.Disk.does (D.Disk.meaning d.below) d.table.rows.items d.below q r e.table.rows.items e.below };

    fn size(&self) -> usize {
        self.below.size() // as below
    }

    fn live(&self) -> bool {
        self.below.live() // as below
    }

    // asked here and in `put`, and so in a fuse: a method for these few lines would have a clause longer than they are
    fn get(&mut self, n: usize, into: &mut SectorBytes) -> Result<(), DiskFault> {
        if n >= self.below.size() {
            return Err(DiskFault::outside(Layer::Hold, n));
        }
        if !self.below.live() {
            return Err(DiskFault::gone(Layer::Hold, n));
        }
        match self.table.get(n) {
            Some(bytes) => {
                *into = *bytes;
                Ok(())
            }
            None => self.below.get(n, into),
        }
    }

    fn put(&mut self, n: usize, bytes: &SectorBytes) -> Result<(), DiskFault> {
        if n >= self.below.size() {
            return Err(DiskFault::outside(Layer::Hold, n));
        }
        if !self.below.live() {
            return Err(DiskFault::gone(Layer::Hold, n));
        }
        let Err(Full) = self.table.keep(n, bytes) else {
            return Ok(());
        };
        self.put_down()?;
        let _ = self.table.keep(n, bytes); // there is room now
        Ok(())
    }

    fn settle(&mut self) -> Result<(), DiskFault> {
        if !self.below.live() {
            return Err(DiskFault::gone(Layer::Hold, 0));
        }
        self.put_all_down()?;
        self.below.settle()
    }

    fn restart(&mut self) -> Result<(), DiskFault> {
        self.table.clear();
        self.below.restart()
    }
}

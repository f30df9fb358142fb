ghost use Rattle.std.specs.Prelude.{◌≡◌};
ghost use Rattle.layers.specs.Fusing.{fused, FuseDoes};
ghost use Rattle.layers.specs.declared.fuse.FuseState.TheVariants.{Counting as is_counting};

use disk::fault::{DiskFault, Layer};
use disk::{Disk, SectorBytes};

/// How a fuse stands: it still lets so many puts pass, it has blown, or it lets all pass.
// matched in each call: closures or a table for each state would only hide these few arms
#[derive(Clone, Copy, PartialEq, Eq, Debug)]
pub enum FuseState {
    Counting(usize),
    Blown,
    Bypassed,
}

/// A power stop to order: lets a chosen number of puts pass to the disk below and answers the next with gone.
/// Blown, it is not live until an accepted restart, after which it lets all pass.
#[derive(Drop)]
pub struct Fuse<D> {
    below: D,
    state: FuseState,
}

impl<D: Disk> Fuse<D> {
    /// A fuse that blows at the put after this many.
    pub fn new(below: D, passes: usize) -> Fuse<D>
        ensures below { result.below ≡ below }
        ensures state { result.state ≡ is_counting passes }
    {
        Fuse {
            below,
            state: FuseState::Counting(passes),
        }
    }
}

impl<D: Disk> Disk for Fuse<D> {
    ghost meaning = { λ d. fused d.state (D.Disk.meaning d.below) };

    ghost does = { λ d q r e. FuseDoes D.Disk.does (D.Disk.meaning d.below).size d.state d.below q r e.state e.below };

    fn size(&self) -> usize {
        self.below.size() // as below
    }

    fn live(&self) -> bool {
        let below = self.below.live();
        match self.state {
            FuseState::Blown => false,
            _ => below,
        }
    }

    fn get(&mut self, n: usize, into: &mut SectorBytes) -> Result<(), DiskFault> {
        if n >= self.below.size() {
            return Err(DiskFault::outside(Layer::Fuse, n));
        }
        match self.state {
            FuseState::Blown => Err(DiskFault::gone(Layer::Fuse, n)),
            _ => self.below.get(n, into),
        }
    }

    fn put(&mut self, n: usize, bytes: &SectorBytes) -> Result<(), DiskFault> {
        if n >= self.below.size() {
            return Err(DiskFault::outside(Layer::Fuse, n));
        }
        match self.state {
            FuseState::Blown => Err(DiskFault::gone(Layer::Fuse, n)),
            FuseState::Counting(0) => {
                self.state = FuseState::Blown;
                Err(DiskFault::gone(Layer::Fuse, n))
            }
            FuseState::Counting(left) => {
                self.state = FuseState::Counting(left - 1);
                self.below.put(n, bytes)
            }
            FuseState::Bypassed => self.below.put(n, bytes),
        }
    }

    fn settle(&mut self) -> Result<(), DiskFault> {
        let _ = self.below.size(); // tells what holds of every disk, also where nothing else is asked below
        match self.state {
            FuseState::Blown => Err(DiskFault::gone(Layer::Fuse, 0)),
            _ => self.below.settle(),
        }
    }

    fn restart(&mut self) -> Result<(), DiskFault> {
        self.below.restart()?;
        self.state = FuseState::Bypassed;
        Ok(())
    }
}

ghost use Rattle.std.specs.Prelude.{◌≡◌, ◌*◌, length, replicate};
ghost use Rattle.powerstop.specs.Tries.{Truthful, NothingWrong, NothingWrongFrom, Tried};

use crate::report::{Stopped, show_sectors};
use anyhow::Context;
use disk::image::Image;
use disk::{Disk, SECTOR_SIZE};
use layers::fuse::Fuse;
use layers::hold::Hold;
use plan::step::Step;
use std::alloc::Global;
use std::fmt;
use trial::stop::{Report, power_stop};

/// The piles that a plan is tried on, the layer that is asked named first.
#[derive(Clone, Copy, PartialEq, Eq, Debug)]
pub(crate) enum Pile {
    Image,
    Hold,
    Fuse,
    HoldOverFuse,
    FuseOverHold,
}

impl Pile {
    pub(crate) const ALL: [Pile; 5] = [
        Pile::Image,
        Pile::Hold,
        Pile::Fuse,
        Pile::HoldOverFuse,
        Pile::FuseOverHold,
    ];

    pub(crate) fn has_fuse(self) -> bool {
        !matches!(self, Pile::Image | Pile::Hold)
    }
}

impl fmt::Display for Pile {
    fn fmt<W: fmt::Write>(&self, f: &mut fmt::Formatter<W>) -> fmt::Result {
        f.write_str(match self {
            Pile::Image => "image",
            Pile::Hold => "hold",
            Pile::Fuse => "fuse",
            Pile::HoldOverFuse => "hold over fuse",
            Pile::FuseOverHold => "fuse over hold",
        })
    }
}

/// A pile, and the number of puts that its fuse lets through, if it has one.
// a number for each pile: one without a fuse ends its first run, and is tried no further
#[derive(Clone, Copy)]
pub(crate) struct Setup {
    pub(crate) pile: Pile,
    pub(crate) passes: usize,
}

impl fmt::Display for Setup {
    fn fmt<W: fmt::Write>(&self, f: &mut fmt::Formatter<W>) -> fmt::Result {
        if self.pile.has_fuse() {
            write!(f, "{},{}", self.pile, self.passes)
        } else {
            write!(f, "{},-", self.pile)
        }
    }
}

/// Runs the plan on a disk up to a power stop, restarts, and adds to `line` where it stopped and what is left.
// `steps` is what is asked and `line` what is told, here and below: not one thing
fn try_disk<D: Disk + Drop>(
    mut disk: D,
    steps: &[Step],
    line: &mut String,
) -> anyhow::Result<Report>
    ensures ran { Truthful D.Disk.meaning D.Disk.does disk steps.now result }
    ensures clean { NothingWrongFrom (D.Disk.meaning disk) result }
{
    // the disk's own fault goes, so that what is printed stays one line
    let report = power_stop(&mut disk, steps)
        .ok()
        .context("the disk is gone after the power stop")?;
    let stopped = Stopped {
        ending: &report.ending,
        steps,
    };
    write!(line, "{stopped}")?;
    show_sectors(&mut disk, steps, line)?;
    Ok(report)
}

/// Tries a plan on a pile over an image of these bytes, which are to be zero.
fn try_over(
    setup: Setup,
    bytes: &mut [u8],
    steps: &[Step],
    line: &mut String,
) -> anyhow::Result<Report>
    ensures ran { Tried setup.passes bytes.old steps.now setup.pile result }
    ensures clean { bytes.old ≡ replicate (length bytes.old) 0 → NothingWrong result }
{
    let passes = setup.passes;
    let image = Image::new(bytes);
    // a match: each pile is a type of its own, and a table of functions would have to make one and hand it out
    match setup.pile {
        Pile::Image => try_disk(image, steps, line),
        Pile::Hold => try_disk(Hold::new(image), steps, line),
        Pile::Fuse => try_disk(Fuse::new(image, passes), steps, line),
        Pile::HoldOverFuse => try_disk(Hold::new(Fuse::new(image, passes)), steps, line),
        Pile::FuseOverHold => try_disk(Fuse::new(Hold::new(image), passes), steps, line),
    }
}

/// Tries a plan on a pile over a blank image of this size, and writes the line of the report.
pub(crate) fn try_pile(
    heap: Global,
    setup: Setup,
    size: usize,
    steps: &[Step],
    line: &mut String,
) -> anyhow::Result<Report>
    ensures ran { Tried setup.passes (replicate (1024 * size) 0) steps.now setup.pile result }
    ensures clean { NothingWrong result }
{
    let length = size
        .checked_mul(SECTOR_SIZE)
        .context("the disk is too large")?;
    let mut bytes = vec![in heap; 0u8; length]?;
    write!(line, "{setup},")?;
    try_over(setup, &mut bytes, steps, line)
}

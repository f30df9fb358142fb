ghost use Rattle.std.specs.Prelude.{◌≡◌, is_ok};
ghost use Rattle.trial.specs.Stops.{Looks, Counts, StopAnswers};

use crate::ending::{Ending, reach};
use crate::judge::allowed;
use crate::run::run;
use disk::fault::DiskFault;
use disk::{Disk, SECTOR_SIZE};
use plan::step::Step;

/// How a run of a plan ended, and how many sectors show something after the restart that the plan does not allow.
#[derive(Clone, Copy, PartialEq, Eq, Debug)]
pub struct Report {
    pub ending: Ending,
    pub wrong: usize,
}

impl Report {
    /// Whether the plan ran to its end.
    pub fn is_finished(&self) -> bool
        ensures { result ≡ is_ok self.now.ending }
    {
        self.ending.is_ok()
    }
}

/// Whether sector `k` shows what these steps allow there.
fn look<D: Disk>(disk: &mut D, steps: &[Step], k: usize) -> Result<bool, DiskFault>
    ensures { Looks (D.Disk.meaning disk.old) steps.now k result (D.Disk.meaning disk.new) }
{
    let mut shown = [0u8; SECTOR_SIZE];
    disk.get(k, &mut shown)?;
    Ok(allowed(steps, k, &shown))
}

/// How many sectors show what these steps do not allow.
fn count_wrong<D: Disk>(disk: &mut D, steps: &[Step]) -> Result<usize, DiskFault>
    ensures { Counts (D.Disk.meaning disk.old) steps.now result (D.Disk.meaning disk.new) }
{
    let mut wrong = 0;
    for k in 0..disk.size() {
        if !look(disk, steps, k)? {
            wrong += 1;
        }
    }
    Ok(wrong)
}

/// Runs a plan on a disk up to its end or the first refusal, restarts the disk as after a power stop, and judges every sector.
/// From a fresh and blank disk, of whatever kind, nothing is left that the plan does not allow.
pub fn power_stop<D: Disk>(disk: &mut D, steps: &[Step]) -> Result<Report, DiskFault>
    ensures { StopAnswers D.Disk.meaning D.Disk.does disk.old steps.now result disk.new }
{
    let ending = run(disk, steps);
    let came_down = &steps[..reach(&ending, steps)];
    disk.restart()?;
    let wrong = count_wrong(disk, came_down)?;
    Ok(Report { ending, wrong })
}

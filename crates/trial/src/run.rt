ghost use Rattle.trial.specs.Runs.{request, Rule, Ended, Ran};

use crate::ending::{Ending, Stop};
use disk::Disk;
use disk::fault::DiskFault;
use plan::step::Step;

/// Asks one step of a disk.
fn ask<D: Disk>(disk: &mut D, step: &Step) -> Result<(), DiskFault>
    ensures rule { Rule step.now (D.Disk.meaning disk.old) result (D.Disk.meaning disk.new) }
    ensures done { D.Disk.does disk.old (request step.now) result disk.new }
{
    match step {
        Step::Put { sector, bytes } => disk.put(*sector, bytes),
        Step::Settle => disk.settle(),
    }
}

/// Asks the steps of a disk, in order, up to the first that it refuses.
pub fn run<D: Disk>(disk: &mut D, steps: &[Step]) -> Ending
    ensures done { Ended D.Disk.does steps.now disk.old result disk.new }
    ensures ran { Ran (D.Disk.meaning disk.old) steps.now result (D.Disk.meaning disk.new) }
{
    let _ = disk.size(); // tells what holds of every disk, also where no step is asked
    for (i, step) in steps.iter().enumerate() {
        // `map_err` and `?` were checked three times in place of this; what the closure is told of the answer did not come out of its clause
        if let Err(fault) = ask(disk, step) {
            return Err(Stop { step: i, fault });
        }
    }
    Ok(())
}

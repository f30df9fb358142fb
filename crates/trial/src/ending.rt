ghost use Rattle.std.specs.Prelude.{◌≡◌};
ghost use Rattle.trial.specs.Endings.{reach as reach_of};

use disk::fault::DiskFault;
use plan::step::Step;

/// Where a run of a plan was stopped: the step that the disk refused, and its fault.
#[derive(Clone, Copy, PartialEq, Eq, Debug)]
pub struct Stop {
    pub step: usize,
    pub fault: DiskFault,
}

/// How a run of a plan ended: at its end, or at a step that the disk refused.
pub type Ending = Result<(), Stop>;

/// How many steps may have come down: those accepted, and a put that was not, but not a settle that was not.
pub fn reach(ending: &Ending, steps: &[Step]) -> usize
    ensures { result ≡ reach_of ending.now steps.now }
{
    match ending {
        Ok(()) => steps.len(),
        Err(stop) => match steps.get(stop.step) {
            Some(Step::Put { .. }) => stop.step + 1,
            _ => stop.step,
        },
    }
}

ghost use Rattle.std.specs.Prelude.{◌≡◌, List, [], ◌∷◌};
ghost use Rattle.disk.specs.Meaning.{Contents};
ghost use Rattle.plan.specs.Plans.{blank};
ghost use Rattle.trial.specs.Leaves.{after as allowed_after, leaves, among};
ghost use Rattle.trial.specs.Judges.{Knows};

use disk::{SECTOR_SIZE, SectorBytes};
use plan::step::Step;

/// What is known of a sector's contents, step by step: whether they are the newest put, and whether they are any that is allowed.
#[derive(Clone, Copy, PartialEq, Eq, Debug)]
pub struct Judged {
    newest: bool,
    allowed: bool,
}

impl Judged {
    /// What is known of a sector that was blank at first.
    fn at_first(shown: &SectorBytes) -> Judged
        ensures { Knows result shown.now (blank ∷ []) }
    {
        let blank = [0; SECTOR_SIZE] == *shown;
        Judged {
            newest: blank,
            allowed: blank,
        }
    }

    /// What is known after one step more.
    // `sector` and `shown` go together in two functions only, here and below
    fn after(self, step: &Step, sector: usize, shown: &SectorBytes) -> Judged
        ensures { (xs : List Contents) → Knows self shown.now xs → Knows result shown.now (allowed_after sector xs step.now) }
    {
        match step {
            Step::Put { sector: n, bytes } if *n == sector => {
                let newest = bytes == shown;
                Judged {
                    newest,
                    allowed: newest || self.allowed,
                }
            }
            Step::Put { .. } => self,
            Step::Settle => Judged {
                allowed: self.newest,
                ..self
            },
        }
    }
}

/// Whether a sector that was blank at first may show this after these steps: what was settled last, or what was put later.
pub fn allowed(steps: &[Step], sector: usize, shown: &SectorBytes) -> bool
    ensures { result ≡ among shown.now (leaves sector (blank ∷ []) steps.now) }
{
    let mut judged = Judged::at_first(shown);
    for step in steps {
        judged = judged.after(step, sector, shown);
    }
    judged.allowed
}

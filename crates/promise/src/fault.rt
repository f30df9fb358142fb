ghost use Rattle.std.specs.Prelude.{◌≡◌};
ghost use Rattle.promise.specs.Faults.{number as number_of};
ghost use Rattle.promise.specs.declared.fault.FileFault.TheVariants.{Volume as of_volume};

use catalog::fault::VolumeFault;

/// Why a call of the store was refused.
#[derive(Clone, Copy, PartialEq, Eq, Debug)]
pub enum FileFault {
    /// the disk did not answer, its size is wrong, or what it holds keeps no layout
    Volume(VolumeFault),
    /// the store waits for a start or a format
    Waiting,
    /// the name is not good
    BadName,
    /// there is no such slot, it is unused, or it is not of the sort wanted
    BadSlot,
    /// the name is not there
    Absent,
    /// no slot is unused, or the file's slot has 255 handles
    Full,
    /// the file to be registered has no name
    Nameless,
    /// the file would pass its greatest length
    TooLong,
    /// too few sectors are free
    NoRoom,
}

impl FileFault {
    /// The number of the question that was answered with no.
    // a number, since the store's calls answer a refusal by its number; within the program it is the enum
    pub fn number(self) -> u8
        ensures { result ≡ number_of self }
    {
        match self {
            FileFault::Volume(fault) => fault.number(),
            FileFault::Waiting => 2,
            FileFault::BadName => 4,
            FileFault::BadSlot => 5,
            FileFault::Absent => 6,
            FileFault::Full => 7,
            FileFault::Nameless => 8,
            FileFault::TooLong => 9,
            FileFault::NoRoom => 10,
        }
    }
}

impl From<VolumeFault> for FileFault {
    ghost from_gives = { λ e r. r ≡ of_volume e };

    fn from(fault: VolumeFault) -> FileFault {
        FileFault::Volume(fault)
    }
}

ghost use Rattle.std.specs.Prelude.{◌≡◌, Some};
ghost use Rattle.plan.specs.Messages.{message_of};
ghost use Rattle.plan.specs.declared.fault.LineFault.TheVariants.{Memory};

use std::alloc::AllocFailed;
use std::error::Error;
use std::fmt;

/// Why a line is no line of a plan.
#[derive(Clone, Copy, PartialEq, Eq, Debug)]
pub enum LineFault {
    Word,
    Fields,
    Number,
    SizeMissing,
    SizeAgain,
    SizeRange,
    Sector,
    Text,
    Memory,
}

impl LineFault {
    /// What to tell whoever wrote the line.
    // kept beside Display, which writes it: the text itself is there for whoever has no writer, and cannot fail
    pub fn message(self) -> &'static str
        ensures { result.now ≡ message_of self }
    {
        match self {
            LineFault::Word => "SIZE, PUT or SETTLE is expected",
            LineFault::Fields => "a field is missing, or there is one too many",
            LineFault::Number => "a number of 1 to 7 digits is expected",
            LineFault::SizeMissing => "the first line has to be SIZE",
            LineFault::SizeAgain => "SIZE stands a second time",
            LineFault::SizeRange => "SIZE is from 1 to 16384",
            LineFault::Sector => "the sector is not below SIZE",
            LineFault::Text => "a text has at most 1024 bytes, from space to tilde",
            LineFault::Memory => "there is no memory for the plan",
        }
    }
}

impl fmt::Display for LineFault {
    ghost output = { λ f. Some (message_of f) };

    fn fmt<W: fmt::Write>(&self, f: &mut fmt::Formatter<W>) -> fmt::Result {
        f.write_str(self.message())
    }
}

impl Error for LineFault {}

/// A step for which there is no memory is let go.
impl<T: Drop> From<AllocFailed<T>> for LineFault {
    ghost from_gives = { λ _ f. f ≡ Memory };

    fn from(_failed: AllocFailed<T>) -> LineFault {
        LineFault::Memory // a push fails for no other reason
    }
}

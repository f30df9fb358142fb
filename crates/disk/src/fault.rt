ghost use Rattle.std.specs.Prelude.{◌≡◌, Some};
ghost use Rattle.disk.specs.Faults.{outside as is_outside, gone as is_gone};
ghost use Rattle.disk.specs.Texts.{layer_text, cause_text, fault_text};

use std::error::Error;
use std::fmt;

/// The kind of disk that an answer came from.
#[derive(Clone, Copy, PartialEq, Eq, Debug)]
pub enum Layer {
    Image,
    Hold,
    Fuse,
}

/// Why a disk did not do what it was asked.
#[derive(Clone, Copy, PartialEq, Eq, Debug)]
pub enum Cause {
    Outside,
    Gone,
}

/// A disk's refusal: the kind of disk that it came from, the cause, and the sector asked there (0 for a settle or a restart).
#[derive(Clone, Copy, PartialEq, Eq, Debug)]
pub struct DiskFault {
    pub layer: Layer,
    pub cause: Cause,
    // 0 and no Option where none was asked: a rule of the project, and what a report prints
    pub sector: usize,
}

// two functions that differ in their cause alone: one that is given it would be the struct itself over again
impl DiskFault {
    /// There is no sector of this number.
    pub fn outside(layer: Layer, sector: usize) -> DiskFault
        ensures { result ≡ is_outside layer sector }
    {
        DiskFault {
            layer,
            cause: Cause::Outside,
            sector,
        }
    }

    /// The disk does not answer.
    pub fn gone(layer: Layer, sector: usize) -> DiskFault
        ensures { result ≡ is_gone layer sector }
    {
        DiskFault {
            layer,
            cause: Cause::Gone,
            sector,
        }
    }
}

impl fmt::Display for Layer {
    ghost output = { λ layer. Some (layer_text layer) };

    fn fmt<W: fmt::Write>(&self, f: &mut fmt::Formatter<W>) -> fmt::Result {
        f.write_str(match self {
            Layer::Image => "image",
            Layer::Hold => "hold",
            Layer::Fuse => "fuse",
        })
    }
}

impl fmt::Display for Cause {
    ghost output = { λ cause. Some (cause_text cause) };

    fn fmt<W: fmt::Write>(&self, f: &mut fmt::Formatter<W>) -> fmt::Result {
        f.write_str(match self {
            Cause::Outside => "outside",
            Cause::Gone => "gone",
        })
    }
}

impl fmt::Display for DiskFault {
    ghost output = { λ fault. Some (fault_text fault) };

    fn fmt<W: fmt::Write>(&self, f: &mut fmt::Formatter<W>) -> fmt::Result {
        write!(f, "{} {} {}", self.cause, self.layer, self.sector)
    }
}

impl Error for DiskFault {}

ghost use Rattle.std.specs.Prelude.{◌≡◌, Some};
ghost use Rattle.cards.specs.declared.fault.CardFault.TheVariants.{Disk as of_disk, Full as too_full};
ghost use Rattle.cards.specs.Texts.{card_fault_text};

use disk::fault::DiskFault;
use layout::codec::PageFull;
use std::error::Error;
use std::fmt;

/// Why a card is not built further.
#[derive(Clone, Copy, PartialEq, Eq, Debug)]
pub enum CardFault {
    /// the image has no such sector
    Disk(DiskFault),
    /// a page has more entries than a sector has room for
    Full,
    /// the sector has no room for these bytes there
    Room,
    /// a name is not a good one
    Name,
}

impl From<DiskFault> for CardFault {
    ghost from_gives = { λ e r. r ≡ of_disk e };

    fn from(fault: DiskFault) -> CardFault {
        CardFault::Disk(fault)
    }
}

impl From<PageFull> for CardFault {
    ghost from_gives = { λ _ r. r ≡ too_full };

    fn from(_fault: PageFull) -> CardFault {
        CardFault::Full
    }
}

impl fmt::Display for CardFault {
    ghost output = { λ fault. Some (card_fault_text fault) };

    fn fmt<W: fmt::Write>(&self, f: &mut fmt::Formatter<W>) -> fmt::Result {
        match self {
            CardFault::Disk(refusal) => write!(f, "the image did not answer: {refusal}"),
            CardFault::Full => f.write_str("a page has more than 24 entries"),
            CardFault::Room => f.write_str("the bytes reach past the end of their sector"),
            CardFault::Name => f.write_str("a name is not a good one"),
        }
    }
}

impl Error for CardFault {}

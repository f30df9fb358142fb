ghost use Rattle.std.specs.Prelude.{◌≡◌, Some};
ghost use Rattle.catalog.specs.Faults.{layout_number, layout_sector, volume_number};
ghost use Rattle.catalog.specs.Texts.{layout_fault_words, layout_fault_text, volume_fault_text};
ghost use Rattle.catalog.specs.declared.fault.VolumeFault.TheVariants.{Disk as of_disk, Layout as of_layout};

use disk::fault::DiskFault;
use numbers::sector::Sector;
use std::error::Error;
use std::fmt;

/// What is wrong with a volume's layout, with the sector that held what was asked.
#[derive(Clone, Copy, PartialEq, Eq, Debug)]
pub enum LayoutFault {
    /// the disk does not have 3 to 16,384 sectors
    BadSize,
    /// the mark is wrong, or a page's bytes 12 to 63 are not zero
    BadMark(Sector),
    /// the number of entries is out of range
    BadCount(Sector),
    /// an address is not one of a sector from 2 up, or not 0 where it should be
    BadAddress(Sector),
    /// an address leads to a sector that was met before
    MetBefore(Sector),
    /// the page is on level 5, or a leaf that is not on the first leaf's level
    BadLevel(Sector),
    /// an entry's name is not good, or not above the last one
    BadEntry(Sector),
    /// the last file sector and the bytes used in it are not the end of a file
    BadLength(Sector),
}

impl LayoutFault {
    /// The number of the question that was answered with no.
    // a number, since the store's calls answer a refusal by its number; within the program it is the enum
    pub fn number(self) -> u8
        ensures { result ≡ layout_number self }
    {
        match self {
            LayoutFault::BadSize => 1,
            LayoutFault::BadMark(_) => 11,
            LayoutFault::BadCount(_) => 12,
            LayoutFault::BadAddress(_) => 13,
            LayoutFault::MetBefore(_) => 14,
            LayoutFault::BadLevel(_) => 15,
            LayoutFault::BadEntry(_) => 16,
            LayoutFault::BadLength(_) => 17,
        }
    }

    /// The sector that held what was asked; none did where the disk's size is wrong.
    pub fn sector(self) -> Option<Sector>
        ensures { result ≡ layout_sector self }
    {
        match self {
            LayoutFault::BadSize => None,
            LayoutFault::BadMark(s)
            | LayoutFault::BadCount(s)
            | LayoutFault::BadAddress(s)
            | LayoutFault::MetBefore(s)
            | LayoutFault::BadLevel(s)
            | LayoutFault::BadEntry(s)
            | LayoutFault::BadLength(s) => Some(s),
        }
    }

    /// What is wrong, without the sector.
    fn words(self) -> &'static str
        ensures { result.now ≡ layout_fault_words self }
    {
        match self {
            LayoutFault::BadSize => "the card does not have 3 to 16384 sectors",
            LayoutFault::BadMark(_) => "the mark is wrong, or bytes that should be zero are not",
            LayoutFault::BadCount(_) => "the number of entries is out of range",
            LayoutFault::BadAddress(_) => {
                "an address leads to no sector of the card, or is not the one that should stand there"
            }
            LayoutFault::MetBefore(_) => "an address leads to a sector that is in use already",
            LayoutFault::BadLevel(_) => {
                "the page is more than four levels down, or a leaf that is not level with the first one"
            }
            LayoutFault::BadEntry(_) => "a name is not a good one, or not above the name before it",
            LayoutFault::BadLength(_) => "the length of the file is out of range",
        }
    }
}

/// In plain words, for whoever has the card in hand.
impl fmt::Display for LayoutFault {
    ghost output = { λ fault. Some (layout_fault_text fault) };

    fn fmt<W: fmt::Write>(&self, f: &mut fmt::Formatter<W>) -> fmt::Result {
        let words = self.words();
        match self.sector() {
            Some(sector) => write!(f, "sector {}: {words}", sector.0),
            None => f.write_str(words),
        }
    }
}

impl Error for LayoutFault {}

/// Why a volume could not be read: the disk did not answer, or its layout is wrong.
#[derive(Clone, Copy, PartialEq, Eq, Debug)]
pub enum VolumeFault {
    Disk(DiskFault),
    Layout(LayoutFault),
}

impl VolumeFault {
    /// The number of the question that was answered with no.
    // a number, since the store's calls answer a refusal by its number; within the program it is the enum
    pub fn number(self) -> u8
        ensures { result ≡ volume_number self }
    {
        match self {
            VolumeFault::Disk(_) => 3,
            VolumeFault::Layout(fault) => fault.number(),
        }
    }
}

impl From<DiskFault> for VolumeFault {
    ghost from_gives = { λ e r. r ≡ of_disk e };

    fn from(fault: DiskFault) -> VolumeFault {
        VolumeFault::Disk(fault)
    }
}

impl From<LayoutFault> for VolumeFault {
    ghost from_gives = { λ e r. r ≡ of_layout e };

    fn from(fault: LayoutFault) -> VolumeFault {
        VolumeFault::Layout(fault)
    }
}

impl fmt::Display for VolumeFault {
    ghost output = { λ fault. Some (volume_fault_text fault) };

    fn fmt<W: fmt::Write>(&self, f: &mut fmt::Formatter<W>) -> fmt::Result {
        match self {
            VolumeFault::Disk(refusal) => write!(f, "the card did not answer: {refusal}"),
            VolumeFault::Layout(wrong) => write!(f, "{wrong}"),
        }
    }
}

impl Error for VolumeFault {}

ghost use Rattle.std.specs.Prelude.{◌≡◌, ◌+◌, ◌*◌, Some};
ghost use Rattle.catalog.specs.Questions.{most_sectors};
ghost use Rattle.cardcheck.specs.Judges.{Judges, ReadsEnough};
ghost use Rattle.cardcheck.specs.Texts.{row_text, fault_sector, report_text, is_sound};

use catalog::fault::VolumeFault;
use disk::image::Image;
use disk::{Disk, SECTOR_SIZE};
use std::alloc::{AllocError, Global};
use std::{fmt, str};
use survey::map::{MOST_SECTORS, SectorMap};
use survey::row::FileRow;
use survey::survey::{Counts, survey};

/// As many bytes as have to be read: a card of one sector more than there may be is refused, however much follows.
pub(crate) fn most_bytes() -> usize
    ensures value { result ≡ 1024 * (most_sectors + 1) }
    ensures enough { ReadsEnough result }
{
    SECTOR_SIZE * (MOST_SECTORS + 1)
}

/// A file of a listing.
#[derive(Clone, Copy)]
struct Line<'a>(&'a FileRow);

impl fmt::Display for Line<'_> {
    ghost output = { λ line. Some (row_text line.0.now) };

    fn fmt<W: fmt::Write>(&self, f: &mut fmt::Formatter<W>) -> fmt::Result {
        let row = self.0;
        // a name has no bytes but letters, digits and dots
        let name = str::from_utf8(row.name.text()).map_err(|_| fmt::Error)?;
        write!(f, "file,{name},{}", row.length.0)
    }
}

/// What is said of a card: the files and the counts of a sound one, or the first thing that is wrong.
#[derive(Drop)]
pub(crate) enum Report {
    Sound(Vec<FileRow>, Counts),
    Broken(VolumeFault),
}

impl Report {
    /// Surveys a card.
    pub(crate) fn of(heap: Global, card: &mut Image<'_>) -> Result<Report, AllocError>
        ensures { Judges card.old.bytes.now result card.new.bytes.now }
    {
        // rows enough: each name has a file of a sector at least
        let mut files = vec![in heap; FileRow::default(); card.size()]?;
        match survey(card, &mut SectorMap::new(), &mut files) {
            Ok(counts) => {
                files.truncate(counts.names);
                Ok(Report::Sound(files, counts))
            }
            Err(fault) => Ok(Report::Broken(fault)),
        }
    }

    /// Is the card sound?
    pub(crate) fn is_sound(&self) -> bool
        ensures { result ≡ is_sound self.now }
    {
        matches!(self, Report::Sound(..))
    }
}

/// The sector that held what was asked, or that the disk was asked for; 0 where there is none.
fn sector_of(fault: VolumeFault) -> usize
    ensures { result ≡ fault_sector fault }
{
    match fault {
        VolumeFault::Disk(refusal) => refusal.sector,
        VolumeFault::Layout(wrong) => match wrong.sector() {
            Some(sector) => usize::from(sector.0),
            None => 0,
        },
    }
}

impl fmt::Display for Report {
    ghost output = { λ report. Some (report_text report) };

    fn fmt<W: fmt::Write>(&self, f: &mut fmt::Formatter<W>) -> fmt::Result {
        match self {
            Report::Sound(files, counts) => {
                for row in files {
                    writeln!(f, "{}", Line(row))?;
                }
                write!(
                    f,
                    "ok,{},{},{},{}",
                    counts.names, counts.pages, counts.file_sectors, counts.free
                )
            }
            Report::Broken(fault) => {
                write!(f, "no,{},{}\n{fault}", fault.number(), sector_of(*fault))
            }
        }
    }
}

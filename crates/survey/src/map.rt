//! Which sectors were met.
ghost use Rattle.std.specs.Prelude.{◌≡◌, ◌+◌, ◌<◌, ◌≤◌, true, not, cond, length, slice_set};
ghost use Rattle.catalog.specs.Questions.{most_sectors};
ghost use Rattle.survey.specs.Lines.{is_met, met_count, none_met};

use numbers::sector::Sector;

/// The most sectors that a volume has.
pub const MOST_SECTORS: usize = 16_384;

/// The sectors that were met, of those that a volume can have.
#[derive(Clone, Copy, Drop)]
pub struct SectorMap {
    met: [bool; MOST_SECTORS],
    ghost long: { length met ≡ most_sectors },
}

impl SectorMap {
    /// A map of which no sector is met.
    pub fn new() -> SectorMap
        ensures { result.met ≡ none_met }
    {
        SectorMap {
            met: [false; MOST_SECTORS],
        }
    }

    /// Was the sector met?
    pub fn is_met(&self, sector: Sector) -> bool
        ensures { result ≡ is_met self.now.met sector.0 }
    {
        self.met
            .get(usize::from(sector.0))
            .copied()
            .unwrap_or(false)
    }

    /// The number of sectors that were met.
    pub fn count(&self) -> usize
        ensures { result ≡ met_count self.now.met }
    {
        self.met.iter().filter(|met| **met).count()
    }

    /// Meets a sector, and tells whether it was met for the first time.
    pub(crate) fn meet(&mut self, sector: Sector) -> bool
        requires { sector.0 < most_sectors }
        ensures first { result ≡ not (is_met self.old.met sector.0) }
        ensures met { self.new.met ≡ slice_set self.old.met sector.0 true }
        ensures more { met_count self.new.met ≡ met_count self.old.met + cond result 1 0 }
    {
        let at = usize::from(sector.0);
        let first = !self.met[at];
        self.met[at] = true;
        first
    }
}

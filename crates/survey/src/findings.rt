//! What the questions have found so far.
ghost use Rattle.std.specs.Prelude.{◌*◌, ◌≤◌};
ghost use Rattle.catalog.specs.Questions.{most_sectors};
ghost use Rattle.survey.specs.Lines.{met_count};

use crate::map::SectorMap;
use numbers::name::Name;

/// What was found so far on a disk of `size` sectors whose leaves belong on level `leaf_level`.
#[derive(Drop)]
pub(crate) struct Findings {
    pub size: u16,
    pub leaf_level: u32,
    pub map: SectorMap,
    pub last: Option<Name>,
    pub names: usize,
    pub file_sectors: usize,
    ghost small: { size ≤ most_sectors },
    ghost few: { names ≤ met_count map.met },
    ghost short: { file_sectors ≤ 3148 * names },
}

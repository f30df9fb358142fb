//! The questions of a page of the directory, with all below it.
ghost use Rattle.std.specs.Prelude.{◌≡◌, ◌<◌, ◌≤◌, ◌-◌, not, ◌&&◌, ◌||◌, ◌==◌, nat_le, IfOk};
ghost use Rattle.tree.specs.Tree.{most_levels};
ghost use Rattle.catalog.specs.Questions.{kind_at, ask_page as page_questions};
ghost use Rattle.survey.specs.Asks.{Memory, Tells, Surveyed, Levelled, told, told_layout, top_asks, TopOf, entry_asks, below_asks, memory};

use crate::file::ask_file;
use crate::findings::Findings;
use crate::row::FileRow;
use catalog::fault::{LayoutFault, VolumeFault};
use disk::Disk;
use layout::entry::{PageHead, PageKind, StoredEntry};
use layout::word::{SectorBytes, blank_sector, get_word};
use numbers::sector::{Address, Sector};

/// The sector of the root page.
pub(crate) const ROOT: Sector = Sector(1);

/// The most levels of pages.
pub(crate) const MOST_LEVELS: u32 = 4;

/// Where the address of a page's first child stands.
const FIRST_AT: usize = 8;

/// Where a page stands in the directory: its sector, and its level, which is 1 for the root.
#[derive(Clone, Copy)]
pub(crate) struct Place {
    pub page: Sector,
    pub level: u32,
}

/// The level of the first leaf: down the addresses of first children as long as they lead to a sector, four times at most.
pub(crate) fn leaf_level<D: Disk>(disk: &mut D, size: u16) -> Result<u32, VolumeFault>
    requires size { size ≡ (D.Disk.meaning disk.old).size }
    requires inside { 1 < size }
    ensures { Levelled D.Disk.meaning D.Disk.does disk.old result disk.new }
{
    let mut bytes = blank_sector();
    let mut page = ROOT;
    for level in 1..MOST_LEVELS + 1 {
        disk.get(usize::from(page.0), &mut bytes)?;
        let first = Address(get_word(&bytes, FIRST_AT).unwrap());
        match first.sector(size) {
            Some(child) => page = child,
            None => return Ok(level),
        }
    }
    Ok(MOST_LEVELS + 1)
}

/// The kind of a page on a level.
fn kind_at(level: u32) -> PageKind
    ensures { result ≡ kind_at level }
{
    if level == 1 {
        PageKind::Root
    } else {
        PageKind::Other
    }
}

/// Is the page on level 1 to 4, and on level `leaf_level` if it is a leaf?
fn is_on_level(level: u32, leaf: bool, leaf_level: u32) -> bool
    ensures { result ≡ (nat_le level most_levels && (not leaf || level == leaf_level)) }
{
    level <= MOST_LEVELS && (!leaf || level == leaf_level)
}

/// Asks a page for its mark and its zeros, its number of entries, and its level.
fn ask_top(bytes: &SectorBytes, leaf_level: u32, place: Place) -> Result<PageHead, LayoutFault>
    ensures told { (x : Memory) → Tells x (λ w. top_asks bytes.now leaf_level place.level place.page.0) (told_layout result) x }
    ensures top { IfOk result (TopOf bytes.now place.level) }
{
    let Ok(head) = PageHead::read(bytes) else {
        return Err(LayoutFault::BadMark(place.page));
    };
    if head.check_count(kind_at(place.level)).is_err() {
        return Err(LayoutFault::BadCount(place.page));
    }
    if !is_on_level(place.level, head.is_leaf(), leaf_level) {
        return Err(LayoutFault::BadLevel(place.page));
    }
    Ok(head)
}

/// Asks an entry for its name and its file, which is listed then.
fn ask_entry<D: Disk>(
    disk: &mut D,
    findings: &mut Findings,
    rows: &mut [FileRow],
    page: Sector,
    entry: &StoredEntry,
) -> Result<(), VolumeFault>
    ensures { Surveyed D.Disk.meaning D.Disk.does disk.old (memory findings.old rows.old)
        (entry_asks page.0 entry.now.name.bytes entry.now.file.0) (told result) disk.new (memory findings.new rows.new) }
{
    let name = findings.rise(page, entry.name.bytes)?;
    let first = findings.follow(page, entry.file)?;
    let length = ask_file(disk, findings, first)?;
    findings.list(
        rows,
        FileRow {
            name,
            first,
            length,
        },
    );
    Ok(())
}

/// Asks an address in a page for the page below that it leads to, where one is due.
#[cycle(pages)]
fn ask_below<D: Disk>(
    disk: &mut D,
    findings: &mut Findings,
    rows: &mut [FileRow],
    parent: Place,
    address: Address,
    due: bool,
) -> Result<(), VolumeFault>
    requires { parent.level ≤ most_levels }
    ensures { Surveyed D.Disk.meaning D.Disk.does disk.old (memory findings.old rows.old)
        (below_asks parent.level due parent.page.0 address.0) (told result) disk.new (memory findings.new rows.new) }
{
    match findings.link(parent.page, address, due)? {
        Some(page) => ask_page(
            disk,
            findings,
            rows,
            Place {
                page,
                level: parent.level + 1,
            },
        ),
        None => Ok(()),
    }
}

/// Asks a page, with all below it.
#[cycle(pages)]
pub(crate) fn ask_page<D: Disk>(
    disk: &mut D,
    findings: &mut Findings,
    rows: &mut [FileRow],
    place: Place,
) -> Result<(), VolumeFault>
    requires level { place.level ≤ 5 }
    requires inside { place.page.0 < findings.old.size }
    ensures { Surveyed D.Disk.meaning D.Disk.does disk.old (memory findings.old rows.old)
        (λ w. page_questions w.size w.shown w.deep (6 - place.level) place.level place.page.0) (told result) disk.new (memory findings.new rows.new) }
{
    let mut bytes = blank_sector();
    disk.get(usize::from(place.page.0), &mut bytes)?;
    let head = ask_top(&bytes, findings.leaf_level, place)?;
    let inner = !head.is_leaf();
    ask_below(disk, findings, rows, place, head.first, inner)?;
    for i in 0..head.count as usize {
        let entry = StoredEntry::read(&bytes, i).unwrap();
        ask_entry(disk, findings, rows, place.page, &entry)?;
        ask_below(disk, findings, rows, place, entry.below, inner)?;
    }
    Ok(())
}
